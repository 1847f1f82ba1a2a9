ghost use Rattle.std.specs.Prelude.{◌≡◌, ◌≤◌, length, All, OnOk, OnErr};
ghost use Rattle.plane.specs.Direction.{is_nearer, straight_up, IsNotZero};
ghost use Rattle.edge_links.specs.Rays.{no_rays, with_ray, place_for};

use grid_angle::{Dir, clockwise};
use std::alloc::Global;
use std::cmp::Ordering;
use std::marker::Model;
use topo_base::{Dart, Memory};

/// The darts that leave a node, in clockwise order from straight up, and the directions in which they
/// do. Contracts see both lists.
#[derive(Debug, Drop)]
pub struct Star {
    darts: Vec<Dart>,
    dirs: Vec<Dir>,
}

impl Model for Star {
    ghost use Rattle.std.specs.Prelude.{◌≡◌, length, All};
    ghost use Rattle.plane.specs.Direction.{IsNotZero};
    ghost use Rattle.edge_links.specs.Rays.{Rays};

    ghost Value = { Rays };

    ghost view = { λ s. record { darts = s.darts.items; dirs = s.dirs.items } };

    ghost invariant = { λ s. (length s.darts.items ≡ length s.dirs.items) × All IsNotZero s.dirs.items };
}

/// Whether one direction comes strictly before another, clockwise from straight up.
fn is_first(dir: Dir, other: &Dir) -> bool
    ensures { result ≡ is_nearer straight_up dir other.now }
{
    match clockwise(Dir::up(), dir, *other) {
        Ordering::Less => true,
        _ => false,
    }
}

/// The index before which a direction stands: that of the first one that comes after it.
fn place_for(dirs: &[Dir], dir: Dir) -> usize
    ensures value { result ≡ place_for dirs.now dir }
    ensures within { result ≤ length dirs.now }
{
    for (index, other) in dirs.iter().enumerate() {
        if is_first(dir, other) {
            return index;
        }
    }
    dirs.len()
}

impl Star {
    /// No darts. Takes no memory.
    pub fn new(alloc: Global) -> Star
        ensures { result ≡ no_rays }
    {
        Star {
            darts: Vec::new(alloc),
            dirs: Vec::new(alloc),
        }
    }

    /// The darts, in clockwise order from straight up.
    pub fn darts(&self) -> &[Dart]
        ensures darts { result.now ≡ self.now.darts }
        ensures each { length self.now.darts ≡ length self.now.dirs }
    {
        &self.darts
    }

    /// The directions in which the darts leave, in the same order.
    pub fn dirs(&self) -> &[Dir]
        ensures dirs { result.now ≡ self.now.dirs }
        ensures some { All IsNotZero self.now.dirs }
        ensures each { length self.now.darts ≡ length self.now.dirs }
    {
        &self.dirs
    }

    /// Puts a dart that leaves in this direction before those that come after it.
    pub fn insert(&mut self, dart: Dart, dir: Dir) -> Result<(), Memory>
        ensures ok { OnOk result (self.new ≡ with_ray dart dir self.old) }
        ensures err { OnErr result (self.new ≡ self.old) }
    {
        let _ = dir.dx();
        let index = place_for(&self.dirs, dir);
        self.darts.reserve(1)?;
        self.dirs.reserve(1)?;
        self.darts.insert(index, dart).unwrap();
        self.dirs.insert(index, dir).unwrap();
        Ok(())
    }
}
