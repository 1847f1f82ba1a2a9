// Rings: the walks from each dart to the next until the first comes back.
ghost use Rattle.std.specs.Prelude.{◌≡◌, ◌<◌, ◌≤◌, ◌++◌, not, length, reverse, IfOk, OnOk};
ghost use Rattle.plane.specs.ClosedWalk.{closed_segments, is_hole_walk, top_of as top_along};
ghost use Rattle.face_parts.specs.Paths.{without_last};
ghost use Rattle.validate_topology.specs.Following.{half_edge};
ghost use Rattle.validate_topology.specs.Walks.{AreFollowed, AreWalks, IsRingAt, MarksRing, halves_of, path_along};

use crate::sides::Side;
use crate::stars::Followers;
use grid_rays::{Ring, is_shell, top_vertex};
use std::alloc::Global;
use topo_base::{Grid, Line, Memory};

/// A ring: its darts, the least one first, whether it is a shell, and its top vertex.
#[derive(Drop)]
pub struct Walk<'a> {
    pub sides: Vec<Side<'a>>,
    pub is_shell: bool,
    pub top: Grid,
}

/// The darts from the one at a place on until it comes back. Marks their places.
fn ring_from<'a>(
    alloc: Global,
    sides: &[Side<'a>],
    followers: &Followers,
    first: usize,
    seen: &mut [bool],
) -> Result<Vec<Side<'a>>, Memory>
    requires first { first < length sides.now }
    requires len { length seen.old ≡ length sides.now }
    requires followed { AreFollowed (halves_of sides.now) followers.now }
    ensures ring { IfOk result (λ v. IsRingAt (halves_of sides.now) first v.items) }
    ensures marks { IfOk result (λ v. MarksRing (halves_of sides.now) v.items seen.old seen.new) }
{
    let mut ring = Vec::new(alloc);
    let mut here = first;
    loop {
        ring.push(sides[here])?;
        seen[here] = true;
        here = followers.next(here);
        if here == first {
            return Ok(ring);
        }
    }
}

/// Puts the vertices of a line behind others, without its last.
fn push_forward(path: &mut Vec<Grid>, line: &Line) -> Result<(), Memory>
    ensures { OnOk result (path.new.items ≡ path.old.items ++ without_last line.now) }
{
    let vertices = line.vertices();
    let (front, _) = vertices.split_at(vertices.len() - 1);
    path.extend_from_slice(front)?;
    Ok(())
}

fn push_reversed(path: &mut Vec<Grid>, vertices: &[Grid]) -> Result<(), Memory>
    ensures { OnOk result (path.new.items ≡ path.old.items ++ reverse vertices.now) }
{
    let mut left = vertices.len();
    while left > 0 {
        left -= 1;
        path.push(vertices[left])?;
    }
    Ok(())
}

/// Puts the vertices of a line behind others, the last first, and without its first.
fn push_backward(path: &mut Vec<Grid>, line: &Line) -> Result<(), Memory>
    ensures { OnOk result (path.new.items ≡ path.old.items ++ without_last (reverse line.now)) }
{
    let (_, behind) = line.vertices().split_at(1);
    push_reversed(path, behind)
}

/// Puts the vertices of a dart behind others, without the last.
fn push_walked(path: &mut Vec<Grid>, side: &Side<'_>) -> Result<(), Memory>
    ensures { OnOk result (path.new.items ≡ path.old.items ++ without_last ((half_edge side.now).points)) }
{
    if side.is_forward {
        push_forward(path, &side.row.geom)
    } else {
        push_backward(path, &side.row.geom)
    }
}

/// The vertices of the closed walk along these darts.
fn path_of(alloc: Global, sides: &[Side<'_>]) -> Result<Vec<Grid>, Memory>
    ensures { IfOk result (λ path. path.items ≡ path_along (halves_of sides.now)) }
{
    let mut path = Vec::new(alloc);
    for side in sides {
        push_walked(&mut path, side)?;
    }
    Ok(path)
}

/// The top vertex of a closed walk.
fn top_of(ring: &Ring) -> Grid
    ensures { result ≡ top_along (closed_segments ring.now) }
{
    ring.vertices()[top_vertex(ring)]
}

/// The ring of these darts.
fn walk_of<'a>(alloc: Global, sides: Vec<Side<'a>>) -> Result<Walk<'a>, Memory>
    requires { 2 ≤ length (path_along (halves_of sides.items)) }
    ensures sides { IfOk result (λ w. w.sides ≡ sides.entry) }
    ensures shell { IfOk result (λ w. w.is_shell ≡ not (is_hole_walk (closed_segments (path_along (halves_of sides.entry.items))))) }
    ensures top { IfOk result (λ w. w.top ≡ top_along (closed_segments (path_along (halves_of sides.entry.items)))) }
{
    match Ring::of(path_of(alloc, &sides)?) {
        Ok(ring) => Ok(Walk {
            sides,
            is_shell: is_shell(&ring),
            top: top_of(&ring),
        }),
        Err(_) => unreachable!(),
    }
}

/// All rings, ascending by their least darts.
pub fn walks_of<'a>(
    alloc: Global,
    sides: &[Side<'a>],
    followers: &Followers,
) -> Result<Vec<Walk<'a>>, Memory>
    requires { AreFollowed (halves_of sides.now) followers.now }
    ensures { IfOk result (λ walks. AreWalks (halves_of sides.now) walks.items) }
{
    let mut seen = vec![in alloc; false; sides.len()]?;
    let mut walks = Vec::new(alloc);
    for place in 0..sides.len() {
        if seen[place] {
            continue;
        }
        let ring = ring_from(alloc, sides, followers, place, &mut seen)?;
        walks.push(walk_of(alloc, ring)?)?;
    }
    Ok(walks)
}
