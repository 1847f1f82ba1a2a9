// On which side of the ring of an edge a point is.
ghost use Rattle.std.specs.Prelude.{◌≡◌};
ghost use Rattle.face_parts.specs.Divided.{is_left_of};

use grid_rays::{Ring, inside, is_shell};
use std::marker::Model;
use topo_base::Grid;

/// The ring on the left of an edge that divides a face, as a closed walk: a point of that face that is on
/// no edge is in the part on the left where it is inside, if the ring is a shell, and where it is outside,
/// if it is a hole. Contracts see the vertices of the walk.
#[derive(Drop)]
pub struct Cut {
    ring: Ring,
    shell: bool,
}

impl Model for Cut {
    ghost use Rattle.std.specs.Prelude.{◌≡◌, List, not};
    ghost use Rattle.topo_base.specs.Point.{Point};
    ghost use Rattle.plane.specs.ClosedWalk.{closed_segments, is_hole_walk};

    ghost Value = { List Point };

    ghost view = { λ c. c.ring };

    ghost invariant = { λ c. c.shell ≡ not (is_hole_walk (closed_segments c.ring)) };
}

impl Cut {
    /// The cut along a ring. Takes no memory.
    pub fn of(ring: Ring) -> Cut
        ensures { result ≡ ring }
    {
        let shell = is_shell(&ring);
        Cut { ring, shell }
    }

    /// Whether the point is on the left. Takes no memory.
    pub fn is_on_left(&self, p: Grid) -> bool
        ensures { result ≡ is_left_of self.now p }
    {
        if inside(p, &self.ring) {
            self.shell
        } else {
            !self.shell
        }
    }
}
