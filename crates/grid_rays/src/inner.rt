ghost use Rattle.std.specs.Prelude.{◌≡◌};
ghost use Rattle.plane.specs.Parity.{is_odd_over};
ghost use Rattle.plane.specs.ClosedWalk.{closed_segments};

use crate::Ring;
use crate::above::is_over;
use topo_base::Grid;

/// Whether p is inside: an odd number of segments of the walk are straight above it.
pub fn inside(p: Grid, ring: &Ring) -> bool
    ensures { result ≡ is_odd_over p (closed_segments ring.now) }
{
    let vertices = ring.vertices();
    let last = vertices.len() - 1;
    let mut odd = is_over(p, vertices[last], vertices[0]);
    for i in 0..last {
        if is_over(p, vertices[i], vertices[i + 1]) {
            odd = !odd;
        }
    }
    odd
}
