ghost use Rattle.std.specs.Prelude.{◌≡◌};
ghost use Rattle.plane.specs.ClosedWalk.{is_higher as lies_higher, IsTopVertex};

use crate::Ring;
use topo_base::Grid;

/// Whether p is higher than q, or as high and farther to the right.
fn is_higher(p: Grid, q: Grid) -> bool
    ensures { result ≡ lies_higher p q }
{
    q.y() < p.y() || p.y() == q.y() && q.x() < p.x()
}

/// The first place among the vertices where the top vertex stands: the highest one, and of equals
/// the one farthest to the right.
pub fn top_vertex(ring: &Ring) -> usize
    ensures { IsTopVertex ring.now result }
{
    let vertices = ring.vertices();
    let mut top = 0;
    for i in 1..vertices.len() {
        if is_higher(vertices[i], vertices[top]) {
            top = i;
        }
    }
    top
}
