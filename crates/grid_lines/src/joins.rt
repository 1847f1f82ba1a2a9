ghost use Rattle.std.specs.Prelude.{◌≡◌, ◌↔◌, ◌⊎◌, IfOk};
ghost use Rattle.topo_base.specs.RationalPoint.{RationalPoint};
ghost use Rattle.plane.specs.Line.{first_vertex, joined, last_vertex};
ghost use Rattle.plane.specs.RationalTests.{IsOnLine};

use std::alloc::Global;
use topo_base::{Line, Memory};

/// Two lines in a row, of which the second begins where the first ends. That vertex stands once.
pub fn join(alloc: Global, a: &Line, b: &Line) -> Result<Line, Memory>
    requires { last_vertex a.now ≡ first_vertex b.now }
    ensures line { IfOk result (λ line. line ≡ joined a.now b.now) }
    ensures points { IfOk result (λ line. (q : RationalPoint)
        → (IsOnLine q line ↔ (IsOnLine q a.now ⊎ IsOnLine q b.now))) }
{
    let mut vertices = a.vertices().to_vec(alloc)?;
    let (_, more) = b.vertices().split_at(1);
    vertices.extend_from_slice(more)?;
    Ok(Line::of(vertices).unwrap())
}
