ghost use Rattle.std.specs.Prelude.{◌≡◌, not};
ghost use Rattle.topo_base.specs.Point.{same_point};
ghost use Rattle.plane.specs.Direction.{direction_to, in_wedge, straight_up};
ghost use Rattle.plane.specs.ClosedWalk.{closed_segments, is_hole_walk, turns_below as goes_below};

use crate::{Ring, top_vertex};
use grid_angle::{Dir, clockwise};
use topo_base::Grid;

/// Whether straight up is in the wedge from one direction clockwise to another, which is the full
/// turn where they are one direction.
fn has_up(from: Dir, to: Dir) -> bool
    ensures { result ≡ in_wedge from to straight_up }
{
    clockwise(from, from, to).is_eq() || clockwise(from, Dir::up(), to).is_lt()
}

/// Whether straight up is in the wedge at `at` from `before` clockwise to `after`, which is the full
/// turn where one of these is `at` itself.
fn opens_upward(before: Grid, at: Grid, after: Grid) -> bool
    ensures { result ≡ in_wedge (direction_to at before) (direction_to at after) straight_up }
{
    let Some(back) = Dir::between(at, before) else {
        return true;
    };
    let Some(ahead) = Dir::between(at, after) else {
        return true;
    };
    has_up(back, ahead)
}

fn is_same(p: Grid, q: Grid) -> bool
    ensures { result ≡ same_point p q }
{
    p.x() == q.x() && p.y() == q.y()
}

/// Whether a walk that comes from `before` to `at` and goes on to `after` turns below what is
/// straight above the top vertex there.
fn turns_below(top: Grid, before: Grid, at: Grid, after: Grid) -> bool
    ensures { result ≡ goes_below top (record { a = before; b = at }, record { a = at; b = after }) }
{
    is_same(at, top) && opens_upward(before, at, after)
}

/// Whether the walk is a shell. It is a hole where straight up, at its top vertex, lies in a wedge
/// that it turns through there, taken clockwise from the way back to the way on; where these are one
/// direction the wedge is the full turn. The top vertex may stand in the walk several times. Where a
/// vertex follows itself in the walk, its wedge counts as the full turn.
pub fn is_shell(ring: &Ring) -> bool
    ensures { result ≡ not (is_hole_walk (closed_segments ring.now)) }
{
    let vertices = ring.vertices();
    let top = vertices[top_vertex(ring)];
    let last = vertices.len() - 1;
    if turns_below(top, vertices[last], vertices[0], vertices[1]) {
        return false;
    }
    if turns_below(top, vertices[last - 1], vertices[last], vertices[0]) {
        return false;
    }
    for i in 0..last - 1 {
        if turns_below(top, vertices[i], vertices[i + 1], vertices[i + 2]) {
            return false;
        }
    }
    true
}
