ghost use Rattle.std.specs.Prelude.{◌≡◌, ◌+◌, ◌≤◌, IsTrue, length};
ghost use Rattle.plane.specs.Line.{on_line, is_inside_line};
ghost use Rattle.plane.specs.LinePoints.{has_proper_segments};

use crate::meetings::is_line_end;
use crate::proper::segment;
use grid_segments::on_segment;
use std::sync::ledger::Ledger;
use topo_base::{Grid, Line, Steps};

/// Whether p lies on the line, whose neighbouring vertices differ. Takes no memory, and a step for
/// each test of a segment.
pub fn on_line<L: Ledger>(p: Grid, line: &Line, steps: &mut Steps<L>) -> bool
    requires { IsTrue (has_proper_segments line.now) }
    ensures test { result ≡ on_line p line.now }
    ensures counted { steps.new ≤ steps.old + length line.now }
{
    let vertices = line.vertices();
    for i in 0..vertices.len() - 1 {
        steps.tick();
        if on_segment(p, &segment(vertices, i)) {
            return true;
        }
    }
    false
}

/// Whether p lies on the line, whose neighbouring vertices differ, and is neither its first vertex
/// nor its last. Takes no memory, and a step for each test of a segment.
pub fn is_inside_line<L: Ledger>(p: Grid, line: &Line, steps: &mut Steps<L>) -> bool
    requires { IsTrue (has_proper_segments line.now) }
    ensures test { result ≡ is_inside_line p line.now }
    ensures counted { steps.new ≤ steps.old + length line.now }
{
    on_line(p, line, steps) && !is_line_end(&p, line)
}
