ghost use Rattle.std.specs.Prelude.{◌≡◌, ◌↔◌, ◌+◌, ◌%◌, count_by, length, IsTrue};
ghost use Rattle.plane.specs.Orientation.{is_right};
ghost use Rattle.plane.specs.Line.{segments_of};
ghost use Rattle.plane.specs.Parity.{passes_above as passes_over, is_over as lies_over, is_odd_over};

use grid_segments::{Seg, Side, side};
use std::sync::ledger::Ledger;
use topo_base::{Grid, Line, Steps};

/// Whether p is strictly to the right of the way between two points.
fn is_right_of(p: Grid, from: Grid, to: Grid) -> bool
    ensures { result ≡ is_right from to p }
{
    match Seg::of(from, to) {
        Some(way) => match side(p, &way) {
            Side::Right => true,
            Side::Left | Side::On => false,
        },
        None => false,
    }
}

/// Whether the way from one point to another goes to the right and passes strictly above p, or
/// begins straight above it.
fn passes_above(from: Grid, to: Grid, p: Grid) -> bool
    ensures { result ≡ passes_over from to p }
{
    if p.x() < from.x() {
        return false;
    }
    if to.x() <= p.x() {
        return false;
    }
    is_right_of(p, from, to)
}

/// Whether the segment between two points is over p: strictly above it, where of its two ends the
/// right one counts as left out.
pub fn is_over(p: Grid, from: Grid, to: Grid) -> bool
    ensures { result ≡ lies_over p (record { a = from; b = to }) }
{
    passes_above(from, to, p) || passes_above(to, from, p)
}

/// How many segments of the line are straight above p: those that pass strictly above it, where of
/// a segment's two ends the right one is left out, so that a vertex above p counts once where the
/// line goes on. A segment on p, or straight up from p, is not above it. One step a segment.
pub fn crossings_above<L: Ledger>(p: Grid, line: &Line, steps: &mut Steps<L>) -> u64
    ensures count { result ≡ count_by (lies_over p) (segments_of line.now) }
    ensures parity { result % 2 ≡ 1 ↔ IsTrue (is_odd_over p (segments_of line.now)) }
    ensures steps { steps.new ≡ steps.old + length (segments_of line.now) }
{
    let vertices = line.vertices();
    let mut count = 0;
    for i in 0..vertices.len() - 1 {
        steps.tick();
        if is_over(p, vertices[i], vertices[i + 1]) {
            count += 1;
        }
    }
    count
}
