ghost use Rattle.std.specs.Prelude.{◌≡◌, ◌+◌, ◌*◌, ◌≤◌, ◌||◌, IsTrue, length};
ghost use Rattle.std.specs.List.{list_all};
ghost use Rattle.plane.specs.Line.{meets_at_own_ends, first_vertex, last_vertex, segments_of};
ghost use Rattle.plane.specs.LinePoints.{has_proper_segments};
ghost use Rattle.plane.specs.Segment.{meets_only_at, shares};

use crate::proper::{first_of, last_of, segment};
use grid_segments::{Relation, Seg, on_segment, relate};
use std::sync::ledger::Ledger;
use topo_base::{Grid, Line, Steps};

/// Whether p lies on both segments.
fn shares(p: Grid, s: &Seg, t: &Seg) -> bool
    ensures { result ≡ shares p s.now t.now }
{
    on_segment(p, s) && on_segment(p, t)
}

/// Whether p or q lies on both segments.
fn share_either(p: Grid, q: Grid, s: &Seg, t: &Seg) -> bool
    ensures { result ≡ (shares p s.now t.now || shares q s.now t.now) }
{
    shares(p, s, t) || shares(q, s, t)
}

/// Whether s and t have no common point but p or q.
fn meets_only_at<L: Ledger>(p: Grid, q: Grid, s: &Seg, t: &Seg, steps: &mut Steps<L>) -> bool
    ensures test { result ≡ meets_only_at p q s.now t.now }
    ensures counted { steps.new ≡ steps.old + 1 }
{
    match relate(s, t, steps) {
        Relation::Apart => true,
        Relation::TouchEnds => share_either(p, q, s, t),
        Relation::Meet => share_either(p, q, s, t),
        Relation::Overlap => false,
    }
}

/// Whether s has no point in common with the line but p or q.
fn segment_meets_only_at<L: Ledger>(
    p: Grid,
    q: Grid,
    s: &Seg,
    line: &Line,
    steps: &mut Steps<L>,
) -> bool
    requires { IsTrue (has_proper_segments line.now) }
    ensures test { result ≡ list_all (meets_only_at p q s.now) (segments_of line.now) }
    ensures counted { steps.new ≤ steps.old + length line.now }
{
    let vertices = line.vertices();
    for i in 0..vertices.len() - 1 {
        if !meets_only_at(p, q, s, &segment(vertices, i), steps) {
            return false;
        }
    }
    true
}

/// Whether the line has no point in common with the other but, maybe, its own first and last
/// vertices. The neighbouring vertices of both differ. Takes no memory, and a step for each test of
/// two segments.
pub fn meets_at_own_ends<L: Ledger>(line: &Line, other: &Line, steps: &mut Steps<L>) -> bool
    requires first { IsTrue (has_proper_segments line.now) }
    requires second { IsTrue (has_proper_segments other.now) }
    ensures test { result ≡ meets_at_own_ends line.now other.now }
    ensures counted { steps.new ≤ steps.old + length line.now * length other.now }
{
    let vertices = line.vertices();
    let first = first_of(line);
    let last = last_of(line);
    for i in 0..vertices.len() - 1 {
        if !segment_meets_only_at(first, last, &segment(vertices, i), other, steps) {
            return false;
        }
    }
    true
}
