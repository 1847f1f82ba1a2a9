ghost use Rattle.std.specs.Prelude.{◌≡◌, ◌+◌, ◌*◌, ◌≤◌, [], ◌∷◌, ◌&&◌, IsTrue, length};
ghost use Rattle.topo_base.specs.RationalPoint.{RationalPoint};
ghost use Rattle.plane.specs.Relation.{IsOnlyShared};
ghost use Rattle.plane.specs.Line.{is_line_end, segments_of};
ghost use Rattle.plane.specs.LinePoints.{Meets, has_proper_segments};
ghost use Rattle.grid_lines.specs.Parts.{PartsMeet, combined, is_common_end, share_line_end};

use crate::proper::{first_of, is_same_point, last_of, segment};
use grid_segments::{Relation, Seg, on_segment, relate};
use std::sync::ledger::Ledger;
use topo_base::{Grid, Line, Meeting, Steps};

/// How a whole meets where its two parts meet so.
fn combined(first: Meeting, second: Meeting) -> Meeting
    ensures { result ≡ combined first second }
{
    match first {
        Meeting::Apart => second,
        Meeting::Inside => Meeting::Inside,
        Meeting::AtEnds => match second {
            Meeting::Apart => Meeting::AtEnds,
            Meeting::AtEnds => Meeting::AtEnds,
            Meeting::Inside => Meeting::Inside,
        },
    }
}

/// Whether p is the first vertex of the line or the last.
pub fn is_line_end(p: &Grid, line: &Line) -> bool
    ensures { result ≡ is_line_end p.now line.now }
{
    is_same_point(p, &first_of(line)) || is_same_point(p, &last_of(line))
}

/// Whether p is an end of the line and lies on both segments.
fn is_common_end(p: Grid, line: &Line, s: &Seg, t: &Seg) -> bool
    ensures { result ≡ is_common_end p line.now s.now t.now }
{
    is_line_end(&p, line) && on_segment(p, s) && on_segment(p, t)
}

/// Whether an end of both lines lies on both segments.
fn share_line_end(a: &Line, b: &Line, s: &Seg, t: &Seg) -> bool
    ensures { result ≡ share_line_end a.now b.now s.now t.now }
{
    is_common_end(first_of(a), b, s, t) || is_common_end(last_of(a), b, s, t)
}

/// How two segments of a and b meet that have one common point.
fn met_once(a: &Line, b: &Line, s: &Seg, t: &Seg) -> Meeting
    requires { (q : RationalPoint) × IsOnlyShared s.now t.now q }
    ensures { PartsMeet result a.now b.now (s.now ∷ []) (t.now ∷ []) }
{
    if share_line_end(a, b, s, t) {
        Meeting::AtEnds
    } else {
        Meeting::Inside
    }
}

/// How a segment of a meets one of b.
fn segments_meet<L: Ledger>(a: &Line, b: &Line, s: &Seg, t: &Seg, steps: &mut Steps<L>) -> Meeting
    ensures meets { PartsMeet result a.now b.now (s.now ∷ []) (t.now ∷ []) }
    ensures counted { steps.new ≡ steps.old + 1 }
{
    match relate(s, t, steps) {
        Relation::Apart => Meeting::Apart,
        Relation::Overlap => Meeting::Inside,
        Relation::TouchEnds => met_once(a, b, s, t),
        Relation::Meet => met_once(a, b, s, t),
    }
}

/// How a segment of a meets b.
fn segment_meets<L: Ledger>(a: &Line, b: &Line, s: &Seg, steps: &mut Steps<L>) -> Meeting
    requires { IsTrue (has_proper_segments b.now) }
    ensures meets { PartsMeet result a.now b.now (s.now ∷ []) (segments_of b.now) }
    ensures counted { steps.new ≤ steps.old + length b.now }
{
    let vertices = b.vertices();
    let mut meeting = Meeting::Apart;
    for i in 0..vertices.len() - 1 {
        let t = segment(vertices, i);
        meeting = combined(meeting, segments_meet(a, b, s, &t, steps));
    }
    meeting
}

/// How two lines meet, each with no two equal neighbouring vertices: Apart where they have no common
/// point, AtEnds where each common point is an end of both, and else Inside. Takes no memory, and a
/// step for each test of two segments.
pub fn lines_meet<L: Ledger>(a: &Line, b: &Line, steps: &mut Steps<L>) -> Meeting
    requires first { IsTrue (has_proper_segments a.now) }
    requires second { IsTrue (has_proper_segments b.now) }
    ensures meets { Meets result a.now b.now }
    ensures counted { steps.new ≤ steps.old + length a.now * length b.now }
{
    let vertices = a.vertices();
    let mut meeting = Meeting::Apart;
    for i in 0..vertices.len() - 1 {
        let s = segment(vertices, i);
        meeting = combined(meeting, segment_meets(a, b, &s, steps));
    }
    meeting
}
