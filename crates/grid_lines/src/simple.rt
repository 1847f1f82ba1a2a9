ghost use Rattle.std.specs.Prelude.{◌≡◌, ◌↔◌, ◌+◌, ◌*◌, ◌≤◌, ◌<◌, ◌∷◌, ◌&&◌, ◌||◌, not, IsTrue, drop, length};
ghost use Rattle.topo_base.specs.Point.{same_point};
ghost use Rattle.plane.specs.Line.{are_simple, first_vertex, is_apart_from, is_simple, joins, segments_of};
ghost use Rattle.plane.specs.LinePoints.{IsPlainLine, has_proper_segments};
ghost use Rattle.plane.specs.Segment.{touches, touches_at};

use crate::proper::{first_of, is_proper, is_same_point, segment};
use grid_segments::{Relation, Seg, relate};
use std::sync::ledger::Ledger;
use topo_base::{Grid, Line, Steps};

/// Whether t follows s and has the vertex between them, and no other point, in common with it.
fn joins<L: Ledger>(s: &Seg, t: &Seg, steps: &mut Steps<L>) -> bool
    requires { s.now.b ≡ t.now.a }
    ensures test { result ≡ joins s.now t.now }
    ensures counted { steps.new ≡ steps.old + 1 }
{
    match relate(s, t, steps) {
        Relation::TouchEnds => true,
        Relation::Apart => false,
        Relation::Meet => false,
        Relation::Overlap => false,
    }
}

/// Whether s and t have no common point.
fn is_apart<L: Ledger>(s: &Seg, t: &Seg, steps: &mut Steps<L>) -> bool
    ensures test { result ≡ not (touches s.now t.now) }
    ensures counted { steps.new ≡ steps.old + 1 }
{
    match relate(s, t, steps) {
        Relation::Apart => true,
        Relation::TouchEnds => false,
        Relation::Meet => false,
        Relation::Overlap => false,
    }
}

/// Whether s begins at p and t ends there.
fn begins_and_ends(p: &Grid, s: &Seg, t: &Seg) -> bool
    ensures { result ≡ (same_point s.now.a p.now && same_point t.now.b p.now) }
{
    is_same_point(&s.from(), p) && is_same_point(&t.to(), p)
}

/// Whether s and t have no common point, or only the vertex where s begins and t ends, which is p.
fn is_apart_or_closes<L: Ledger>(p: &Grid, s: &Seg, t: &Seg, steps: &mut Steps<L>) -> bool
    ensures test { result ≡ (not (touches s.now t.now)
        || same_point s.now.a p.now && same_point t.now.b p.now && touches_at p.now s.now t.now) }
    ensures counted { steps.new ≡ steps.old + 1 }
{
    match relate(s, t, steps) {
        Relation::Apart => true,
        Relation::TouchEnds => begins_and_ends(p, s, t),
        Relation::Meet => false,
        Relation::Overlap => false,
    }
}

/// Whether s has no point in common with the segments between these vertices, but that the last of
/// them may end where s begins, if both is at p.
fn is_apart_from<L: Ledger>(p: &Grid, s: &Seg, vertices: &[Grid], steps: &mut Steps<L>) -> bool
    requires { IsTrue (has_proper_segments vertices.now) }
    ensures test { result ≡ is_apart_from p.now s.now (segments_of vertices.now) }
    ensures counted { steps.new ≤ steps.old + length vertices.now }
{
    if vertices.len() < 2 {
        return true;
    }
    let last = vertices.len() - 2;
    for i in 0..last {
        if !is_apart(s, &segment(vertices, i), steps) {
            return false;
        }
    }
    is_apart_or_closes(p, s, &segment(vertices, last), steps)
}

/// Whether the line's segments from the vertex with this index on meet as those of a simple line.
fn joins_rest<L: Ledger>(p: &Grid, vertices: &[Grid], i: usize, steps: &mut Steps<L>) -> bool
    requires within { i + 2 < length vertices.now }
    requires proper { IsTrue (has_proper_segments vertices.now) }
    ensures test { are_simple p.now (segments_of (drop i vertices.now))
        ≡ (result && are_simple p.now (segments_of (drop (i + 1) vertices.now))) }
    ensures counted { steps.new ≤ steps.old + length vertices.now }
{
    let s = segment(vertices, i);
    let t = segment(vertices, i + 1);
    let (_, rest) = vertices.split_at(i + 2);
    joins(&s, &t, steps) && is_apart_from(p, &s, rest, steps)
}

/// Whether the line is simple: neighbouring vertices differ, and a point on two of its segments is
/// the vertex between these two, which are neighbours, or these two are the first and the last, and
/// it is the first vertex, which equals the last. Takes no memory, and a step for each test of two
/// segments.
pub fn is_simple<L: Ledger>(line: &Line, steps: &mut Steps<L>) -> bool
    ensures test { result ≡ is_simple line.now }
    ensures plain { IsTrue result ↔ IsPlainLine line.now }
    ensures counted { steps.new ≤ steps.old + length line.now * length line.now }
{
    is_proper(line) && are_simple(line, steps)
}

/// Whether the segments of a line whose neighbouring vertices differ meet as those of a simple line.
fn are_simple<L: Ledger>(line: &Line, steps: &mut Steps<L>) -> bool
    requires { IsTrue (has_proper_segments line.now) }
    ensures test { result ≡ are_simple (first_vertex line.now) (segments_of line.now) }
    ensures counted { steps.new ≤ steps.old + length line.now * length line.now }
{
    let vertices = line.vertices();
    let first = first_of(line);
    for i in 0..vertices.len() - 2 {
        if !joins_rest(&first, vertices, i, steps) {
            return false;
        }
    }
    true
}
