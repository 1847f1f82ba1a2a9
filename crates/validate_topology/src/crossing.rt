// What two pieces of the plane have in common.
ghost use Rattle.std.specs.Prelude.{◌≡◌, ◌↔◌, ◌&&◌, IsTrue};
ghost use Rattle.topo_base.specs.RationalPoint.{RationalPoint};
ghost use Rattle.plane.specs.Line.{is_line_end as is_end_of_line};
ghost use Rattle.plane.specs.Relation.{IsOnlyShared};
ghost use Rattle.plane.specs.Segment.{on_segment as lies_on};
ghost use Rattle.grid_lines.specs.Parts.{is_common_end as lies_at_common_end, share_line_end as share_end};
ghost use Rattle.validate_topology.specs.Pieces.{Cross, CrossAt, IsInside, line_of, way_of};

use crate::pieces::{Ends, Piece};
use grid_lines::is_same_point;
use grid_segments::{Relation, Seg, on_segment, relate};
use std::sync::ledger::Ledger;
use topo_base::{Grid, Steps};

/// Whether p is the first vertex of the line or the last.
fn is_line_end(p: &Grid, line: &Ends) -> bool
    ensures { result ≡ is_end_of_line p.now (line_of line.now) }
{
    is_same_point(p, &line.first) || is_same_point(p, &line.last)
}

fn is_end_of_both(p: &Grid, a: &Ends, b: &Ends) -> bool
    ensures { result ≡ (is_end_of_line p.now (line_of a.now) && is_end_of_line p.now (line_of b.now)) }
{
    is_line_end(p, a) && is_line_end(p, b)
}

/// Whether p lies on a piece.
fn is_on(p: &Grid, piece: &Piece) -> bool
    ensures { result ≡ lies_on p.now (way_of piece.now) }
{
    match Seg::of(piece.from, piece.to) {
        Some(segment) => on_segment(*p, &segment),
        None => is_same_point(p, &piece.from),
    }
}

/// Whether p is an end of the line and lies on both segments.
fn is_common_end(p: Grid, line: &Ends, s: &Seg, t: &Seg) -> bool
    ensures { result ≡ lies_at_common_end p (line_of line.now) s.now t.now }
{
    is_line_end(&p, line) && on_segment(p, s) && on_segment(p, t)
}

/// Whether an end of both lines lies on both segments.
fn share_line_end(a: &Ends, b: &Ends, s: &Seg, t: &Seg) -> bool
    ensures { result ≡ share_end (line_of a.now) (line_of b.now) s.now t.now }
{
    is_common_end(a.first, b, s, t) || is_common_end(a.last, b, s, t)
}

/// Whether the only common point of two segments isn't an end of both lines.
fn cross_once(a: &Ends, b: &Ends, s: &Seg, t: &Seg) -> bool
    requires { (q : RationalPoint) × IsOnlyShared s.now t.now q }
    ensures { IsTrue result ↔ Cross a.now b.now s.now t.now }
{
    !share_line_end(a, b, s, t)
}

/// Whether a segment of a and one of b have a common point that isn't an end of both lines.
fn segments_cross<L: Ledger>(a: &Ends, b: &Ends, s: &Seg, t: &Seg, steps: &mut Steps<L>) -> bool
    ensures { IsTrue result ↔ Cross a.now b.now s.now t.now }
{
    match relate(s, t, steps) {
        Relation::Apart => false,
        Relation::Overlap => true,
        Relation::TouchEnds => cross_once(a, b, s, t),
        Relation::Meet => cross_once(a, b, s, t),
    }
}

/// Whether p lies on a piece of one line and isn't an end of both.
fn point_crosses(p: &Grid, a: &Ends, b: &Ends, piece: &Piece) -> bool
    ensures { IsTrue result ↔ CrossAt p.now a.now b.now (way_of piece.now) }
{
    is_on(p, piece) && !is_end_of_both(p, a, b)
}

/// Whether pieces of two lines have a common point that isn't an end of both lines.
pub fn pieces_cross<L: Ledger>(
    a: &Ends,
    b: &Ends,
    one: &Piece,
    other: &Piece,
    steps: &mut Steps<L>,
) -> bool
    ensures { IsTrue result ↔ Cross a.now b.now (way_of one.now) (way_of other.now) }
{
    let Some(s) = Seg::of(one.from, one.to) else {
        return point_crosses(&one.from, a, b, other);
    };
    let Some(t) = Seg::of(other.from, other.to) else {
        return point_crosses(&other.from, a, b, one);
    };
    segments_cross(a, b, &s, &t, steps)
}

/// Whether a point lies on a piece of a line and is neither the line's first vertex nor its last.
pub fn is_inside_piece(p: &Grid, line: &Ends, piece: &Piece) -> bool
    ensures { IsTrue result ↔ IsInside p.now line.now (way_of piece.now) }
{
    is_on(p, piece) && !is_line_end(p, line)
}
