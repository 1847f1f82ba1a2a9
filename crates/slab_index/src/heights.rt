// Segments as what is above a point.
ghost use Rattle.std.specs.Prelude.{◌≡◌, ◌&&◌, ◌||◌, pos, int_lt, ◌^◌, ◌-ℤ◌, ◌*ℤ◌};
ghost use Rattle.std.specs.Ordering.{int_eq};
ghost use Rattle.topo_base.specs.Within.{IsWithin};
ghost use Rattle.plane.specs.Orientation.{area, is_right};
ghost use Rattle.plane.specs.Parity.{is_over as lies_over, passes_above as passes_over};
ghost use Rattle.plane.specs.Relation.{turn};
ghost use Rattle.slab_index.specs.Above.{segment_of, rightward, is_lower as lies_lower, is_lower_rightward as lies_lower_rightward};

use crate::piece::Piece;
use topo_base::{Grid, cross_product};

/// How far `to` is to the right of `from`.
fn across(from: &Grid, to: &Grid) -> i64
    ensures value { result ≡ to.now.x -ℤ from.now.x }
    ensures within { IsWithin (2 ^ 41) result }
{
    to.x() - from.x()
}

/// How far `to` is above `from`.
fn upward(from: &Grid, to: &Grid) -> i64
    ensures value { result ≡ to.now.y -ℤ from.now.y }
    ensures within { IsWithin (2 ^ 41) result }
{
    to.y() - from.y()
}

/// Twice the signed area of the triangle of three points.
pub fn area_of(a: &Grid, b: &Grid, p: &Grid) -> i128
    ensures value { result ≡ area a.now b.now p.now }
    ensures within { IsWithin (2 ^ 83) result }
{
    cross_product(across(a, b), upward(a, b), across(a, p), upward(a, p))
}

/// Whether p is strictly to the right of the way between two points.
fn is_right_of(p: &Grid, from: &Grid, to: &Grid) -> bool
    ensures { result ≡ is_right from.now to.now p.now }
{
    area_of(from, to, p) < 0
}

/// Whether the way between two points goes to the right and passes strictly above p, or begins straight above it.
fn passes_above(from: &Grid, to: &Grid, p: &Grid) -> bool
    ensures { result ≡ passes_over from.now to.now p.now }
{
    if p.x() < from.x() {
        return false;
    }
    if to.x() <= p.x() {
        return false;
    }
    is_right_of(p, from, to)
}

/// Whether the segment is over p: strictly above it, where of its two ends the right one is left out.
pub fn is_over(p: &Grid, piece: &Piece) -> bool
    ensures { result ≡ lies_over p.now (segment_of piece.now) }
{
    passes_above(&piece.start, &piece.end, p) || passes_above(&piece.end, &piece.start, p)
}

/// The segment, from its left end to its right one.
fn rightward(piece: &Piece) -> Piece
    ensures { segment_of result ≡ rightward (segment_of piece.now) }
{
    if piece.start.x() < piece.end.x() {
        *piece
    } else {
        Piece {
            edge: piece.edge,
            start: piece.end,
            end: piece.start,
        }
    }
}

/// How far a segment goes to the right.
fn run(piece: &Piece) -> i64
    ensures value { result ≡ piece.now.end.x -ℤ piece.now.start.x }
    ensures within { IsWithin (2 ^ 41) result }
{
    across(&piece.start, &piece.end)
}

/// How far a segment goes up.
fn rise(piece: &Piece) -> i64
    ensures value { result ≡ piece.now.end.y -ℤ piece.now.start.y }
    ensures within { IsWithin (2 ^ 41) result }
{
    upward(&piece.start, &piece.end)
}

/// An area times how far a segment goes to the right.
fn scaled(area: i128, run: i64) -> i128
    requires area_in { IsWithin (2 ^ 83) area }
    requires run_in { IsWithin (2 ^ 41) run }
    ensures { result ≡ area *ℤ run }
{
    area * run as i128
}

/// The area of a segment and a point, times how far another segment goes to the right.
fn scaled_area(piece: &Piece, p: &Grid, other: &Piece) -> i128
    ensures { result ≡ area piece.now.start piece.now.end p.now *ℤ (other.now.end.x -ℤ other.now.start.x) }
{
    scaled(area_of(&piece.start, &piece.end, p), run(other))
}

/// The cross product of the directions of two segments.
fn turn_of(one: &Piece, other: &Piece) -> i128
    ensures { result ≡ turn (segment_of one.now) (segment_of other.now) }
{
    cross_product(run(one), rise(one), run(other), rise(other))
}

/// Whether the first number is less than the second, or equal to it where the third is below 0.
fn is_less(first: i128, second: i128, turned: i128) -> bool
    ensures { result ≡ (int_lt first second || int_eq first second && int_lt turned (pos 0)) }
{
    if first < second {
        return true;
    }
    if first == second { turned < 0 } else { false }
}

/// Whether of two segments that go to the right the first is lower straight above p, or as high there and of lesser slope.
fn is_lower_rightward(p: &Grid, one: &Piece, other: &Piece) -> bool
    ensures { result ≡ lies_lower_rightward p.now (segment_of one.now) (segment_of other.now) }
{
    is_less(
        scaled_area(other, p, one),
        scaled_area(one, p, other),
        turn_of(other, one),
    )
}

/// Whether of two segments over p the first is lower there, or as high and of lesser slope.
pub fn is_lower(p: &Grid, one: &Piece, other: &Piece) -> bool
    ensures { result ≡ lies_lower p.now (segment_of one.now) (segment_of other.now) }
{
    is_lower_rightward(p, &rightward(one), &rightward(other))
}
