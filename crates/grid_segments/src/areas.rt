ghost use Rattle.std.specs.Prelude.{◌≡◌, ◌↔◌, ◌^◌, pos, ◌-ℤ◌, IsTrue};
ghost use Rattle.topo_base.specs.Within.{IsWithin};
ghost use Rattle.plane.specs.Orientation.{area};
ghost use Rattle.plane.specs.Relation.{AreOpposite, turn};

use crate::Seg;
use topo_base::{Grid, cross_product};

/// How far b is to the right of a.
fn across(a: &Grid, b: &Grid) -> i64
    ensures value { result ≡ b.now.x -ℤ a.now.x }
    ensures within { IsWithin (2 ^ 41) result }
{
    b.x() - a.x()
}

/// How far b is above a.
fn upward(a: &Grid, b: &Grid) -> i64
    ensures value { result ≡ b.now.y -ℤ a.now.y }
    ensures within { IsWithin (2 ^ 41) result }
{
    b.y() - a.y()
}

/// Twice the signed area of a triangle.
fn area_of(a: &Grid, b: &Grid, c: &Grid) -> i128
    ensures { result ≡ area a.now b.now c.now }
{
    cross_product(across(a, b), upward(a, b), across(a, c), upward(a, c))
}

/// Twice the signed area of the triangle of a segment and a point.
pub fn area_with(s: &Seg, p: &Grid) -> i128
    ensures { result ≡ area s.now.a s.now.b p.now }
{
    area_of(&s.from(), &s.to(), p)
}

/// How far the end of s is to the right of its start.
fn run(s: &Seg) -> i64
    ensures value { result ≡ s.now.b.x -ℤ s.now.a.x }
    ensures within { IsWithin (2 ^ 41) result }
{
    across(&s.from(), &s.to())
}

/// How far the end of s is above its start.
fn rise(s: &Seg) -> i64
    ensures value { result ≡ s.now.b.y -ℤ s.now.a.y }
    ensures within { IsWithin (2 ^ 41) result }
{
    upward(&s.from(), &s.to())
}

/// The cross product of the directions of two segments.
fn turn_of(s: &Seg, t: &Seg) -> i128
    ensures { result ≡ turn s.now t.now }
{
    cross_product(run(s), rise(s), run(t), rise(t))
}

/// Whether two segments are parallel.
pub fn is_parallel(s: &Seg, t: &Seg) -> bool
    ensures { IsTrue result ↔ turn s.now t.now ≡ pos 0 }
{
    turn_of(s, t) == 0
}

/// Whether two numbers are not strictly on one side of 0.
fn is_opposite(u: i128, v: i128) -> bool
    ensures { IsTrue result ↔ AreOpposite u v }
{
    (u <= 0 && 0 <= v) || (0 <= u && v <= 0)
}

/// Whether the ends of s are on opposite sides of the line through t, or on it.
pub fn reaches(s: &Seg, t: &Seg) -> bool
    ensures { IsTrue result
        ↔ AreOpposite (area t.now.a t.now.b s.now.a) (area t.now.a t.now.b s.now.b) }
{
    is_opposite(area_with(t, &s.from()), area_with(t, &s.to()))
}
