ghost use Rattle.std.specs.Prelude.{◌≡◌, ◌↔◌, ◌^◌, ◌-ℤ◌, IsNone, IsSome, IfSome};
ghost use Rattle.topo_base.specs.Within.{IsWithin};
ghost use Rattle.plane.specs.Direction.{cross, direction_to, dot, IsGridDirection, IsNotZero, straight_up};

use std::marker::Model;
use topo_base::{Grid, cross_product, product};

/// The greatest part of a direction, either way: two coordinates are at most this far apart.
const MAX_PART: i64 = 1 << 41;

/// A direction: `dx` to the right and `dy` up. It isn't zero, and each part is at most 2^41 from 0.
#[derive(Clone, Copy, Debug)]
pub struct Dir {
    dx: i64,
    dy: i64,
}

impl Model for Dir {
    ghost use Rattle.plane.specs.Direction.{Direction, IsGridDirection};

    ghost Value = { Direction };

    ghost view = { λ d. record { dx = d.dx; dy = d.dy } };

    ghost invariant = { λ d. IsGridDirection (record { dx = d.dx; dy = d.dy }) };

    ghost inverse = { λ v. record { dx = v.dx; dy = v.dy } };
}

impl Dir {
    /// The direction with these parts. None where both are 0 or one is more than 2^41 from 0.
    pub fn of(dx: i64, dy: i64) -> Option<Dir>
        ensures range { IsSome result ↔ IsGridDirection (record { dx = dx; dy = dy }) }
        ensures value { IfSome result (λ d. d ≡ record { dx = dx; dy = dy }) }
    {
        let wide = -MAX_PART <= dx && dx <= MAX_PART;
        if wide && -MAX_PART <= dy && dy <= MAX_PART && (dx != 0 || dy != 0) {
            Some(Dir { dx, dy })
        } else {
            None
        }
    }

    /// The direction straight up.
    pub fn up() -> Dir
        ensures { result ≡ straight_up }
    {
        Dir { dx: 0, dy: 1 }
    }

    /// The direction from one point to another. None exactly where they are one point.
    pub fn between(from: Grid, to: Grid) -> Option<Dir>
        ensures none { IsNone result ↔ from ≡ to }
        ensures value { IfSome result (λ d. d ≡ direction_to from to) }
    {
        Dir::of(across(&from, &to), upward(&from, &to))
    }

    /// How far to the right.
    pub fn dx(&self) -> i64
        ensures value { result ≡ self.now.dx }
        ensures within { IsWithin (2 ^ 41) result }
        ensures some { IsNotZero self.now }
    {
        self.dx
    }

    /// How far up.
    pub fn dy(&self) -> i64
        ensures value { result ≡ self.now.dy }
        ensures within { IsWithin (2 ^ 41) result }
    {
        self.dy
    }
}

/// How far `to` is to the right of `from`.
fn across(from: &Grid, to: &Grid) -> i64
    ensures value { result ≡ to.now.x -ℤ from.now.x }
    ensures within { IsWithin (2 ^ 41) result }
{
    to.x() - from.x()
}

/// How far `to` is above `from`.
fn upward(from: &Grid, to: &Grid) -> i64
    ensures value { result ≡ to.now.y -ℤ from.now.y }
    ensures within { IsWithin (2 ^ 41) result }
{
    to.y() - from.y()
}

/// Above 0 where `b` is to the left of `a`.
pub fn cross_of(a: &Dir, b: &Dir) -> i128
    ensures value { result ≡ cross a.now b.now }
    ensures within { IsWithin (2 ^ 83) result }
{
    cross_product(a.dx(), a.dy(), b.dx(), b.dy())
}

/// Above 0 where `b` is ahead of `a`.
pub fn dot_of(a: &Dir, b: &Dir) -> i128
    ensures { result ≡ dot a.now b.now }
{
    let level = product(a.dx(), b.dx());
    let upright = product(a.dy(), b.dy());
    level + upright
}
