ghost use Rattle.std.specs.Prelude.{◌≡◌, IsTrue, ◌↔◌, MatchOption};
ghost use Rattle.plane.specs.Segment.{Segment};
ghost use Rattle.plane.specs.Relation.{IsProper, SameCoordinates, IsEndPoint};
ghost use Rattle.topo_base.specs.Point.{Point, same_point};

use std::marker::Model;
use topo_base::Grid;

/// The straight way between two different grid points.
#[derive(Clone, Copy, Debug, PartialEq, Eq)]
pub struct Seg {
    from: Grid,
    to: Grid,
}

impl Model for Seg {
    ghost use Rattle.plane.specs.Segment.{Segment};
    ghost use Rattle.plane.specs.Relation.{IsProper};

    ghost Value = { Segment };

    ghost view = { λ s. record { a = s.from; b = s.to } };

    ghost invariant = { λ s. IsProper (record { a = s.from; b = s.to }) };

    ghost inverse = { λ s. record { from = s.a; to = s.b } };
}

impl Seg {
    /// The segment between two points. None exactly where they are one point.
    pub fn of(from: Grid, to: Grid) -> Option<Seg>
        ensures { MatchOption result (from ≡ to) (λ s. (s ≡ record { a = from; b = to }) × IsProper s) }
    {
        if is_same_point(&from, &to) {
            None
        } else {
            Some(Seg { from, to })
        }
    }

    /// Where it begins.
    pub fn from(&self) -> Grid
        ensures value { result ≡ self.now.a }
        ensures proper { IsProper self.now }
    {
        self.from
    }

    /// Where it ends.
    pub fn to(&self) -> Grid
        ensures value { result ≡ self.now.b }
        ensures proper { IsProper self.now }
    {
        self.to
    }
}

/// Whether two grid points are one.
pub fn is_same_point(p: &Grid, q: &Grid) -> bool
    ensures { IsTrue result ↔ SameCoordinates p.now q.now }
{
    p.x() == q.x() && p.y() == q.y()
}

/// Whether p is one of the ends of s.
pub fn has_end(s: &Seg, p: &Grid) -> bool
    ensures { IsTrue result ↔ IsEndPoint p.now s.now }
{
    is_same_point(p, &s.from) || is_same_point(p, &s.to)
}

/// Whether a point is an end of both.
pub fn share_end(s: &Seg, t: &Seg) -> bool
    ensures yes { IsTrue result → (p : Point) × (IsEndPoint p s.now × IsEndPoint p t.now) }
    ensures no { (p : Point) → IsEndPoint p s.now → IsEndPoint p t.now → IsTrue result }
{
    has_end(t, &s.from) || has_end(t, &s.to)
}
