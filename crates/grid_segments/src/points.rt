ghost use Rattle.std.specs.Prelude.{◌≡◌, ◌↔◌, pos, IsTrue};
ghost use Rattle.topo_base.specs.RationalPoint.{rational};
ghost use Rattle.plane.specs.Orientation.{is_straight};
ghost use Rattle.plane.specs.Segment.{is_between, on_segment as is_on_segment};
ghost use Rattle.plane.specs.RationalTests.{IsOn};

use crate::Seg;
use crate::areas::area_with;
use topo_base::Grid;

fn is_amid(a: i64, m: i64, b: i64) -> bool
    ensures { result ≡ is_between a m b }
{
    (a <= m && m <= b) || (b <= m && m <= a)
}

/// Whether p is on the straight line through s.
fn is_aligned(p: &Grid, s: &Seg) -> bool
    ensures { result ≡ is_straight s.now.a s.now.b p.now }
{
    area_with(s, p) == 0
}

/// Whether p is between the ends of s from left to right.
fn is_amid_across(p: &Grid, s: &Seg) -> bool
    ensures { result ≡ is_between s.now.a.x p.now.x s.now.b.x }
{
    is_amid(s.from().x(), p.x(), s.to().x())
}

/// Whether p is between the ends of s from below to above.
fn is_amid_upward(p: &Grid, s: &Seg) -> bool
    ensures { result ≡ is_between s.now.a.y p.now.y s.now.b.y }
{
    is_amid(s.from().y(), p.y(), s.to().y())
}

/// The test that a point lies on a segment.
fn is_in_place(p: &Grid, s: &Seg) -> bool
    ensures { result ≡ is_on_segment p.now s.now }
{
    is_aligned(p, s) && is_amid_across(p, s) && is_amid_upward(p, s)
}

/// Whether p lies on the closed segment s.
pub fn on_segment(p: Grid, s: &Seg) -> bool
    ensures test { result ≡ is_on_segment p s.now }
    ensures on { IsTrue result ↔ IsOn (rational p) s.now }
{
    is_in_place(&p, s)
}
