ghost use Rattle.plane.specs.Relation.{Facing, Faces};
ghost use Rattle.std.specs.Prelude.{◌≡◌, ◌↔◌, IsTrue};

use crate::Seg;
use topo_base::Relation;

/// How the interval from a to b lies to that from c to d.
fn facing(a: i64, b: i64, c: i64, d: i64) -> Relation
    ensures { Facing result a b c d }
{
    if b < c || d < a {
        Relation::Apart
    } else if b == c || d == a {
        Relation::TouchEnds
    } else {
        Relation::Overlap
    }
}

/// The same where the ends of each come in any order.
fn faces(a: i64, b: i64, c: i64, d: i64) -> Relation
    ensures { Faces result a b c d }
{
    facing(a.min(b), a.max(b), c.min(d), c.max(d))
}

/// Whether s goes straight up or down.
pub fn is_upright(s: &Seg) -> bool
    ensures { IsTrue result ↔ s.now.a.x ≡ s.now.b.x }
{
    s.from().x() == s.to().x()
}

/// How the spans of two segments from left to right lie to one another.
pub fn face_across(s: &Seg, t: &Seg) -> Relation
    ensures { Faces result s.now.a.x s.now.b.x t.now.a.x t.now.b.x }
{
    faces(s.from().x(), s.to().x(), t.from().x(), t.to().x())
}

/// How the spans of two segments from below to above lie to one another.
pub fn face_upward(s: &Seg, t: &Seg) -> Relation
    ensures { Faces result s.now.a.y s.now.b.y t.now.a.y t.now.b.y }
{
    faces(s.from().y(), s.to().y(), t.from().y(), t.to().y())
}
