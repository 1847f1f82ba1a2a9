ghost use Rattle.std.specs.Prelude.{◌≡◌, ◌↔◌, IsTrue};
ghost use Rattle.std.specs.declared.cmp.Ordering.TheVariants.{Less, Equal, Greater};
ghost use Rattle.grid_angle.specs.Quarters.{quarter_number};
ghost use Rattle.plane.specs.Direction.{is_nearer, nearer_by, quarter, IsNotZero, OneDirection};

use crate::Dir;
use crate::dir::{cross_of, dot_of};
use std::cmp::Ordering;

/// Where a direction lies clockwise from another: straight ahead, less than half a turn on, half a
/// turn on, or more.
#[derive(Clone, Copy, Debug)]
enum Quarter {
    Ahead,
    Right,
    Behind,
    Left,
}

/// How many quarters come before this one, clockwise.
fn number(of: Quarter) -> u8
    ensures { result ≡ quarter_number of }
{
    match of {
        Quarter::Ahead => 0,
        Quarter::Right => 1,
        Quarter::Behind => 2,
        Quarter::Left => 3,
    }
}

/// Where `a` lies clockwise from `from`.
fn quarter_of(from: &Dir, a: &Dir) -> Quarter
    ensures { quarter_number result ≡ quarter from.now a.now }
{
    let turned = cross_of(from, a);
    if turned < 0 {
        Quarter::Right
    } else if 0 < turned {
        Quarter::Left
    } else if dot_of(from, a) < 0 {
        Quarter::Behind
    } else {
        Quarter::Ahead
    }
}

/// Whether a direction in the first quarter comes before one in the second, where `turned` says how
/// the second lies to the first.
fn is_before(first: Quarter, second: Quarter, turned: i128) -> bool
    ensures { result ≡ nearer_by (quarter_number first) (quarter_number second) turned }
{
    let place = number(first);
    let other = number(second);
    place < other || place == other && turned < 0 && (place == 1 || place == 3)
}

/// Whether `a` lies less far clockwise from `from` than `b`.
fn is_nearer_of(from: &Dir, a: &Dir, b: &Dir) -> bool
    ensures nearer { result ≡ is_nearer from.now a.now b.now }
    ensures some { IsNotZero from.now × IsNotZero a.now × IsNotZero b.now }
{
    let turned = cross_of(a, b);
    let _ = from.dx();
    let _ = a.dx();
    let _ = b.dx();
    is_before(quarter_of(from, a), quarter_of(from, b), turned)
}

/// Which of two directions comes first, clockwise from `from`. The direction of `from` itself comes
/// before all others, and Equal is the answer exactly where both point the same way.
pub fn clockwise(from: Dir, a: Dir, b: Dir) -> Ordering
    ensures less { result ≡ Less ↔ IsTrue (is_nearer from a b) }
    ensures greater { result ≡ Greater ↔ IsTrue (is_nearer from b a) }
    ensures equal { result ≡ Equal ↔ OneDirection a b }
    ensures some { IsNotZero from × IsNotZero a × IsNotZero b }
{
    if is_nearer_of(&from, &a, &b) {
        Ordering::Less
    } else if is_nearer_of(&from, &b, &a) {
        Ordering::Greater
    } else {
        Ordering::Equal
    }
}
