ghost use Rattle.std.specs.Prelude.{◌≡◌, ◌↔◌, ◌<◌, length, Any, IfSome, IsNone, IsTrue};
ghost use Rattle.plane.specs.Direction.{OneDirection};
ghost use Rattle.plane.specs.Wedge.{in_clockwise_order, IsLastBefore};

use crate::{Dir, clockwise};
use std::cmp::Ordering;

/// The index of the last of these directions that comes before `dir`, clockwise: the wedge from it
/// to the next one has `dir` in it. None exactly where `dir` has the direction of one of them.
pub fn wedge(star: &[Dir], dir: Dir) -> Option<usize>
    requires some { 0 < length star.now }
    requires order { IsTrue (in_clockwise_order star.now) }
    ensures none { IsNone result ↔ Any (λ u. OneDirection u dir) star.now }
    ensures wedge { IfSome result (IsLastBefore star.now dir) }
{
    let from = star[0];
    let mut last = 0;
    for i in 0..star.len() {
        match clockwise(from, star[i], dir) {
            Ordering::Less => last = i,
            Ordering::Equal => return None,
            Ordering::Greater => return Some(last),
        }
    }
    Some(last)
}
