ghost use Rattle.std.specs.Prelude.{◌≡◌};
ghost use Rattle.face_rings.specs.Border.{dart_before, dart_order};

use std::cmp::Ordering;
use topo_base::Dart;

/// Whether the first dart comes before the second: by edge, forward before backward.
fn is_before(a: &Dart, b: &Dart) -> bool
    ensures { result ≡ dart_before a.now b.now }
{
    a.edge.0 < b.edge.0 || a.edge.0 == b.edge.0 && a.forward && !b.forward
}

/// Which of two darts comes first.
pub(crate) fn order_of(a: &Dart, b: &Dart) -> Ordering
    ensures { result ≡ dart_order a.now b.now }
{
    if is_before(a, b) {
        Ordering::Less
    } else if is_before(b, a) {
        Ordering::Greater
    } else {
        Ordering::Equal
    }
}
