ghost use Rattle.std.specs.Prelude.{◌≡◌, ◌<◌, length, Contains, IfSome, IsNone, IsTrue};
ghost use Rattle.std.specs.List.{HoldsAt};
ghost use Rattle.face_rings.specs.Border.{darts_ascend, darts_of};
ghost use Rattle.face_rings.specs.declared.content.BorderDart.{BorderDart as BorderDartValue};

use crate::content::BorderDart;
use crate::order::order_of;
use topo_base::Dart;

/// The place of a dart among these, which ascend. None where it is not among them.
pub(crate) fn place_of(darts: &[BorderDart], dart: &Dart) -> Option<usize>
    requires { IsTrue (darts_ascend darts.now) }
    ensures within { IfSome result (λ i. i < length darts.now) }
    ensures found { IfSome result (HoldsAt (λ (b : BorderDartValue). b.dart ≡ dart.now) darts.now) }
    ensures none { IsNone result → Contains (darts_of darts.now) dart.now → ⊥ }
{
    darts.binary_search_by(|one| order_of(&one.dart, dart)).ok()
}
