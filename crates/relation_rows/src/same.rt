// Lists of the same features.
ghost use Rattle.std.specs.Prelude.{◌≡◌, ◌==◌, ℕ, map};
ghost use Rattle.drawing.specs.Content.{listing};
ghost use Rattle.drawing.specs.Drawing.{Drawing, feature_id_of};
ghost use Rattle.drawing.specs.Relations.{lists_element};
ghost use Rattle.drawing.specs.RemoveEdge.{have_same_features, same_numbers};

use crate::features::FeatureList;
use topo_base::FeatureRow;

fn has_same_id(a: &FeatureRow, b: &FeatureRow) -> bool
    ensures { result ≡ (feature_id_of a.now == feature_id_of b.now) }
{
    a.feature_id.0 == b.feature_id.0
}

fn have_same_ids(a: &[FeatureRow], b: &[FeatureRow]) -> bool
    ensures { result ≡ same_numbers (map feature_id_of a.now) (map feature_id_of b.now) }
{
    if a.len() != b.len() {
        return false;
    }
    for place in 0..a.len() {
        if !has_same_id(&a[place], &b[place]) {
            return false;
        }
    }
    true
}

/// Whether both lists have the same features in the same order, as those of two elements which the same
/// features list. Takes no memory.
pub fn same_features(a: &FeatureList, b: &FeatureList) -> bool
    ensures same { result ≡ same_numbers (map feature_id_of a.now) (map feature_id_of b.now) }
    ensures shared { (S : Drawing) (type x y : ℕ) → a.now ≡ listing (lists_element S type x) S → b.now ≡ listing (lists_element S type y) S → result ≡ have_same_features S type x y }
{
    have_same_ids(a.as_slice(), b.as_slice())
}
