// Elements that are merged into another.
ghost use Rattle.std.specs.Prelude.{◌≡◌, ◌∷◌, [], flat_map, IsTrue, IfOk};
ghost use Rattle.topo_base.specs.declared.rows.Counters.{Counters};
ghost use Rattle.drawing.specs.Relations.{follow};
ghost use Rattle.drawing.specs.Tables.{Tables as TablesValue, drawn};
ghost use Rattle.drawing.specs.Writable.{CanWriteAll};
ghost use Rattle.drawing.specs.Writes.{all_written};
ghost use Rattle.relation_rows.specs.Elements.{is_primitive, number_of, type_of};
ghost use Rattle.relation_rows.specs.Following.{AreFeaturesOf, replaced_by};

use crate::features::FeatureList;
use crate::split::follow_split;
use std::alloc::Global;
use topo_base::{Element, Memory};
use topo_tables::Writes;

/// The row writes by which features follow a node, an edge or a face that is merged into another of its
/// type, which is given by its number: each of the features lists that one in its place, once. The
/// features are those that list the element that goes.
pub fn follow_merge(
    alloc: Global,
    features: &FeatureList,
    gone: Element,
    kept: u32,
) -> Result<Writes, Memory>
    requires { IsTrue (is_primitive gone) }
    ensures writes { IfOk result (λ ws. ws ≡ flat_map (replaced_by (type_of gone) (number_of gone) (kept ∷ [])) features.now) }
    ensures follows { IfOk result (λ ws. (n : Counters) (t : TablesValue) → AreFeaturesOf t (type_of gone) (number_of gone) features.now → all_written n t ws ≡ record t { relations = follow (drawn t) (type_of gone) (number_of gone ∷ []) (kept ∷ []) }) }
    ensures merged { IfOk result (λ ws. (n : Counters) (t : TablesValue) → AreFeaturesOf t (type_of gone) (number_of gone) features.now → all_written n t ws ≡ record t { relations = follow (drawn t) (type_of gone) (kept ∷ number_of gone ∷ []) (kept ∷ []) }) }
    ensures can { IfOk result (λ ws. (n : Counters) (t : TablesValue) → AreFeaturesOf t (type_of gone) (number_of gone) features.now → CanWriteAll n t ws) }
{
    follow_split(alloc, features, gone, [kept].as_slice())
}
