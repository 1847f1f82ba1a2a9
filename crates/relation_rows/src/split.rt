// Elements that are divided.
ghost use Rattle.std.specs.Prelude.{◌≡◌, ◌++◌, ◌∷◌, [], flat_map, IsTrue, IfOk, OnOk};
ghost use Rattle.topo_base.specs.declared.rows.Counters.{Counters};
ghost use Rattle.drawing.specs.Relations.{follow};
ghost use Rattle.drawing.specs.Tables.{Tables as TablesValue, drawn};
ghost use Rattle.drawing.specs.Writable.{CanWriteAll};
ghost use Rattle.drawing.specs.Writes.{all_written};
ghost use Rattle.relation_rows.specs.Elements.{is_primitive, number_of, type_of};
ghost use Rattle.relation_rows.specs.Following.{AreFeaturesOf, replaced_by, row_comes, row_goes};

use crate::element;
use crate::features::FeatureList;
use std::alloc::Global;
use topo_base::{Element, FeatureRow, Memory, RowId, RowWrite};
use topo_tables::Writes;

/// A feature lists an element no more.
fn row_goes(feature: &FeatureRow, element_type: u32, element: u32) -> RowWrite
    ensures { result ≡ row_goes element_type element feature.now }
{
    RowWrite::DropRow {
        feature: RowId::Old(feature.feature_id.0),
        layer: RowId::Old(feature.layer_id.0),
        element: RowId::Old(element),
        element_type,
    }
}

/// A feature lists an element.
fn row_comes(feature: &FeatureRow, element_type: u32, element: u32) -> RowWrite
    ensures { result ≡ row_comes element_type feature.now element }
{
    RowWrite::AddRow {
        feature: RowId::Old(feature.feature_id.0),
        layer: RowId::Old(feature.layer_id.0),
        element: RowId::Old(element),
        element_type,
    }
}

/// A feature lists these elements in the place of one.
fn replace(
    writes: &mut Writes,
    feature: &FeatureRow,
    element_type: u32,
    old: u32,
    new: &[u32],
) -> Result<(), Memory>
    ensures { OnOk result (writes.new ≡ writes.old ++ replaced_by element_type old new.now feature.now) }
{
    writes.push(row_goes(feature, element_type, old))?;
    for element in new {
        writes.push(row_comes(feature, element_type, *element))?;
    }
    Ok(())
}

/// Each feature lists these elements in the place of one.
fn replace_all(
    alloc: Global,
    features: &[FeatureRow],
    element_type: u32,
    old: u32,
    new: &[u32],
) -> Result<Writes, Memory>
    ensures { IfOk result (λ ws. ws ≡ flat_map (replaced_by element_type old new.now) features.now) }
{
    let mut writes = Writes::new(alloc);
    for feature in features {
        replace(&mut writes, feature, element_type, old, new)?;
    }
    Ok(writes)
}

/// The row writes by which features follow a node, an edge or a face that is divided into parts, which
/// have its type and are given by their numbers: each of the features lists the parts in its place. A
/// part may be the element itself, or one that a feature lists already. The features are those that list
/// the element.
pub fn follow_split(
    alloc: Global,
    features: &FeatureList,
    old: Element,
    parts: &[u32],
) -> Result<Writes, Memory>
    requires { IsTrue (is_primitive old) }
    ensures writes { IfOk result (λ ws. ws ≡ flat_map (replaced_by (type_of old) (number_of old) parts.now) features.now) }
    ensures follows { IfOk result (λ ws. (n : Counters) (t : TablesValue) → AreFeaturesOf t (type_of old) (number_of old) features.now → all_written n t ws ≡ record t { relations = follow (drawn t) (type_of old) (number_of old ∷ []) parts.now }) }
    ensures can { IfOk result (λ ws. (n : Counters) (t : TablesValue) → AreFeaturesOf t (type_of old) (number_of old) features.now → CanWriteAll n t ws) }
{
    replace_all(
        alloc,
        features.as_slice(),
        element::type_of(&old),
        element::number_of(&old),
        parts,
    )
}
