// Elements that a feature lists, and lists no more.
ghost use Rattle.std.specs.Prelude.{◌≡◌, IfOk, IsTrue, true};
ghost use Rattle.std.specs.List.{list_any};
ghost use Rattle.topo_base.specs.declared.edit.Edit.{Edit};
ghost use Rattle.drawing.specs.Drawing.{feature_at, layer_at};
ghost use Rattle.drawing.specs.Layers.{element_rule as rule_of_element, is_element_listed as is_listed_in, row_for};
ghost use Rattle.drawing.specs.Edits.{add_element as adds_element, rem_element as removes_element, with_element};
ghost use Rattle.drawing.specs.Relations.{same_row};
ghost use Rattle.drawing.specs.Tables.{drawn};
ghost use Rattle.drawing.specs.Writable.{has_feature_row, has_layer_row};
ghost use Rattle.read_set.specs.Edited.{AnswersOutcome, Follows};
ghost use Rattle.read_set.specs.Kept.{Keeps};
ghost use Rattle.topogeom_points.specs.Rows.{row_less, row_more};

use crate::creating::row_write;
use crate::pairs::element_rule;
use read_set::{EditEnd, Edited};
use std::alloc::Global;
use std::sync::ledger::Ledger;
use topo_base::{
    Element, FeatureId, FeatureRow, LayerId, LayerRow, Memory, Pair, RelationRow, RowId, RowWrite,
    Rule, Steps,
};
use topo_tables::Tables;

/// The row by which a feature lists an element.
fn row_for(feature: FeatureId, layer: LayerId, pair: Pair) -> RelationRow
    ensures { result ≡ row_for feature layer pair }
{
    RelationRow {
        topogeo_id: feature,
        layer_id: layer,
        element_id: pair.id,
        element_type: pair.element_type,
    }
}

/// Whether both rows are of one feature and list one element.
fn is_same(row: &RelationRow, other: &RelationRow) -> bool
    ensures { result ≡ same_row row.now other.now }
{
    row.topogeo_id.0 == other.topogeo_id.0
        && row.element_type == other.element_type
        && row.element_id == other.element_id
}

/// Whether a row is among these.
fn is_row_among<L: Ledger>(row: &RelationRow, rows: &[RelationRow], steps: &mut Steps<L>) -> bool
    ensures { result ≡ list_any (same_row row.now) rows.now }
{
    for other in rows {
        steps.tick();
        if is_same(row, other) {
            return true;
        }
    }
    false
}

/// Whether the feature of a row lists its element.
fn is_listed<L: Ledger>(tables: &Tables, row: &RelationRow, steps: &mut Steps<L>) -> bool
    ensures { result ≡ is_listed_in (drawn tables.now.rows) row.now }
{
    is_row_among(row, tables.relations(), steps)
}

/// The write by which a feature lists an element no more.
fn row_goes(feature: FeatureId, layer: LayerId, pair: Pair) -> RowWrite
    ensures { result ≡ RowWrite.DropRow (RowId.Old feature) (RowId.Old layer) (RowId.Old pair.id) pair.element_type }
{
    RowWrite::DropRow {
        feature: RowId::Old(feature.0),
        layer: RowId::Old(layer.0),
        element: RowId::Old(pair.id),
        element_type: pair.element_type,
    }
}

/// What makes a feature list an element more.
fn row_comes(
    alloc: Global,
    tables: &Tables,
    feature: FeatureId,
    layer: LayerId,
    pair: Pair,
) -> Result<Edited, Memory>
    requires feature { IsTrue (has_feature_row tables.now.rows feature) }
    requires layer { IsTrue (has_layer_row tables.now.rows layer) }
    ensures { IfOk result (λ d. Follows (drawn tables.now.rows) (row_more (drawn tables.now.rows) (row_for feature layer pair)) d) }
{
    let one = row_write(feature.0, layer, &pair);
    Edited::by_one(alloc, one, Element::Feature(feature))
}

/// What makes a feature list an element no more.
fn row_leaves(
    alloc: Global,
    tables: &Tables,
    feature: FeatureId,
    layer: LayerId,
    pair: Pair,
) -> Result<Edited, Memory>
    requires { is_listed_in (drawn tables.now.rows) (row_for feature layer pair) ≡ true }
    ensures { IfOk result (λ d. Follows (drawn tables.now.rows) (row_less (drawn tables.now.rows) (row_for feature layer pair)) d) }
{
    let one = row_goes(feature, layer, pair);
    Edited::by_one(alloc, one, Element::Feature(feature))
}

/// A feature of a layer lists an element more, by the rules of its layer, and of its rows.
fn add_to<L: Ledger>(
    alloc: Global,
    tables: &Tables,
    feature: FeatureId,
    layer: &LayerRow,
    pair: Pair,
    steps: &mut Steps<L>,
) -> Result<Edited, EditEnd>
    requires feature { IsTrue (has_feature_row tables.now.rows feature) }
    requires layer { IsTrue (has_layer_row tables.now.rows layer.now.layer_id) }
    ensures { AnswersOutcome (drawn tables.now.rows)
        (with_element (drawn tables.now.rows) (row_for feature layer.now.layer_id pair) (rule_of_element (drawn tables.now.rows) layer.now pair)) result }
{
    if let Some(rule) = element_rule(tables, layer, pair, steps) {
        return Err(EditEnd::Refused(rule));
    }
    if is_listed(tables, &row_for(feature, layer.layer_id, pair), steps) {
        return Err(EditEnd::Refused(Rule::ElementListed));
    }
    Ok(row_comes(alloc, tables, feature, layer.layer_id, pair)?)
}

/// A feature lists an element more, by the rules of TopoGeom_addElement: NoFeature; of the element
/// WrongKind, NoNode, NoEdge, NoFace, NoFeature, UniverseElement; and ElementListed.
pub fn add_element<L: Ledger>(
    alloc: Global,
    tables: &Tables,
    feature: FeatureId,
    pair: Pair,
    steps: &mut Steps<L>,
) -> Result<Edited, EditEnd>
    ensures answer { AnswersOutcome (drawn tables.now.rows)
        (adds_element (drawn tables.now.rows) (feature_at (drawn tables.now.rows) feature) pair) result }
    ensures kept { Keeps (drawn tables.now.rows) (Edit.AddElement feature pair.id pair.element_type) result }
{
    let Some(row) = tables.feature(feature, steps) else {
        return Err(EditEnd::Refused(Rule::NoFeature));
    };
    let Some(layer) = tables.layer(row.layer_id, steps) else {
        return Err(EditEnd::Refused(Rule::NoFeature));
    };
    add_to(alloc, tables, row.feature_id, layer, pair, steps)
}

/// A feature lists an element no more, by the rules of TopoGeom_remElement: NoFeature, ElementNotListed.
pub fn remove_element<L: Ledger>(
    alloc: Global,
    tables: &Tables,
    feature: FeatureId,
    pair: Pair,
    steps: &mut Steps<L>,
) -> Result<Edited, EditEnd>
    ensures answer { AnswersOutcome (drawn tables.now.rows)
        (removes_element (drawn tables.now.rows) (feature_at (drawn tables.now.rows) feature) pair) result }
    ensures kept { Keeps (drawn tables.now.rows) (Edit.RemElement feature pair.id pair.element_type) result }
{
    let Some(row) = tables.feature(feature, steps) else {
        return Err(EditEnd::Refused(Rule::NoFeature));
    };
    let (feature, layer) = (row.feature_id, row.layer_id);
    if !is_listed(tables, &row_for(feature, layer, pair), steps) {
        return Err(EditEnd::Refused(Rule::ElementNotListed));
    }
    Ok(row_leaves(alloc, tables, feature, layer, pair)?)
}
