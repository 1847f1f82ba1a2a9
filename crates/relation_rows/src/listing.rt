// Which features list an element.
ghost use Rattle.std.specs.Prelude.{◌≡◌, ◌+◌, ◌*◌, ◌≤◌, IsTrue, IfOk, length, filter, map};
ghost use Rattle.drawing.specs.Content.{listing};
ghost use Rattle.drawing.specs.Relations.{is_hierarchical, lists_element};
ghost use Rattle.drawing.specs.Tables.{drawn};
ghost use Rattle.relation_rows.specs.Elements.{is_primitive, number_of, type_of};
ghost use Rattle.relation_rows.specs.Following.{feature_of};

use crate::element;
use crate::features::FeatureList;
use std::alloc::Global;
use std::sync::ledger::Ledger;
use topo_base::{Element, FeatureRow, LayerId, Memory, RelationRow, Steps};
use topo_tables::Tables;

/// Whether the layer is there and has a child: its rows list features, and else nodes, edges or faces.
pub fn is_hierarchical<L: Ledger>(tables: &Tables, layer: LayerId, steps: &mut Steps<L>) -> bool
    ensures test { result ≡ is_hierarchical (drawn tables.now.rows) layer }
    ensures counted { steps.new ≡ steps.old + 1 }
{
    match tables.layer(layer, steps) {
        None => false,
        Some(row) => row.child_id.is_some(),
    }
}

/// Whether the row lists the element of this type.
pub fn lists_element<L: Ledger>(
    tables: &Tables,
    element_type: u32,
    id: u32,
    row: &RelationRow,
    steps: &mut Steps<L>,
) -> bool
    ensures test { result ≡ lists_element (drawn tables.now.rows) element_type id row.now }
    ensures counted { steps.new ≤ steps.old + 2 }
{
    steps.tick();
    row.element_type == element_type
        && row.element_id == id
        && !is_hierarchical(tables, row.layer_id, steps)
}

/// The feature of a row, with its layer.
fn feature_of(row: &RelationRow) -> FeatureRow
    ensures { result ≡ feature_of row.now }
{
    FeatureRow {
        feature_id: row.topogeo_id,
        layer_id: row.layer_id,
    }
}

/// The features of those of the rows that list the element of this type.
fn features_in<L: Ledger>(
    alloc: Global,
    tables: &Tables,
    rows: &[RelationRow],
    element_type: u32,
    id: u32,
    steps: &mut Steps<L>,
) -> Result<FeatureList, Memory>
    ensures features { IfOk result (λ l. l ≡ map feature_of (filter (lists_element (drawn tables.now.rows) element_type id) rows.now)) }
    ensures counted { steps.new ≤ steps.old + 2 * length rows.now }
{
    let mut features = FeatureList::new(alloc);
    for row in rows {
        if lists_element(tables, element_type, id, row, steps) {
            features.push(feature_of(row))?;
        }
    }
    Ok(features)
}

/// The features that list a node, an edge or a face, each with its layer, in the order of the relation
/// rows. Rows of layers with a child name features, and count for none. Takes at most 2 steps a row.
pub fn listing_of<L: Ledger>(
    alloc: Global,
    tables: &Tables,
    element: Element,
    steps: &mut Steps<L>,
) -> Result<FeatureList, Memory>
    requires { IsTrue (is_primitive element) }
    ensures features { IfOk result (λ l. l ≡ listing (lists_element (drawn tables.now.rows) (type_of element) (number_of element)) (drawn tables.now.rows)) }
    ensures counted { steps.new ≤ steps.old + 2 * length tables.now.rows.relations }
{
    let element_type = element::type_of(&element);
    let id = element::number_of(&element);
    features_in(alloc, tables, tables.relations(), element_type, id, steps)
}
