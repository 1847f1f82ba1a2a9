// The elements to which a feature descends.
ghost use Rattle.std.specs.Prelude.{◌≡◌, IfOk, map};
ghost use Rattle.drawing.specs.Descent.{elements_at as elements_at_level, elements_of as elements_below, level_of as level_in};
ghost use Rattle.drawing.specs.Drawing.{layer_at};
ghost use Rattle.drawing.specs.Tables.{drawn};
ghost use Rattle.layer_tree.specs.Descending.{layer_of, kind_in, primitive, primitives};

use crate::numbers::{below, listed_by};
use std::alloc::Global;
use std::sync::ledger::Ledger;
use topo_base::{EdgeId, Element, FaceId, FeatureId, Kind, LayerId, Memory, NodeId, Steps};
use topo_tables::Tables;

/// The level of a layer, and 0 where it isn't there.
fn level_of<L: Ledger>(tables: &Tables, layer: LayerId, steps: &mut Steps<L>) -> u32
    ensures { result ≡ level_in (layer_at (drawn tables.now.rows) layer) }
{
    match tables.layer(layer, steps) {
        None => 0,
        Some(row) => row.level,
    }
}

/// The elements of a feature of a layer of this level.
fn numbers_at<L: Ledger>(
    alloc: Global,
    tables: &Tables,
    level: u32,
    feature: FeatureId,
    steps: &mut Steps<L>,
) -> Result<Vec<u32>, Memory>
    ensures { IfOk result (λ v. v.items ≡ elements_at_level (drawn tables.now.rows) level feature) }
{
    let mut numbers = listed_by(alloc, tables, feature, steps)?;
    for step in 0..level {
        numbers = below(alloc, tables, &numbers, steps)?;
    }
    Ok(numbers)
}

/// The numbers of the nodes, edges or faces to which a feature descends, ascending, each once: none where
/// the feature isn't there. It descends by one scan of the relation rows a level.
pub fn numbers_of<L: Ledger>(
    alloc: Global,
    tables: &Tables,
    feature: FeatureId,
    steps: &mut Steps<L>,
) -> Result<Vec<u32>, Memory>
    ensures { IfOk result (λ v. v.items ≡ elements_below (drawn tables.now.rows) feature) }
{
    match tables.feature(feature, steps) {
        None => Ok(Vec::new(alloc)),
        Some(row) => {
            let level = level_of(tables, row.layer_id, steps);
            numbers_at(alloc, tables, level, row.feature_id, steps)
        }
    }
}

/// The node, edge or face of this number, by the type of a layer.
fn primitive(kind: Kind, number: u32) -> Element
    ensures { result ≡ primitive kind number }
{
    match kind {
        Kind::Puntal => Element::Node(NodeId(number)),
        Kind::Lineal => Element::Edge(EdgeId(number)),
        Kind::Areal => Element::Face(FaceId(number)),
    }
}

/// The nodes, edges or faces of these numbers.
fn those_of(alloc: Global, kind: Kind, numbers: &[u32]) -> Result<Vec<Element>, Memory>
    ensures { IfOk result (λ v. v.items ≡ map (primitive kind) numbers.now) }
{
    let mut elements = Vec::with_capacity(alloc, numbers.len())?;
    for number in numbers {
        elements.push(primitive(kind, *number))?;
    }
    Ok(elements)
}

/// The type of a feature's layer. None where the feature or the layer isn't there.
fn kind_of<L: Ledger>(tables: &Tables, feature: FeatureId, steps: &mut Steps<L>) -> Option<Kind>
    ensures { result ≡ kind_in (layer_of (drawn tables.now.rows) feature) }
{
    let row = tables.feature(feature, steps)?;
    let layer = tables.layer(row.layer_id, steps)?;
    Some(layer.feature_type)
}

/// The nodes, edges or faces to which a feature descends, as GetTopoGeomElements of PostGIS gives them:
/// ascending, each once. None are where the feature or its layer isn't there.
pub fn elements_of<L: Ledger>(
    alloc: Global,
    tables: &Tables,
    feature: FeatureId,
    steps: &mut Steps<L>,
) -> Result<Vec<Element>, Memory>
    ensures { IfOk result (λ v. v.items ≡ primitives (kind_in (layer_of (drawn tables.now.rows) feature)) (elements_below (drawn tables.now.rows) feature)) }
{
    match kind_of(tables, feature, steps) {
        None => Ok(Vec::new(alloc)),
        Some(kind) => {
            let numbers = numbers_of(alloc, tables, feature, steps)?;
            those_of(alloc, kind, &numbers)
        }
    }
}
