// Which elements a feature of a layer may list.
ghost use Rattle.std.specs.Prelude.{◌≡◌, ◌==◌, not, Some, []};
ghost use Rattle.std.specs.List.{list_any};
ghost use Rattle.drawing.specs.Drawing.{feature_at, has_edge as has_edge_in, has_node as has_node_in};
ghost use Rattle.drawing.specs.Layers.{element_rule as rule_of_element, element_rule_on as rule_upon, elements_rule as rule_of_elements, is_feature_of as is_of_layer, missing as is_missing, missing_element as misses, or_else, same_pair};
ghost use Rattle.drawing.specs.Tables.{drawn};

use std::sync::ledger::Ledger;
use topo_base::{EdgeId, FaceId, FeatureId, Kind, LayerId, LayerRow, NodeId, Pair, Rule, Steps};
use topo_tables::Tables;

/// Whether the node is there.
fn has_node<L: Ledger>(tables: &Tables, id: u32, steps: &mut Steps<L>) -> bool
    ensures { result ≡ has_node_in (drawn tables.now.rows) id }
{
    tables.node(NodeId(id), steps).is_some()
}

/// Whether the edge is there.
fn has_edge<L: Ledger>(tables: &Tables, id: u32, steps: &mut Steps<L>) -> bool
    ensures { result ≡ has_edge_in (drawn tables.now.rows) id }
{
    tables.edge(EdgeId(id), steps).is_some()
}

/// The rule, unless the element is there.
fn missing(is_there: bool, rule: Rule) -> Option<Rule>
    ensures { result ≡ is_missing is_there rule }
{
    if is_there { None } else { Some(rule) }
}

/// The rule that refuses a node, an edge or a face by its number; none where it is there.
fn missing_element<L: Ledger>(
    tables: &Tables,
    kind: Kind,
    id: u32,
    steps: &mut Steps<L>,
) -> Option<Rule>
    ensures { result ≡ misses (drawn tables.now.rows) kind id }
{
    match kind {
        Kind::Puntal => missing(has_node(tables, id, steps), Rule::NoNode),
        Kind::Lineal => missing(has_edge(tables, id, steps), Rule::NoEdge),
        Kind::Areal => {
            if id == 0 {
                return Some(Rule::UniverseElement);
            }
            missing(tables.has_face(FaceId(id)), Rule::NoFace)
        }
    }
}

/// Whether the feature is there, in the layer.
fn is_feature_of<L: Ledger>(
    tables: &Tables,
    layer: LayerId,
    feature: u32,
    steps: &mut Steps<L>,
) -> bool
    ensures { result ≡ is_of_layer layer (feature_at (drawn tables.now.rows) feature) }
{
    match tables.feature(FeatureId(feature), steps) {
        None => false,
        Some(row) => row.layer_id.0 == layer.0,
    }
}

/// The rule that refuses an element in a layer of this type upon this child.
fn rule_on<L: Ledger>(
    tables: &Tables,
    kind: Kind,
    child: Option<LayerId>,
    pair: Pair,
    steps: &mut Steps<L>,
) -> Option<Rule>
    ensures { result ≡ rule_upon (drawn tables.now.rows) kind child pair }
{
    match child {
        None => {
            if pair.element_type != kind.number() {
                return Some(Rule::WrongKind);
            }
            missing_element(tables, kind, pair.id, steps)
        }
        Some(child) => {
            if pair.element_type != child.0 {
                return Some(Rule::WrongKind);
            }
            missing(
                is_feature_of(tables, child, pair.id, steps),
                Rule::NoFeature,
            )
        }
    }
}

/// The rule that refuses an element in a layer; none where a feature of the layer may list it.
pub fn element_rule<L: Ledger>(
    tables: &Tables,
    layer: &LayerRow,
    pair: Pair,
    steps: &mut Steps<L>,
) -> Option<Rule>
    ensures { result ≡ rule_of_element (drawn tables.now.rows) layer.now pair }
{
    rule_on(tables, layer.feature_type, layer.child_id, pair, steps)
}

fn is_same_pair(pair: Pair, other: &Pair) -> bool
    ensures { result ≡ same_pair pair other.now }
{
    pair.id == other.id && pair.element_type == other.element_type
}

/// Whether the element is one of these.
fn is_among(pair: Pair, others: &[Pair]) -> bool
    ensures { result ≡ list_any (same_pair pair) others.now }
{
    for other in others {
        if is_same_pair(pair, other) {
            return true;
        }
    }
    false
}

/// The rule that refuses an element behind others that are listed already.
fn rule_behind<L: Ledger>(
    tables: &Tables,
    layer: &LayerRow,
    pair: Pair,
    earlier: &[Pair],
    steps: &mut Steps<L>,
) -> Option<Rule>
    ensures { result ≡ or_else (rule_of_element (drawn tables.now.rows) layer.now pair) (is_missing (not (list_any (same_pair pair) earlier.now)) Rule.ElementListed) }
{
    match element_rule(tables, layer, pair, steps) {
        Some(rule) => Some(rule),
        None => missing(!is_among(pair, earlier), Rule::ElementListed),
    }
}

/// The first rule that refuses one of the elements; none where a new feature of the layer may list them.
pub fn elements_rule<L: Ledger>(
    tables: &Tables,
    layer: &LayerRow,
    pairs: &[Pair],
    steps: &mut Steps<L>,
) -> Option<Rule>
    ensures { result ≡ rule_of_elements (drawn tables.now.rows) layer.now [] pairs.now }
{
    for place in 0..pairs.len() {
        let rule = rule_behind(tables, layer, pairs[place], &pairs[..place], steps);
        if rule.is_some() {
            return rule;
        }
    }
    None
}
