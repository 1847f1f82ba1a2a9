// The rules by which two edges are healed at a node.
ghost use Rattle.std.specs.Prelude.{◌≡◌, ◌==◌, ◌&&◌, ◌||◌, IfOk, Some, if◌then◌else◌};
ghost use Rattle.topo_base.specs.declared.edit.Edit.{Edit};
ghost use Rattle.drawing.specs.Drawing.{edge_at, has_only, is_end_of};
ghost use Rattle.drawing.specs.HealEdges.{common_nodes, healed_node, is_closed, is_nothing};
ghost use Rattle.drawing.specs.Edits.{heal_at, heal_edges};
ghost use Rattle.drawing.specs.IsoEdits.{is_in_feature as is_element_in_feature};
ghost use Rattle.drawing.specs.Relations.{edge_type, node_type};
ghost use Rattle.drawing.specs.RemoveEdge.{have_same_features};
ghost use Rattle.drawing.specs.Tables.{drawn, drawn_edge, tables_of};
ghost use Rattle.read_set.specs.Edited.{AnswersOutcome, IsTried};
ghost use Rattle.read_set.specs.Kept.{Keeps};
ghost use Rattle.edge_heal.specs.Healing.{AreJoined, IsJoint, IsRowOf, heal_done_by};
ghost use Rattle.read_set.specs.Ready.{IsReady};
ghost use Rattle.ring_laws.specs.Ringed.{IsRinged};

use crate::heal_new::heal_new;
use crate::healing::heal_mod;
use drawing_queries::{has_only, is_in_feature};
use read_set::{EditEnd, Edited, Tried};
use relation_rows::have_same_features;
use std::alloc::Global;
use std::sync::ledger::Ledger;
use topo_base::{EdgeId, EdgeRow, Memory, NodeId, Rule, Steps};
use topo_tables::Tables;

/// The types of nodes and of edges among the elements of a primitive layer.
const NODE_TYPE: u32 = 1;

const EDGE_TYPE: u32 = 2;

/// Whether the edge starts and ends at one node.
fn is_closed(edge: &EdgeRow) -> bool
    ensures { result ≡ is_closed (drawn_edge edge.now) }
{
    edge.start_node.0 == edge.end_node.0
}

/// Whether the edge starts or ends at the node.
fn is_end_of(node: NodeId, edge: &EdgeRow) -> bool
    ensures { result ≡ is_end_of node (drawn_edge edge.now) }
{
    edge.start_node.0 == node.0 || edge.end_node.0 == node.0
}

/// Whether the two are one edge.
fn is_one_edge(first: &EdgeRow, second: &EdgeRow) -> bool
    ensures { result ≡ (first.now.edge_id == second.now.edge_id) }
{
    first.edge_id.0 == second.edge_id.0
}

/// Whether one of the edges starts and ends at one node.
pub fn is_one_closed(first: &EdgeRow, second: &EdgeRow) -> bool
    ensures { result ≡ (is_closed (drawn_edge first.now) || is_closed (drawn_edge second.now)) }
{
    is_closed(first) || is_closed(second)
}

/// Whether the two edges have no common node.
fn have_no_node(first: &EdgeRow, second: &EdgeRow) -> bool
    ensures { result ≡ is_nothing (common_nodes (drawn_edge first.now) (drawn_edge second.now)) }
{
    !is_end_of(first.end_node, second) && !is_end_of(first.start_node, second)
}

/// Whether the two are one edge, or have no common node.
pub fn are_not_joined(first: &EdgeRow, second: &EdgeRow) -> bool
    ensures { result ≡ (first.now.edge_id == second.now.edge_id || is_nothing (common_nodes (drawn_edge first.now) (drawn_edge second.now))) }
{
    is_one_edge(first, second) || have_no_node(first, second)
}

/// Whether a node of the first edge is one of the second, and has no edge but the two.
fn is_healed_at<L: Ledger>(
    tables: &Tables,
    first: &EdgeRow,
    second: &EdgeRow,
    node: NodeId,
    steps: &mut Steps<L>,
) -> bool
    ensures { result ≡ (is_end_of node (drawn_edge second.now) && has_only (drawn tables.now.rows) node first.now.edge_id second.now.edge_id) }
{
    is_end_of(node, second) && has_only(tables, node, first.edge_id, second.edge_id, steps)
}

/// The node at which two edges are healed: a common one that has no other edge. The end of the first edge
/// is tried before its start.
pub fn healed_node<L: Ledger>(
    tables: &Tables,
    first: &EdgeRow,
    second: &EdgeRow,
    steps: &mut Steps<L>,
) -> Option<NodeId>
    ensures { result ≡ healed_node (drawn tables.now.rows) (drawn_edge first.now) (drawn_edge second.now) }
{
    if is_healed_at(tables, first, second, first.end_node, steps) {
        return Some(first.end_node);
    }
    if is_healed_at(tables, first, second, first.start_node, steps) {
        return Some(first.start_node);
    }
    None
}

/// Whether the features that list the one edge are those that list the other.
fn are_listed_alike<L: Ledger>(
    tables: &Tables,
    first: &EdgeRow,
    second: &EdgeRow,
    steps: &mut Steps<L>,
) -> bool
    ensures { result ≡ have_same_features (drawn tables.now.rows) edge_type first.now.edge_id second.now.edge_id }
{
    have_same_features(tables, EDGE_TYPE, first.edge_id.0, second.edge_id.0, steps)
}

/// Whether a feature lists the node.
fn is_listed<L: Ledger>(tables: &Tables, node: NodeId, steps: &mut Steps<L>) -> bool
    ensures { result ≡ is_element_in_feature (drawn tables.now.rows) node_type node }
{
    is_in_feature(tables, NODE_TYPE, node.0, steps)
}

/// The draft of two edges that may be healed at the node: the joined edge is new, or it is the first.
fn heal<L: Ledger>(
    alloc: Global,
    tables: &Tables,
    first: &EdgeRow,
    second: &EdgeRow,
    node: NodeId,
    anew: bool,
    steps: &mut Steps<L>,
) -> Result<Tried, Memory>
    requires ready { IsReady (drawn tables.now.rows) }
    requires ringed { IsRinged (drawn tables.now.rows) }
    requires stands { tables.now.rows ≡ tables_of (drawn tables.now.rows) }
    requires joint { IsJoint (drawn tables.now.rows) first.now second.now node }
    ensures { IfOk result (λ d. IsTried (drawn tables.now.rows)
        (heal_done_by anew (drawn tables.now.rows) (drawn_edge first.now) (drawn_edge second.now) node) d) }
{
    if anew {
        heal_new(alloc, tables, first, second, node, steps)
    } else {
        heal_mod(alloc, tables, first, second, node, steps)
    }
}

/// Two edges that are joined at a node are healed there, by the rules on features: HealSplitsFeature,
/// NodeInFeature.
fn heal_at<L: Ledger>(
    alloc: Global,
    tables: &Tables,
    first: &EdgeRow,
    second: &EdgeRow,
    node: NodeId,
    anew: bool,
    steps: &mut Steps<L>,
) -> Result<Edited, EditEnd>
    requires ready { IsReady (drawn tables.now.rows) }
    requires ringed { IsRinged (drawn tables.now.rows) }
    requires stands { tables.now.rows ≡ tables_of (drawn tables.now.rows) }
    requires joined { AreJoined (drawn tables.now.rows) first.now second.now node }
    ensures { AnswersOutcome (drawn tables.now.rows)
        (heal_at anew (drawn tables.now.rows) (drawn_edge first.now) (drawn_edge second.now) (Some node)) result }
{
    if !are_listed_alike(tables, first, second, steps) {
        return Err(EditEnd::Refused(Rule::HealSplitsFeature));
    }
    if is_listed(tables, node, steps) {
        return Err(EditEnd::Refused(Rule::NodeInFeature));
    }
    let tried = heal(alloc, tables, first, second, node, anew, steps)?;
    Ok(tried.into_edited())
}

/// Two edges of the tables are healed, by the rules on their nodes, ClosedEdge, NotJoined and
/// OthersJoined, and then by those on features.
fn heal_rows<L: Ledger>(
    alloc: Global,
    tables: &Tables,
    first: &EdgeRow,
    second: &EdgeRow,
    anew: bool,
    steps: &mut Steps<L>,
) -> Result<Edited, EditEnd>
    requires ready { IsReady (drawn tables.now.rows) }
    requires ringed { IsRinged (drawn tables.now.rows) }
    requires stands { tables.now.rows ≡ tables_of (drawn tables.now.rows) }
    requires first { IsRowOf (drawn tables.now.rows) first.now }
    requires second { IsRowOf (drawn tables.now.rows) second.now }
    ensures { AnswersOutcome (drawn tables.now.rows)
        (heal_edges anew (drawn tables.now.rows) (Some (drawn_edge first.now)) (Some (drawn_edge second.now))) result }
{
    if is_one_closed(first, second) {
        return Err(EditEnd::Refused(Rule::ClosedEdge));
    }
    if are_not_joined(first, second) {
        return Err(EditEnd::Refused(Rule::NotJoined));
    }
    let Some(node) = healed_node(tables, first, second, steps) else {
        return Err(EditEnd::Refused(Rule::OthersJoined));
    };
    heal_at(alloc, tables, first, second, node, anew, steps)
}

/// What ST_ModEdgeHeal of SQL/MM Topo-Geo answers on the tables where two edges are healed into one, or
/// ST_NewEdgeHeal, where the joined edge is to be new: the row writes that make the tables follow it, and
/// a reply that names the node that goes and the joined edge, a new edge first. Refused has the first rule
/// that refuses it, of NoEdge, ClosedEdge, NotJoined, OthersJoined, HealSplitsFeature and NodeInFeature;
/// Memory comes only where none does. Nothing is changed.
pub fn heal_edges<L: Ledger>(
    alloc: Global,
    tables: &Tables,
    edge: EdgeId,
    other: EdgeId,
    anew: bool,
    steps: &mut Steps<L>,
) -> Result<Edited, EditEnd>
    requires ready { IsReady (drawn tables.now.rows) }
    requires ringed { IsRinged (drawn tables.now.rows) }
    requires stands { tables.now.rows ≡ tables_of (drawn tables.now.rows) }
    ensures answer { AnswersOutcome (drawn tables.now.rows)
        (heal_edges anew (drawn tables.now.rows) (edge_at (drawn tables.now.rows) edge) (edge_at (drawn tables.now.rows) other)) result }
    ensures kept { Keeps (drawn tables.now.rows) (if anew then Edit.NewEdgeHeal edge other else Edit.ModEdgeHeal edge other) result }
{
    let Some(first) = tables.edge(edge, steps) else {
        return Err(EditEnd::Refused(Rule::NoEdge));
    };
    let Some(second) = tables.edge(other, steps) else {
        return Err(EditEnd::Refused(Rule::NoEdge));
    };
    heal_rows(alloc, tables, first, second, anew, steps)
}
