// The draft in which the first of two edges becomes the edge that both are healed into.
ghost use Rattle.std.specs.Prelude.{◌≡◌, ◌++◌, ◌∷◌, [], not, ◌==◌, IfOk, OnOk};
ghost use Rattle.topo_base.specs.declared.write.RowWrite.TheVariants.{DropEdge, DropNode, SetLine, SetNext};
ghost use Rattle.drawing.specs.Drawing.{Drawing};
ghost use Rattle.drawing.specs.HealEdges.{heal_mod_done, joined_edge};
ghost use Rattle.drawing.specs.Tables.{drawn, drawn_edge, tables_of};
ghost use Rattle.read_set.specs.Drafted.{IsDraftOf};
ghost use Rattle.edge_links.specs.Links.{hand_back, row_dart};
ghost use Rattle.read_set.specs.Edited.{IsTried};
ghost use Rattle.edge_heal.specs.HealWrites.{last_heal_rows, merged_rows, mod_heal_in, mod_heal_rows};
ghost use Rattle.edge_heal.specs.Healing.{AreMeeting, IsJoint};
ghost use Rattle.edge_heal.specs.Joined.{IsHealedAt, follows_on};
ghost use Rattle.read_set.specs.Ready.{IsReady};
ghost use Rattle.ring_laws.specs.Ringed.{IsRinged};
ghost use Rattle.edge_split.specs.Splitting.{HasFeaturesOf, rows_boxed_as};

use crate::joint::{Healed, ends_at, follows_on, joined_ends, joined_line};
use edge_split::{node_and_edge, relink_rows, row_dart};
use read_set::{Draft, Tried};
use relation_rows::{follow_merge, listing_of};
use std::alloc::Global;
use std::sync::ledger::Ledger;
use topo_base::{EdgeRow, Element, Hand, Line, Memory, NodeId, RowId, RowWrite, Steps};
use topo_tables::{Tables, Writes};

/// The write by which the first edge gets the ends and the line of the joined edge.
fn line_write(first: &EdgeRow, second: &EdgeRow, node: NodeId, line: Line) -> RowWrite
    requires { line ≡ (joined_edge node (drawn_edge first.now) (drawn_edge second.now) first.now.edge_id).geom }
    ensures { result ≡ SetLine (RowId.Old first.now.edge_id)
        (RowId.Old (joined_edge node (drawn_edge first.now) (drawn_edge second.now) first.now.edge_id).start_node)
        (RowId.Old (joined_edge node (drawn_edge first.now) (drawn_edge second.now) first.now.edge_id).end_node)
        (joined_edge node (drawn_edge first.now) (drawn_edge second.now) first.now.edge_id).geom }
{
    let ends = joined_ends(first, second, node);
    RowWrite::SetLine {
        edge: RowId::Old(first.edge_id.0),
        start: RowId::Old(ends.start.0),
        end: RowId::Old(ends.end.0),
        geom: line,
    }
}

/// The hand of an edge on which the link at the end of this way is.
fn hand_at(way: bool) -> Hand
    ensures { result ≡ hand_back (not way) }
{
    if way { Hand::Left } else { Hand::Right }
}

/// The write after which the joined edge goes on as the second edge did.
fn goes_on(first: &EdgeRow, second: &EdgeRow, healed: &Healed, node: NodeId) -> RowWrite
    requires { IsHealedAt healed.now first.now second.now node }
    ensures { result ≡ SetNext (RowId.Old first.now.edge_id) (hand_back (not (node == first.now.end_node))) (row_dart (follows_on first.now second.now node healed.now.id)) }
{
    RowWrite::SetNext {
        edge: RowId::Old(first.edge_id.0),
        hand: hand_at(healed.way),
        next: row_dart(&follows_on(healed, first, second, node)),
    }
}

/// Puts the writes behind others by which the first edge becomes the joined one.
fn push_joined(
    writes: &mut Writes,
    first: &EdgeRow,
    second: &EdgeRow,
    healed: &Healed,
    node: NodeId,
    line: Line,
) -> Result<(), Memory>
    requires healed { IsHealedAt healed.now first.now second.now node }
    requires line { line ≡ (joined_edge node (drawn_edge first.now) (drawn_edge second.now) first.now.edge_id).geom }
    ensures { OnOk result (writes.new ≡ writes.old
        ++ SetLine (RowId.Old first.now.edge_id)
        (RowId.Old (joined_edge node (drawn_edge first.now) (drawn_edge second.now) first.now.edge_id).start_node)
        (RowId.Old (joined_edge node (drawn_edge first.now) (drawn_edge second.now) first.now.edge_id).end_node)
        (joined_edge node (drawn_edge first.now) (drawn_edge second.now) first.now.edge_id).geom
        ∷ SetNext (RowId.Old first.now.edge_id) (hand_back (not (node == first.now.end_node))) (row_dart (follows_on first.now second.now node healed.now.id))
        ∷ []) }
{
    writes.push(line_write(first, second, node, line))?;
    writes.push(goes_on(first, second, healed, node))
}

/// Puts the writes behind others by which the second edge and the node go.
fn push_gone(writes: &mut Writes, second: &EdgeRow, node: NodeId) -> Result<(), Memory>
    ensures { OnOk result (writes.new ≡ writes.old ++ DropEdge (RowId.Old second.now.edge_id) ∷ DropNode (RowId.Old node) ∷ []) }
{
    writes.push(RowWrite::DropEdge {
        edge: RowId::Old(second.edge_id.0),
    })?;
    writes.push(RowWrite::DropNode {
        node: RowId::Old(node.0),
    })
}

/// Puts the last writes behind others: the joined edge, and then the second edge and the node go.
fn push_last(
    writes: &mut Writes,
    first: &EdgeRow,
    second: &EdgeRow,
    healed: &Healed,
    node: NodeId,
    line: Line,
) -> Result<(), Memory>
    requires healed { IsHealedAt healed.now first.now second.now node }
    requires id { healed.now.id ≡ first.now.edge_id }
    requires line { line ≡ (joined_edge node (drawn_edge first.now) (drawn_edge second.now) first.now.edge_id).geom }
    ensures { OnOk result (writes.new ≡ writes.old ++ last_heal_rows first.now second.now node) }
{
    push_joined(writes, first, second, healed, node, line)?;
    push_gone(writes, second, node)
}

/// The row writes by which the first edge becomes the joined one: the links of other edges, the line and
/// the link of the joined edge, and then the second edge and the node go.
pub fn heal_writes(
    alloc: Global,
    tables: &Tables,
    first: &EdgeRow,
    second: &EdgeRow,
    healed: &Healed,
    node: NodeId,
) -> Result<Writes, Memory>
    requires healed { IsHealedAt healed.now first.now second.now node }
    requires id { healed.now.id ≡ first.now.edge_id }
    requires meeting { AreMeeting (drawn_edge first.now) (drawn_edge second.now) node }
    ensures { IfOk result (λ ws. ws ≡ mod_heal_rows tables.now.rows.edges first.now second.now node) }
{
    let line = joined_line(alloc, first, second, node)?;
    let mut writes = Writes::new(alloc);
    relink_rows(&mut writes, healed, tables.edges())?;
    push_last(&mut writes, first, second, healed, node, line)?;
    Ok(writes)
}

/// The features that listed the second edge list the first, once.
fn follow_first<L: Ledger>(
    alloc: Global,
    draft: &mut Draft,
    healed: &Healed,
    steps: &mut Steps<L>,
) -> Result<(), Memory>
    requires { HasFeaturesOf draft.old.rows healed.now.second }
    ensures rows { OnOk result (draft.new.rows ≡ merged_rows draft.old.rows healed.now.first healed.now.second) }
    ensures drafted { (S : Drawing) → IsDraftOf S draft.old → OnOk result (IsDraftOf S draft.new) }
{
    let features = listing_of(alloc, draft.tables(), Element::Edge(healed.second), steps)?;
    let writes = follow_merge(
        alloc,
        &features,
        Element::Edge(healed.second),
        healed.first.0,
    )?;
    draft.write_all(alloc, writes, steps)
}

/// The two edges, of which the first is to become the joined one.
pub fn healed_into_first(first: &EdgeRow, second: &EdgeRow, node: NodeId) -> Healed
    ensures healed { IsHealedAt result first.now second.now node }
    ensures id { result.id ≡ first.now.edge_id }
{
    Healed {
        first: first.edge_id,
        second: second.edge_id,
        id: first.edge_id,
        way: ends_at(first, node),
    }
}

/// A draft in which the first edge is the joined one, and the second edge and the node have gone.
/// Features are still as they were.
fn heal_mod_draft<L: Ledger>(
    alloc: Global,
    tables: &Tables,
    first: &EdgeRow,
    second: &EdgeRow,
    healed: &Healed,
    node: NodeId,
    steps: &mut Steps<L>,
) -> Result<Draft, Memory>
    requires ringed { IsRinged (drawn tables.now.rows) }
    requires stands { tables.now.rows ≡ tables_of (drawn tables.now.rows) }
    requires joint { IsJoint (drawn tables.now.rows) first.now second.now node }
    requires healed { IsHealedAt healed.now first.now second.now node }
    requires id { healed.now.id ≡ first.now.edge_id }
    ensures draft { IfOk result (λ d. IsDraftOf (drawn tables.now.rows) d) }
    ensures rows { IfOk result (λ d. d.rows ≡ rows_boxed_as (drawn tables.now.rows) (mod_heal_in (drawn tables.now.rows) (drawn_edge first.now) (drawn_edge second.now) node)) }
{
    let writes = heal_writes(alloc, tables, first, second, healed, node)?;
    let mut draft = Draft::of(alloc, tables)?;
    draft.write_all(alloc, writes, steps)?;
    Ok(draft)
}

/// The draft of two edges that are healed at a node into the first of them. The features that listed
/// them list that edge.
pub fn heal_mod<L: Ledger>(
    alloc: Global,
    tables: &Tables,
    first: &EdgeRow,
    second: &EdgeRow,
    node: NodeId,
    steps: &mut Steps<L>,
) -> Result<Tried, Memory>
    requires ready { IsReady (drawn tables.now.rows) }
    requires ringed { IsRinged (drawn tables.now.rows) }
    requires stands { tables.now.rows ≡ tables_of (drawn tables.now.rows) }
    requires joint { IsJoint (drawn tables.now.rows) first.now second.now node }
    ensures { IfOk result (λ d. IsTried (drawn tables.now.rows)
        (heal_mod_done (drawn tables.now.rows) (drawn_edge first.now) (drawn_edge second.now) node) d) }
{
    let healed = healed_into_first(first, second, node);
    let mut draft = heal_mod_draft(alloc, tables, first, second, &healed, node, steps)?;
    follow_first(alloc, &mut draft, &healed, steps)?;
    let ids = node_and_edge(node, healed.first);
    Ok(Tried { draft, ids })
}
