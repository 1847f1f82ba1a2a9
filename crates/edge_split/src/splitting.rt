// Drafts in which an edge is split.
ghost use Rattle.std.specs.Prelude.{◌≡◌, ◌+◌, ◌<◌, ◌^◌, ◌∷◌, [], IfOk, OnOk};
ghost use Rattle.drawing.specs.Drawing.{Drawing};
ghost use Rattle.drawing.specs.Tables.{Tables as TablesValue, drawn, drawn_edge, tables_of};
ghost use Rattle.read_set.specs.Drafted.{IsDraftOf};
ghost use Rattle.read_set.specs.Edited.{IsTried};
ghost use Rattle.read_set.specs.Ready.{IsReady};
ghost use Rattle.ring_laws.specs.Ringed.{IsRinged};
ghost use Rattle.drawing.specs.SplitEdge.{split_mod_done, split_new_done};
ghost use Rattle.edge_split.specs.Splitting.{IsCut, HasFeaturesOf, followed_rows, split_mod_in, split_new_in, rows_boxed_as};

use crate::links::Parts;
use crate::writes::{mod_writes, new_writes};
use read_set::{Draft, Tried};
use relation_rows::{follow_split, listing_of};
use std::alloc::Global;
use std::sync::ledger::Ledger;
use topo_base::{EdgeId, EdgeRow, Element, Grid, Ids, Memory, NodeId, Steps};
use topo_tables::Tables;

/// A node and an edge, as a reply names them.
pub fn node_and_edge(node: NodeId, edge: EdgeId) -> Ids
    ensures { result ≡ Element.Node node ∷ Element.Edge edge ∷ [] }
{
    let mut ids = Ids::new();
    ids.push(Element::Node(node));
    ids.push(Element::Edge(edge));
    ids
}

fn node_and_edges(node: NodeId, first: EdgeId, second: EdgeId) -> Ids
    ensures { result ≡ Element.Node node ∷ Element.Edge first ∷ Element.Edge second ∷ [] }
{
    let mut ids = Ids::new();
    ids.push(Element::Node(node));
    ids.push(Element::Edge(first));
    ids.push(Element::Edge(second));
    ids
}

/// The features that listed the edge list both of its parts.
fn follow_parts<L: Ledger>(
    alloc: Global,
    draft: &mut Draft,
    parts: &Parts,
    steps: &mut Steps<L>,
) -> Result<(), Memory>
    requires { HasFeaturesOf draft.old.rows parts.now.edge }
    ensures rows { OnOk result (draft.new.rows ≡ followed_rows draft.old.rows parts.now.edge parts.now.first parts.now.second) }
    ensures drafted { (S : Drawing) → IsDraftOf S draft.old → OnOk result (IsDraftOf S draft.new) }
{
    let features = listing_of(alloc, draft.tables(), Element::Edge(parts.edge), steps)?;
    let both = [parts.first.0, parts.second.0];
    let writes = follow_split(alloc, &features, Element::Edge(parts.edge), &both)?;
    draft.write_all(alloc, writes, steps)
}

/// The edge with its first part in its place, and the second part with the next id.
fn parts_of_old(tables: &Tables, row: &EdgeRow) -> Parts
    ensures edge { result.edge ≡ row.now.edge_id }
    ensures node { result.node ≡ tables.now.rows.next_ids.node }
    ensures first { result.first ≡ row.now.edge_id }
    ensures second { result.second ≡ tables.now.rows.next_ids.edge }
{
    let counters = tables.counters();
    Parts {
        edge: row.edge_id,
        node: NodeId(counters.node),
        first: row.edge_id,
        second: EdgeId(counters.edge),
    }
}

/// The edge with two parts, which have the next two ids.
fn parts_anew(tables: &Tables, row: &EdgeRow) -> Parts
    requires { tables.now.rows.next_ids.edge + 2 < 2 ^ 32 }
    ensures edge { result.edge ≡ row.now.edge_id }
    ensures node { result.node ≡ tables.now.rows.next_ids.node }
    ensures first { result.first ≡ tables.now.rows.next_ids.edge }
    ensures second { result.second ≡ tables.now.rows.next_ids.edge + 1 }
{
    let counters = tables.counters();
    Parts {
        edge: row.edge_id,
        node: NodeId(counters.node),
        first: EdgeId(counters.edge),
        second: EdgeId(counters.edge + 1),
    }
}

/// A draft in which the edge is its first part, and the second part has come. Features are still as they
/// were.
fn split_mod_draft<L: Ledger>(
    alloc: Global,
    tables: &Tables,
    row: &EdgeRow,
    parts: &Parts,
    point: Grid,
    steps: &mut Steps<L>,
) -> Result<Draft, Memory>
    requires ready { IsReady (drawn tables.now.rows) }
    requires ringed { IsRinged (drawn tables.now.rows) }
    requires stands { tables.now.rows ≡ tables_of (drawn tables.now.rows) }
    requires cut { IsCut (drawn tables.now.rows) row.now point }
    requires edge { parts.now.edge ≡ row.now.edge_id }
    requires node { parts.now.node ≡ tables.now.rows.next_ids.node }
    requires first { parts.now.first ≡ row.now.edge_id }
    requires second { parts.now.second ≡ tables.now.rows.next_ids.edge }
    ensures draft { IfOk result (λ d. IsDraftOf (drawn tables.now.rows) d) }
    ensures rows { IfOk result (λ d. d.rows ≡ rows_boxed_as (drawn tables.now.rows) (split_mod_in (drawn tables.now.rows) (drawn_edge row.now) point)) }
{
    let writes = mod_writes(alloc, tables, row, parts, point)?;
    let mut draft = Draft::of(alloc, tables)?;
    draft.write_all(alloc, writes, steps)?;
    Ok(draft)
}

/// A draft in which the edge has gone, and its parts have come. Features are still as they were.
fn split_new_draft<L: Ledger>(
    alloc: Global,
    tables: &Tables,
    row: &EdgeRow,
    parts: &Parts,
    point: Grid,
    steps: &mut Steps<L>,
) -> Result<Draft, Memory>
    requires ready { IsReady (drawn tables.now.rows) }
    requires ringed { IsRinged (drawn tables.now.rows) }
    requires stands { tables.now.rows ≡ tables_of (drawn tables.now.rows) }
    requires cut { IsCut (drawn tables.now.rows) row.now point }
    requires edge { parts.now.edge ≡ row.now.edge_id }
    requires node { parts.now.node ≡ tables.now.rows.next_ids.node }
    requires first { parts.now.first ≡ tables.now.rows.next_ids.edge }
    requires second { parts.now.second ≡ tables.now.rows.next_ids.edge + 1 }
    ensures draft { IfOk result (λ d. IsDraftOf (drawn tables.now.rows) d) }
    ensures rows { IfOk result (λ d. d.rows ≡ rows_boxed_as (drawn tables.now.rows) (split_new_in (drawn tables.now.rows) (drawn_edge row.now) point)) }
{
    let writes = new_writes(alloc, tables, row, parts, point)?;
    let mut draft = Draft::of(alloc, tables)?;
    draft.write_all(alloc, writes, steps)?;
    Ok(draft)
}

/// The draft of an edge that becomes its first part.
pub fn split_mod<L: Ledger>(
    alloc: Global,
    tables: &Tables,
    row: &EdgeRow,
    point: Grid,
    steps: &mut Steps<L>,
) -> Result<Tried, Memory>
    requires ready { IsReady (drawn tables.now.rows) }
    requires ringed { IsRinged (drawn tables.now.rows) }
    requires stands { tables.now.rows ≡ tables_of (drawn tables.now.rows) }
    requires cut { IsCut (drawn tables.now.rows) row.now point }
    ensures { IfOk result (λ d. IsTried (drawn tables.now.rows) (split_mod_done (drawn tables.now.rows) (drawn_edge row.now) point) d) }
{
    let parts = parts_of_old(tables, row);
    let mut draft = split_mod_draft(alloc, tables, row, &parts, point, steps)?;
    follow_parts(alloc, &mut draft, &parts, steps)?;
    let ids = node_and_edge(parts.node, parts.second);
    Ok(Tried { draft, ids })
}

/// The draft of an edge that goes, and two edges that come in its place.
pub fn split_new<L: Ledger>(
    alloc: Global,
    tables: &Tables,
    row: &EdgeRow,
    point: Grid,
    steps: &mut Steps<L>,
) -> Result<Tried, Memory>
    requires ready { IsReady (drawn tables.now.rows) }
    requires ringed { IsRinged (drawn tables.now.rows) }
    requires stands { tables.now.rows ≡ tables_of (drawn tables.now.rows) }
    requires cut { IsCut (drawn tables.now.rows) row.now point }
    ensures { IfOk result (λ d. IsTried (drawn tables.now.rows) (split_new_done (drawn tables.now.rows) (drawn_edge row.now) point) d) }
{
    let parts = parts_anew(tables, row);
    let mut draft = split_new_draft(alloc, tables, row, &parts, point, steps)?;
    follow_parts(alloc, &mut draft, &parts, steps)?;
    let ids = node_and_edges(parts.node, parts.first, parts.second);
    Ok(Tried { draft, ids })
}
