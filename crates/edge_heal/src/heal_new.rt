// The draft in which a new edge comes in the place of two that are healed at a node.
ghost use Rattle.std.specs.Prelude.{◌≡◌, ◌∷◌, ◌++◌, [], IfOk, OnOk, if◌then◌else◌};
ghost use Rattle.drawing.specs.Drawing.{Drawing};
ghost use Rattle.drawing.specs.HealEdges.{heal_new_done, joined_edge};
ghost use Rattle.drawing.specs.Tables.{drawn, drawn_edge, tables_of};
ghost use Rattle.read_set.specs.Drafted.{IsDraftOf};
ghost use Rattle.relation_rows.specs.KnownRows.{KnowsRows};
ghost use Rattle.read_set.specs.Edited.{IsTried};
ghost use Rattle.edge_heal.specs.Healing.{AreMeeting, IsJoint};
ghost use Rattle.edge_heal.specs.Joined.{IsHealedAt, follows_on};
ghost use Rattle.edge_heal.specs.NewHeal.{both_go, follows_back, joined_write, listed_anew, new_heal_in, new_heal_rows};
ghost use Rattle.read_set.specs.Ready.{IsReady};
ghost use Rattle.ring_laws.specs.Ringed.{IsRinged};
ghost use Rattle.edge_split.specs.Splitting.{rows_boxed_as};

use crate::joint::{Ends, Healed, ends_at, follower, follows_on, joined_ends, joined_line};
use edge_split::{Names, relink_rows, row_dart};
use read_set::{Draft, Tried};
use relation_rows::{follow_merge, listing_of};
use std::alloc::Global;
use std::sync::ledger::Ledger;
use topo_base::{
    Dart, EdgeId, EdgeRow, Element, Ids, Line, Memory, NodeId, RowId, RowWrite, Steps,
};
use topo_tables::{Tables, Writes};

/// The links of the joined edge.
struct Links {
    left: Dart,
    right: Dart,
}

/// What follows the joined edge, walked back to where the first edge came from.
fn follows_back(healed: &Healed, first: &EdgeRow, second: &EdgeRow, node: NodeId) -> Dart
    requires healed { IsHealedAt healed.now first.now second.now node }
    ensures { result ≡ follows_back first.now second.now node healed.now.id }
{
    healed.renamed(&follower(first, !healed.way))
}

/// The links of the joined edge. It has the way of the first edge.
fn links_of(first: &EdgeRow, second: &EdgeRow, healed: &Healed, node: NodeId) -> Links
    requires healed { IsHealedAt healed.now first.now second.now node }
    ensures left { result.left ≡ if healed.now.way then follows_on first.now second.now node healed.now.id else follows_back first.now second.now node healed.now.id }
    ensures right { result.right ≡ if healed.now.way then follows_back first.now second.now node healed.now.id else follows_on first.now second.now node healed.now.id }
{
    let on = follows_on(healed, first, second, node);
    let back = follows_back(healed, first, second, node);
    if healed.way {
        Links {
            left: on,
            right: back,
        }
    } else {
        Links {
            left: back,
            right: on,
        }
    }
}

/// The write by which the joined edge comes.
fn joined_write(
    first: &EdgeRow,
    second: &EdgeRow,
    healed: &Healed,
    node: NodeId,
    line: Line,
) -> RowWrite
    requires healed { IsHealedAt healed.now first.now second.now node }
    requires line { line ≡ (joined_edge node (drawn_edge first.now) (drawn_edge second.now) healed.now.id).geom }
    ensures { result ≡ joined_write (drawn_edge first.now) (drawn_edge second.now) node healed.now.id
        (follows_on first.now second.now node healed.now.id) (follows_back first.now second.now node healed.now.id) }
{
    let Ends { start, end } = joined_ends(first, second, node);
    let Links { left, right } = links_of(first, second, healed, node);
    RowWrite::AddEdge {
        edge: RowId::Old(healed.id.0),
        start: RowId::Old(start.0),
        end: RowId::Old(end.0),
        next_left: row_dart(&left),
        next_right: row_dart(&right),
        left: RowId::Old(first.left_face.0),
        right: RowId::Old(first.right_face.0),
        geom: line,
    }
}

/// Puts the writes behind others by which both edges and the node go.
fn push_gone(
    writes: &mut Writes,
    first: &EdgeRow,
    second: &EdgeRow,
    node: NodeId,
) -> Result<(), Memory>
    ensures { OnOk result (writes.new ≡ writes.old ++ both_go (drawn_edge first.now) (drawn_edge second.now) node) }
{
    writes.push(RowWrite::DropEdge {
        edge: RowId::Old(first.edge_id.0),
    })?;
    writes.push(RowWrite::DropEdge {
        edge: RowId::Old(second.edge_id.0),
    })?;
    writes.push(RowWrite::DropNode {
        node: RowId::Old(node.0),
    })
}

/// The row writes by which two edges go, and a new one comes in their place: the joined edge, the links
/// of other edges, and then both edges and the node.
fn heal_writes(
    alloc: Global,
    tables: &Tables,
    first: &EdgeRow,
    second: &EdgeRow,
    healed: &Healed,
    node: NodeId,
) -> Result<Writes, Memory>
    requires healed { IsHealedAt healed.now first.now second.now node }
    requires meeting { AreMeeting (drawn_edge first.now) (drawn_edge second.now) node }
    ensures { IfOk result (λ ws. ws ≡ new_heal_rows tables.now.rows.edges first.now second.now node healed.now.id) }
{
    let line = joined_line(alloc, first, second, node)?;
    let mut writes = Writes::new(alloc);
    writes.push(joined_write(first, second, healed, node, line))?;
    relink_rows(&mut writes, healed, tables.edges())?;
    push_gone(&mut writes, first, second, node)?;
    Ok(writes)
}

/// The features that listed the edge list the joined one.
fn follow_edge<L: Ledger>(
    alloc: Global,
    draft: &mut Draft,
    edge: EdgeId,
    joined: EdgeId,
    steps: &mut Steps<L>,
) -> Result<(), Memory>
    requires { KnowsRows draft.old.rows }
    ensures rows { OnOk result (draft.new.rows ≡ listed_anew draft.old.rows (edge ∷ []) joined) }
    ensures knows { OnOk result (KnowsRows draft.new.rows) }
    ensures drafted { (S : Drawing) → IsDraftOf S draft.old → OnOk result (IsDraftOf S draft.new) }
{
    let features = listing_of(alloc, draft.tables(), Element::Edge(edge), steps)?;
    let writes = follow_merge(alloc, &features, Element::Edge(edge), joined.0)?;
    draft.write_all(alloc, writes, steps)
}

/// The features that listed the two edges list the joined one, once.
fn follow_both<L: Ledger>(
    alloc: Global,
    draft: &mut Draft,
    healed: &Healed,
    steps: &mut Steps<L>,
) -> Result<(), Memory>
    requires { KnowsRows draft.old.rows }
    ensures rows { OnOk result (draft.new.rows ≡ listed_anew draft.old.rows (healed.now.first ∷ healed.now.second ∷ []) healed.now.id) }
    ensures drafted { (S : Drawing) → IsDraftOf S draft.old → OnOk result (IsDraftOf S draft.new) }
{
    follow_edge(alloc, draft, healed.first, healed.id, steps)?;
    follow_edge(alloc, draft, healed.second, healed.id, steps)
}

/// An edge and a node, as a reply names them.
fn edge_and_node(edge: EdgeId, node: NodeId) -> Ids
    ensures { result ≡ Element.Edge edge ∷ Element.Node node ∷ [] }
{
    let mut ids = Ids::new();
    ids.push(Element::Edge(edge));
    ids.push(Element::Node(node));
    ids
}

/// The two edges, and the edge of the next id that is to come in their place.
fn healed_anew(tables: &Tables, first: &EdgeRow, second: &EdgeRow, node: NodeId) -> Healed
    ensures healed { IsHealedAt result first.now second.now node }
    ensures id { result.id ≡ tables.now.rows.next_ids.edge }
{
    let counters = tables.counters();
    Healed {
        first: first.edge_id,
        second: second.edge_id,
        id: EdgeId(counters.edge),
        way: ends_at(first, node),
    }
}

/// A draft in which both edges and the node have gone, and the joined edge has come. Features are still
/// as they were.
fn heal_new_draft<L: Ledger>(
    alloc: Global,
    tables: &Tables,
    first: &EdgeRow,
    second: &EdgeRow,
    healed: &Healed,
    node: NodeId,
    steps: &mut Steps<L>,
) -> Result<Draft, Memory>
    requires ready { IsReady (drawn tables.now.rows) }
    requires ringed { IsRinged (drawn tables.now.rows) }
    requires stands { tables.now.rows ≡ tables_of (drawn tables.now.rows) }
    requires joint { IsJoint (drawn tables.now.rows) first.now second.now node }
    requires healed { IsHealedAt healed.now first.now second.now node }
    requires id { healed.now.id ≡ tables.now.rows.next_ids.edge }
    ensures draft { IfOk result (λ d. IsDraftOf (drawn tables.now.rows) d) }
    ensures rows { IfOk result (λ d. d.rows ≡ rows_boxed_as (drawn tables.now.rows) (new_heal_in (drawn tables.now.rows) (drawn_edge first.now) (drawn_edge second.now) node)) }
{
    let writes = heal_writes(alloc, tables, first, second, healed, node)?;
    let mut draft = Draft::of(alloc, tables)?;
    draft.write_all(alloc, writes, steps)?;
    Ok(draft)
}

/// The draft of two edges that are healed at a node into a new one with the next id, as ST_NewEdgeHeal of
/// SQL/MM says. The features that listed them list the new edge. The only error is want of memory.
pub fn heal_new<L: Ledger>(
    alloc: Global,
    tables: &Tables,
    first: &EdgeRow,
    second: &EdgeRow,
    node: NodeId,
    steps: &mut Steps<L>,
) -> Result<Tried, Memory>
    requires ready { IsReady (drawn tables.now.rows) }
    requires ringed { IsRinged (drawn tables.now.rows) }
    requires stands { tables.now.rows ≡ tables_of (drawn tables.now.rows) }
    requires joint { IsJoint (drawn tables.now.rows) first.now second.now node }
    ensures { IfOk result (λ d. IsTried (drawn tables.now.rows)
        (heal_new_done (drawn tables.now.rows) (drawn_edge first.now) (drawn_edge second.now) node) d) }
{
    let healed = healed_anew(tables, first, second, node);
    let mut draft = heal_new_draft(alloc, tables, first, second, &healed, node, steps)?;
    follow_both(alloc, &mut draft, &healed, steps)?;
    let ids = edge_and_node(healed.id, node);
    Ok(Tried { draft, ids })
}
