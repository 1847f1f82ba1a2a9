// An edge that goes, whose faces and nodes are still as they were.
ghost use Rattle.std.specs.Prelude.{◌≡◌, ◌∷◌, ◌++◌, ◌==◌, [], IfOk, OnOk, Contains, if◌then◌else◌};
ghost use Rattle.drawing.specs.PlainInOrder.{IsPlainInOrder};
ghost use Rattle.drawing.specs.Tables.{drawn, tables_of};
ghost use Rattle.edge_links.specs.LinksLaw.{HasDirections};
ghost use Rattle.edge_links.specs.UnlinksLaw.{dropped_rows, unlinks_at, unlinks_of};
ghost use Rattle.read_set.specs.Drafted.{IsDraftOf};

use edge_links::{star_about, unlink_writes};
use read_set::Draft;
use std::alloc::Global;
use std::sync::ledger::Ledger;
use topo_base::{EdgeId, EdgeRow, Memory, NodeId, RowId, RowWrite, Steps};
use topo_tables::{Tables, Writes};

/// The writes of the links about a node at which an edge that goes begins or ends.
fn unlinks_at(alloc: Global, tables: &Tables, edge: EdgeId, node: NodeId) -> Result<Writes, Memory>
    requires { IsPlainInOrder (drawn tables.now.rows) }
    ensures links { IfOk result (λ ws. ws ≡ unlinks_at (drawn tables.now.rows) edge node) }
    ensures some { IfOk result (λ _. HasDirections (drawn tables.now.rows) node) }
{
    let star = star_about(alloc, tables, node)?;
    unlink_writes(alloc, &star, edge)
}

/// Those at its end, where it isn't closed: then they are those at its start.
fn unlinks_at_end(
    alloc: Global,
    tables: &Tables,
    edge: EdgeId,
    start: NodeId,
    end: NodeId,
) -> Result<Writes, Memory>
    requires { IsPlainInOrder (drawn tables.now.rows) }
    ensures links { IfOk result (λ ws. ws ≡ (if start == end then [] else unlinks_at (drawn tables.now.rows) edge end)) }
    ensures some { HasDirections (drawn tables.now.rows) start → IfOk result (λ _. HasDirections (drawn tables.now.rows) end) }
{
    if start.0 == end.0 {
        return Ok(Writes::new(alloc));
    }
    unlinks_at(alloc, tables, edge, end)
}

/// The row writes of an edge that goes: its row, and then the links at its nodes.
fn drop_writes(
    alloc: Global,
    tables: &Tables,
    edge: EdgeId,
    start: NodeId,
    end: NodeId,
) -> Result<Writes, Memory>
    requires { IsPlainInOrder (drawn tables.now.rows) }
    ensures writes { IfOk result (λ ws. ws ≡ RowWrite.DropEdge (RowId.Old edge) ∷ unlinks_of (drawn tables.now.rows) edge start end) }
    ensures start { IfOk result (λ _. HasDirections (drawn tables.now.rows) start) }
    ensures end { IfOk result (λ _. HasDirections (drawn tables.now.rows) end) }
{
    let at_start = unlinks_at(alloc, tables, edge, start)?;
    let at_end = unlinks_at_end(alloc, tables, edge, start, end)?;
    let mut writes = Writes::new(alloc);
    writes.push(RowWrite::DropEdge {
        edge: RowId::Old(edge.0),
    })?;
    writes.append(at_start)?;
    writes.append(at_end)?;
    Ok(writes)
}

/// A draft from which the edge has gone. All links are right. The faces on its sides, the nodes at its
/// ends and the boxes are still as they were.
pub fn drop_from_draft<L: Ledger>(
    alloc: Global,
    tables: &Tables,
    edge: &EdgeRow,
    steps: &mut Steps<L>,
) -> Result<Draft, Memory>
    requires plain { IsPlainInOrder (drawn tables.now.rows) }
    requires stands { tables.now.rows ≡ tables_of (drawn tables.now.rows) }
    requires there { Contains tables.now.rows.edges edge.now }
    ensures draft { IfOk result (λ d. IsDraftOf (drawn tables.now.rows) d) }
    ensures rows { IfOk result (λ d. d.rows ≡ dropped_rows (drawn tables.now.rows) edge.now.edge_id) }
{
    let writes = drop_writes(alloc, tables, edge.edge_id, edge.start_node, edge.end_node)?;
    let mut draft = Draft::of(alloc, tables)?;
    draft.write_all(alloc, writes, steps)?;
    Ok(draft)
}
