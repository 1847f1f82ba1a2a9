// The row writes by which sides and containing faces follow where faces become one.
ghost use Rattle.std.specs.Prelude.{◌≡◌, ◌≤◌, ◌+◌, ◌*◌, ◌++◌, flat_map, length, IfOk, IsTrue, OnOk};
ghost use Rattle.topo_base.specs.declared.rows.Counters.{Counters};
ghost use Rattle.drawing.specs.Drawing.{Drawing, Edge};
ghost use Rattle.drawing.specs.Places.{rows_of};
ghost use Rattle.drawing.specs.Relations.{is_among};
ghost use Rattle.drawing.specs.Tables.{Tables as TablesValue};
ghost use Rattle.drawing.specs.Writable.{CanWriteAll, has_face_row};
ghost use Rattle.drawing.specs.Writes.{all_written};
ghost use Rattle.face_merge.specs.MergedSides.{HasRest, IsLess, with_renamed};
ghost use Rattle.face_merge.specs.Sides.{comes_in, edge_write, lies_among, node_write, renamed_writes, set_containing, set_side, side_write};

use crate::removed::{Freed, Removed, freed_ends, is_freed};
use std::alloc::Global;
use std::sync::ledger::Ledger;
use topo_base::{EdgeId, EdgeRow, FaceId, Hand, Memory, NodeId, NodeRow, RowId, RowWrite, Steps};
use topo_tables::{Tables, Writes};

/// Whether the face is one of these.
fn is_among(face: FaceId, faces: &[FaceId]) -> bool
    ensures { result ≡ is_among face faces.now }
{
    for other in faces {
        if other.0 == face.0 {
            return true;
        }
    }
    false
}

/// The write that makes a side of an edge the face that is kept.
fn set_side(hand: Hand, kept: FaceId, edge: EdgeId) -> RowWrite
    ensures { result ≡ set_side hand kept edge }
{
    RowWrite::SetSide {
        edge: RowId::Old(edge.0),
        hand,
        face: RowId::Old(kept.0),
    }
}

/// Puts the write of a side behind the others, if the side is a face that goes.
fn push_side(
    writes: &mut Writes,
    hand: Hand,
    gone: &[FaceId],
    kept: FaceId,
    edge: EdgeId,
    face: FaceId,
) -> Result<(), Memory>
    ensures { OnOk result (writes.new ≡ writes.old ++ side_write hand gone.now kept edge face) }
{
    if !is_among(face, gone) {
        return Ok(());
    }
    writes.push(set_side(hand, kept, edge))
}

/// Puts the writes of an edge's sides behind the others.
fn push_edge(
    writes: &mut Writes,
    gone: &[FaceId],
    kept: FaceId,
    edge: &EdgeRow,
) -> Result<(), Memory>
    ensures { OnOk result (writes.new ≡ writes.old ++ edge_write gone.now kept edge.now) }
{
    push_side(writes, Hand::Left, gone, kept, edge.edge_id, edge.left_face)?;
    push_side(
        writes,
        Hand::Right,
        gone,
        kept,
        edge.edge_id,
        edge.right_face,
    )
}

/// Puts the writes of the edges at these places behind the others.
fn push_edges(
    writes: &mut Writes,
    gone: &[FaceId],
    kept: FaceId,
    slots: &[Option<EdgeRow>],
) -> Result<(), Memory>
    ensures { OnOk result (writes.new ≡ writes.old ++ flat_map (edge_write gone.now kept) (rows_of slots.now)) }
{
    for slot in slots {
        if let Some(edge) = slot {
            push_edge(writes, gone, kept, edge)?;
        }
    }
    Ok(())
}

/// The write that brings a node into the face that is kept.
fn set_containing(kept: FaceId, node: NodeId) -> RowWrite
    ensures { result ≡ set_containing kept node }
{
    RowWrite::SetContaining {
        node: RowId::Old(node.0),
        face: Some(RowId::Old(kept.0)),
    }
}

/// Whether the containing face is one of these.
fn lies_among(gone: &[FaceId], face: Option<FaceId>) -> bool
    ensures { result ≡ lies_among gone.now face }
{
    match face {
        None => false,
        Some(face) => is_among(face, gone),
    }
}

/// Whether the node comes into the face that is kept.
fn comes_in(freed: &Freed, gone: &[FaceId], node: &NodeRow) -> bool
    ensures { result ≡ comes_in freed.now gone.now node.now }
{
    is_freed(freed, node.node_id) || lies_among(gone, node.containing_face)
}

/// Puts the write of a node behind the others, if it comes into the face that is kept.
fn push_node(
    writes: &mut Writes,
    freed: &Freed,
    gone: &[FaceId],
    kept: FaceId,
    node: &NodeRow,
) -> Result<(), Memory>
    ensures { OnOk result (writes.new ≡ writes.old ++ node_write freed.now gone.now kept node.now) }
{
    if !comes_in(freed, gone, node) {
        return Ok(());
    }
    writes.push(set_containing(kept, node.node_id))
}

/// Puts the writes of the nodes at these places behind the others.
fn push_nodes(
    writes: &mut Writes,
    freed: &Freed,
    gone: &[FaceId],
    kept: FaceId,
    slots: &[Option<NodeRow>],
) -> Result<(), Memory>
    ensures { OnOk result (writes.new ≡ writes.old ++ flat_map (node_write freed.now gone.now kept) (rows_of slots.now)) }
{
    for slot in slots {
        if let Some(node) = slot {
            push_node(writes, freed, gone, kept, node)?;
        }
    }
    Ok(())
}

/// The writes of sides and of nodes. Takes at most two steps an edge.
fn writes_of<L: Ledger>(
    alloc: Global,
    tables: &Tables,
    edge: &Removed,
    gone: &[FaceId],
    kept: FaceId,
    steps: &mut Steps<L>,
) -> Result<Writes, Memory>
    ensures writes { IfOk result (λ ws. ws ≡ renamed_writes edge.now gone.now kept tables.now.rows) }
    ensures counted { steps.new ≤ steps.old + 2 * length tables.now.rows.edges }
{
    let mut writes = Writes::new(alloc);
    push_edges(&mut writes, gone, kept, tables.edges())?;
    let freed = freed_ends(tables, edge, steps);
    push_nodes(&mut writes, &freed, gone, kept, tables.nodes())?;
    Ok(writes)
}

/// The row writes by which sides and containing faces follow where an edge was removed and faces become
/// one: each side and each containing face that is a face that goes becomes the one that is kept, and so
/// does the containing face of each end of the edge that has no edge any more. The tables are those
/// without the edge. Takes at most two steps an edge.
pub fn renamed_writes<L: Ledger>(
    alloc: Global,
    tables: &Tables,
    edge: &Removed,
    gone: &[FaceId],
    kept: FaceId,
    steps: &mut Steps<L>,
) -> Result<Writes, Memory>
    ensures writes { IfOk result (λ ws. ws ≡ renamed_writes edge.now gone.now kept tables.now.rows) }
    ensures renamed { IfOk result (λ ws. (S : Drawing) (e : Edge) (n : Counters) (t : TablesValue) → IsLess S e edge.now tables.now.rows → HasRest S e t → all_written n t ws ≡ with_renamed t S e gone.now kept) }
    ensures can { IfOk result (λ ws. (S : Drawing) (e : Edge) (n : Counters) (t : TablesValue) → IsLess S e edge.now tables.now.rows → HasRest S e t
        → IsTrue (has_face_row t kept) → CanWriteAll n t ws) }
    ensures counted { steps.new ≤ steps.old + 2 * length tables.now.rows.edges }
{
    writes_of(alloc, tables, edge, gone, kept, steps)
}
