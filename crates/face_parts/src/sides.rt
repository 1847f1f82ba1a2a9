// The row writes of sides and of containing faces.
ghost use Rattle.std.specs.Prelude.{◌≡◌, ◌≤◌, ◌+◌, ◌++◌, length, map, OnOk};
ghost use Rattle.drawing.specs.Places.{rows_of};
ghost use Rattle.face_rings.specs.Rings.{darts_in};
ghost use Rattle.face_parts.specs.Divided.{part_of_point, part_of_ring};
ghost use Rattle.face_parts.specs.Sides.{node_write, node_writes, ring_writes, set_side, lies_in, set_containing, side_writes};

use crate::cut::Cut;
use crate::parts::{FaceParts, part_of_point, part_of_ring};
use std::sync::ledger::Ledger;
use topo_base::{Dart, FaceId, Hand, Memory, NodeRow, RowId, RowWrite, Steps};
use topo_tables::{Tables, Writes};

/// The write that makes the side on the left of a dart the part.
fn set_side(part: FaceId, dart: &Dart) -> RowWrite
    ensures { result ≡ set_side part dart.now }
{
    RowWrite::SetSide {
        edge: RowId::Old(dart.edge.0),
        hand: if dart.forward {
            Hand::Left
        } else {
            Hand::Right
        },
        face: RowId::Old(part.0),
    }
}

/// Puts the write of each dart of a ring behind the others.
fn push_darts(writes: &mut Writes, part: FaceId, ring: &[Dart]) -> Result<(), Memory>
    ensures { OnOk result (writes.new ≡ writes.old ++ map (set_side part) ring.now) }
{
    for dart in ring {
        writes.push(set_side(part, dart))?;
    }
    Ok(())
}

/// Puts the writes of a ring behind the others, if it comes into another face.
fn push_ring<L: Ledger>(
    writes: &mut Writes,
    tables: &Tables,
    parts: &FaceParts,
    cut: &Cut,
    ring: &[Dart],
    steps: &mut Steps<L>,
) -> Result<(), Memory>
    ensures ok { OnOk result (writes.new ≡ writes.old ++ ring_writes (part_of_ring parts.now cut.now tables.now.rows.edges) parts.now.face ring.now) }
    ensures counted { steps.new ≤ steps.old + 1 }
{
    let part = part_of_ring(tables, parts, cut, ring, steps);
    if part.0 == parts.face.0 {
        return Ok(());
    }
    push_darts(writes, part, ring)
}

/// Puts the writes of some rings behind the others. Takes at most one step a ring.
pub(crate) fn push_rings<L: Ledger>(
    writes: &mut Writes,
    tables: &Tables,
    parts: &FaceParts,
    cut: &Cut,
    rings: &[Vec<Dart>],
    steps: &mut Steps<L>,
) -> Result<(), Memory>
    ensures ok { OnOk result (writes.new ≡ writes.old ++ side_writes (part_of_ring parts.now cut.now tables.now.rows.edges) parts.now.face (map darts_in rings.now)) }
    ensures counted { steps.new ≤ steps.old + length rings.now }
{
    for ring in rings {
        push_ring(writes, tables, parts, cut, ring, steps)?;
    }
    Ok(())
}

/// The write that brings a node into the part.
fn set_containing(part: FaceId, node: &NodeRow) -> RowWrite
    ensures { result ≡ set_containing part node.now }
{
    RowWrite::SetContaining {
        node: RowId::Old(node.node_id.0),
        face: Some(RowId::Old(part.0)),
    }
}

/// Whether the node lies in the face.
fn lies_in(node: &NodeRow, face: FaceId) -> bool
    ensures { result ≡ lies_in face node.now }
{
    match node.containing_face {
        None => false,
        Some(other) => other.0 == face.0,
    }
}

/// Puts the write of a node behind the others, if it lies in the divided face and comes into another.
fn push_node(
    writes: &mut Writes,
    parts: &FaceParts,
    cut: &Cut,
    node: &NodeRow,
) -> Result<(), Memory>
    ensures { OnOk result (writes.new ≡ writes.old ++ node_write (part_of_point parts.now cut.now) parts.now.face node.now) }
{
    if !lies_in(node, parts.face) {
        return Ok(());
    }
    let part = part_of_point(parts, cut, node.geom);
    if part.0 == parts.face.0 {
        return Ok(());
    }
    writes.push(set_containing(part, node))
}

/// Puts the writes of the nodes at these places behind the others.
pub(crate) fn push_nodes(
    writes: &mut Writes,
    parts: &FaceParts,
    cut: &Cut,
    slots: &[Option<NodeRow>],
) -> Result<(), Memory>
    ensures { OnOk result (writes.new ≡ writes.old ++ node_writes (part_of_point parts.now cut.now) parts.now.face (rows_of slots.now)) }
{
    for slot in slots {
        if let Some(node) = slot {
            push_node(writes, parts, cut, node)?;
        }
    }
    Ok(())
}
