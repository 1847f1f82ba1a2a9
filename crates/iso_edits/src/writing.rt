// The row writes of the edits of isolated nodes and edges.
ghost use Rattle.std.specs.Prelude.{◌≡◌, ◌∷◌, ◌++◌, [], true, false, Some, None, IfOk, IfErr, OnOk};
ghost use Rattle.face_boxes.specs.Bounds.{box_write, other_write};

use read_set::{EditEnd, Edited, one_id};
use std::alloc::Global;
use topo_base::{Box4, EdgeId, Element, FaceId, Line, Memory, NodeId, RowDart, RowId, RowWrite};
use topo_tables::Writes;

/// A face, and the box that it has after an edit.
#[derive(Clone, Copy, Debug, PartialEq, Eq)]
pub struct Bounded {
    pub face: FaceId,
    pub bounds: Option<Box4>,
}

/// A write that sets a node's containing face.
fn set_containing(node: NodeId, face: Option<RowId>) -> RowWrite
    ensures { result ≡ RowWrite.SetContaining (RowId.Old node) face }
{
    RowWrite::SetContaining {
        node: RowId::Old(node.0),
        face,
    }
}

/// The write of an edge in a face whose links are its own two half-edges.
fn add_edge(
    alloc: Global,
    edge: u32,
    start: NodeId,
    end: NodeId,
    face: FaceId,
    line: &Line,
) -> Result<RowWrite, Memory>
    ensures { IfOk result (λ w. w ≡ RowWrite.AddEdge (RowId.Old edge) (RowId.Old start) (RowId.Old end)
        (record { edge = RowId.Old edge; forward = false }) (record { edge = RowId.Old edge; forward = true })
        (RowId.Old face) (RowId.Old face) line.now) }
{
    Ok(RowWrite::AddEdge {
        edge: RowId::Old(edge),
        start: RowId::Old(start.0),
        end: RowId::Old(end.0),
        next_left: RowDart {
            edge: RowId::Old(edge),
            forward: false,
        },
        next_right: RowDart {
            edge: RowId::Old(edge),
            forward: true,
        },
        left: RowId::Old(face.0),
        right: RowId::Old(face.0),
        geom: line.copy(alloc)?,
    })
}

/// Writes of an edge, and then of the containing faces of its end and its start.
fn edge_writes(
    alloc: Global,
    one: RowWrite,
    start: NodeId,
    end: NodeId,
    face: Option<RowId>,
) -> Result<Writes, Memory>
    ensures { IfOk result (λ w. w ≡ one ∷ RowWrite.SetContaining (RowId.Old end) face ∷ RowWrite.SetContaining (RowId.Old start) face ∷ []) }
{
    let mut writes = Writes::new(alloc);
    writes.push(one)?;
    writes.push(set_containing(end, face))?;
    writes.push(set_containing(start, face))?;
    Ok(writes)
}

/// One write more, of a face's box, unless the face is face 0, which has none.
fn push_box(writes: &mut Writes, one: &Bounded) -> Result<(), Memory>
    ensures { OnOk result (writes.new ≡ writes.old ++ box_write one.now.face one.now.bounds) }
{
    if one.face.0 != 0 {
        writes.push(RowWrite::SetBox {
            face: RowId::Old(one.face.0),
            mbr: one.bounds,
        })?;
    }
    Ok(())
}

/// The same of the right face, where it is another than the left one.
fn push_other_box(writes: &mut Writes, left: &Bounded, right: &Bounded) -> Result<(), Memory>
    ensures { OnOk result (writes.new ≡ writes.old ++ other_write left.now.face right.now.face right.now.bounds) }
{
    if left.face.0 != right.face.0 {
        push_box(writes, right)?;
    }
    Ok(())
}

/// The writes of an edge that comes, in a face that then has this box, between two nodes that are
/// isolated no more.
pub fn coming_edge(
    alloc: Global,
    edge: u32,
    start: NodeId,
    end: NodeId,
    line: &Line,
    beside: &Bounded,
) -> Result<Edited, EditEnd>
    ensures writes { IfOk result (λ d. d.writes ≡ (RowWrite.AddEdge (RowId.Old edge) (RowId.Old start) (RowId.Old end)
        (record { edge = RowId.Old edge; forward = false }) (record { edge = RowId.Old edge; forward = true })
        (RowId.Old beside.now.face) (RowId.Old beside.now.face) line.now
        ∷ RowWrite.SetContaining (RowId.Old end) None ∷ RowWrite.SetContaining (RowId.Old start) None ∷ []) ++ box_write beside.now.face beside.now.bounds) }
    ensures ids { IfOk result (λ d. d.ids ≡ Element.Edge edge ∷ []) }
    ensures err { IfErr result (λ end. end ≡ EditEnd.Memory) }
{
    let one = add_edge(alloc, edge, start, end, beside.face, line)?;
    let mut writes = edge_writes(alloc, one, start, end, None)?;
    push_box(&mut writes, beside)?;
    Ok(Edited {
        writes,
        ids: one_id(Element::Edge(EdgeId(edge))),
    })
}

/// The writes of an edge that goes, and leaves its two nodes isolated in its left face, and the faces
/// beside it with these boxes.
pub fn going_edge(
    alloc: Global,
    edge: EdgeId,
    start: NodeId,
    end: NodeId,
    left: &Bounded,
    right: &Bounded,
) -> Result<Edited, EditEnd>
    ensures writes { IfOk result (λ d. d.writes ≡ (RowWrite.DropEdge (RowId.Old edge)
        ∷ RowWrite.SetContaining (RowId.Old end) (Some (RowId.Old left.now.face)) ∷ RowWrite.SetContaining (RowId.Old start) (Some (RowId.Old left.now.face)) ∷ [])
        ++ (box_write left.now.face left.now.bounds ++ other_write left.now.face right.now.face right.now.bounds)) }
    ensures ids { IfOk result (λ d. d.ids ≡ Element.Edge edge ∷ []) }
    ensures err { IfErr result (λ end. end ≡ EditEnd.Memory) }
{
    let one = RowWrite::DropEdge {
        edge: RowId::Old(edge.0),
    };
    let containing = Some(RowId::Old(left.face.0));
    let mut writes = edge_writes(alloc, one, start, end, containing)?;
    push_box(&mut writes, left)?;
    push_other_box(&mut writes, left, right)?;
    Ok(Edited {
        writes,
        ids: one_id(Element::Edge(edge)),
    })
}

/// One write, whose reply names one element.
pub fn edited_by(alloc: Global, one: RowWrite, element: Element) -> Result<Edited, EditEnd>
    ensures writes { IfOk result (λ d. d.writes ≡ one ∷ []) }
    ensures ids { IfOk result (λ d. d.ids ≡ element ∷ []) }
    ensures err { IfErr result (λ end. end ≡ EditEnd.Memory) }
{
    Ok(Edited::by_one(alloc, one, element)?)
}
