// An edge that comes into a face which it doesn't divide yet.
ghost use Rattle.std.specs.Prelude.{◌≡◌, ◌∷◌, ◌++◌, ℕ, [], false, true, None, IfOk, OnOk, Any, IsTrue};
ghost use Rattle.topo_base.specs.Darts.{same_dart};
ghost use Rattle.topo_base.specs.declared.rows.NodeRow.{NodeRow as NodeValue};
ghost use Rattle.drawing.specs.Drawing.{has_face, has_node};
ghost use Rattle.drawing.specs.IsoEdits.{with_edge};
ghost use Rattle.plane.specs.LinePoints.{has_proper_segments};
ghost use Rattle.drawing.specs.Plain.{IsPlain};
ghost use Rattle.drawing.specs.PlainInOrder.{IsPlainInOrder};
ghost use Rattle.drawing.specs.Tables.{drawn, tables_of};
ghost use Rattle.edge_links.specs.LinksLaw.{HasDirections, IsComing, rays_at};
ghost use Rattle.read_set.specs.Drafted.{IsDraftOf};
ghost use Rattle.face_split.specs.Added.{added_rows, added_writes, from_node, links_at, own_dart};
ghost use Rattle.read_set.specs.Ready.{IsReady};
ghost use Rattle.ring_laws.specs.Ringed.{IsRinged};

use edge_links::{Star, insert_edge, link_writes, star_about};
use read_set::Draft;
use std::alloc::Global;
use std::sync::ledger::Ledger;
use topo_base::{
    Dart, EdgeId, FaceId, Line, Memory, NodeId, NodeRow, RowDart, RowId, RowWrite, Steps,
};
use topo_tables::{Tables, Writes};

/// An edge that comes: its id, the nodes at its ends, and the face in which it lies.
#[derive(Clone, Copy)]
pub struct Coming {
    pub edge: EdgeId,
    pub start: NodeId,
    pub end: NodeId,
    pub face: FaceId,
}

/// The node from which a dart of the edge leaves.
fn from_node(coming: &Coming, forward: bool) -> NodeId
    ensures { result ≡ from_node forward coming.now.start coming.now.end }
{
    if forward { coming.start } else { coming.end }
}

/// The star of the node from which a dart of the edge leaves, with the edge.
fn star_with(
    alloc: Global,
    tables: &Tables,
    coming: &Coming,
    line: &Line,
    forward: bool,
) -> Result<Star, Memory>
    requires plain { IsPlainInOrder (drawn tables.now.rows) }
    requires proper { IsTrue (has_proper_segments line.now) }
    ensures star { (a b : NodeValue) (f : ℕ) → IsComing (drawn tables.now.rows) a b line.now f coming.now.edge coming.now.start coming.now.end
        → IfOk result (λ s. s ≡ rays_at (with_edge (drawn tables.now.rows) a b line.now f) (from_node forward coming.now.start coming.now.end)) }
    ensures some { IfOk result (λ s. HasDirections (drawn tables.now.rows) (from_node forward coming.now.start coming.now.end)) }
    ensures there { IfOk result (λ s. Any (λ d. IsTrue (same_dart (record { edge = coming.now.edge; forward = forward }) d)) s.darts) }
{
    let node = from_node(coming, forward);
    let mut star = star_about(alloc, tables, node)?;
    insert_edge(&mut star, node, coming.edge, coming.start, coming.end, line)?;
    Ok(star)
}

/// The writes of the links round a dart of the edge.
fn links_at(
    alloc: Global,
    tables: &Tables,
    coming: &Coming,
    line: &Line,
    forward: bool,
) -> Result<Writes, Memory>
    requires plain { IsPlainInOrder (drawn tables.now.rows) }
    requires proper { IsTrue (has_proper_segments line.now) }
    ensures links { (a b : NodeValue) (f : ℕ) → IsComing (drawn tables.now.rows) a b line.now f coming.now.edge coming.now.start coming.now.end
        → IfOk result (λ ws. ws ≡ links_at (with_edge (drawn tables.now.rows) a b line.now f) coming.now.edge forward coming.now.start coming.now.end) }
    ensures some { IfOk result (λ _. HasDirections (drawn tables.now.rows) (from_node forward coming.now.start coming.now.end)) }
{
    let star = star_with(alloc, tables, coming, line, forward)?;
    let edge = coming.edge;
    link_writes(alloc, &star, Dart { edge, forward })
}

/// The write of the edge's row, whose links are its own darts, until they are set.
fn row_write(alloc: Global, coming: &Coming, line: &Line) -> Result<RowWrite, Memory>
    ensures { IfOk result (λ w. w ≡ RowWrite.AddEdge (RowId.Old coming.now.edge) (RowId.Old coming.now.start) (RowId.Old coming.now.end)
        (own_dart coming.now.edge false) (own_dart coming.now.edge true) (RowId.Old coming.now.face) (RowId.Old coming.now.face) line.now) }
{
    let edge = RowId::Old(coming.edge.0);
    Ok(RowWrite::AddEdge {
        edge,
        start: RowId::Old(coming.start.0),
        end: RowId::Old(coming.end.0),
        next_left: RowDart {
            edge,
            forward: false,
        },
        next_right: RowDart {
            edge,
            forward: true,
        },
        left: RowId::Old(coming.face.0),
        right: RowId::Old(coming.face.0),
        geom: line.copy(alloc)?,
    })
}

/// The write by which a node is isolated no more.
fn not_isolated(node: NodeId) -> RowWrite
    ensures { result ≡ RowWrite.SetContaining (RowId.Old node) None }
{
    RowWrite::SetContaining {
        node: RowId::Old(node.0),
        face: None,
    }
}

/// The row writes of the edge: its row, the links at both of its nodes, and the nodes.
fn added_writes(
    alloc: Global,
    tables: &Tables,
    coming: &Coming,
    line: &Line,
) -> Result<Writes, Memory>
    requires plain { IsPlainInOrder (drawn tables.now.rows) }
    requires proper { IsTrue (has_proper_segments line.now) }
    ensures writes { (a b : NodeValue) → IsComing (drawn tables.now.rows) a b line.now coming.now.face coming.now.edge coming.now.start coming.now.end
        → IfOk result (λ ws. ws ≡ added_writes (drawn tables.now.rows) a b line.now coming.now.face) }
    ensures start { IfOk result (λ _. HasDirections (drawn tables.now.rows) coming.now.start) }
    ensures end { IfOk result (λ _. HasDirections (drawn tables.now.rows) coming.now.end) }
{
    let at_start = links_at(alloc, tables, coming, line, true)?;
    let at_end = links_at(alloc, tables, coming, line, false)?;
    let mut writes = Writes::new(alloc);
    writes.push(row_write(alloc, coming, line)?)?;
    writes.append(at_start)?;
    writes.append(at_end)?;
    writes.push(not_isolated(coming.end))?;
    writes.push(not_isolated(coming.start))?;
    Ok(writes)
}

/// A draft with an edge of this line more, which has the face on both sides and doesn't divide it yet.
/// All links are right. The face's box is still as it was.
pub fn add_to_draft<L: Ledger>(
    alloc: Global,
    tables: &Tables,
    start: &NodeRow,
    end: &NodeRow,
    line: &Line,
    face: FaceId,
    steps: &mut Steps<L>,
) -> Result<Draft, Memory>
    requires ready { IsReady (drawn tables.now.rows) }
    requires ringed { IsRinged (drawn tables.now.rows) }
    requires stands { tables.now.rows ≡ tables_of (drawn tables.now.rows) }
    requires start { IsTrue (has_node (drawn tables.now.rows) start.now.node_id) }
    requires end { IsTrue (has_node (drawn tables.now.rows) end.now.node_id) }
    requires face { IsTrue (has_face (drawn tables.now.rows) face) }
    requires proper { IsTrue (has_proper_segments line.now) }
    requires plain { IsPlain (with_edge (drawn tables.now.rows) start.now end.now line.now face) }
    ensures draft { IfOk result (λ d. IsDraftOf (drawn tables.now.rows) d) }
    ensures rows { IfOk result (λ d. d.rows ≡ added_rows (drawn tables.now.rows) start.now end.now line.now face) }
{
    let _ = line.vertices();
    let coming = Coming {
        edge: EdgeId(tables.counters().edge),
        start: start.node_id,
        end: end.node_id,
        face,
    };
    let writes = added_writes(alloc, tables, &coming, line)?;
    let mut draft = Draft::of(alloc, tables)?;
    draft.write_all(alloc, writes, steps)?;
    Ok(draft)
}
