//! The face of a line at a node from which it leaves.

ghost use Rattle.std.specs.Prelude.{◌≡◌, ◌==◌, map, None, IfOk, IsTrue};
ghost use Rattle.std.specs.Borrow.{Bor};
ghost use Rattle.topo_base.specs.declared.rows.EdgeRow.{EdgeRow as EdgeValue};
ghost use Rattle.std.specs.List.{list_all};
ghost use Rattle.drawing.specs.AddEdge.{face_at_start as start_face};
ghost use Rattle.drawing.specs.Faces.{wedge_face};
ghost use Rattle.drawing.specs.HalfEdge.{backward_of, forward_of};
ghost use Rattle.plane.specs.LinePoints.{has_proper_segments};
ghost use Rattle.drawing.specs.Plain.{IsPlain};
ghost use Rattle.drawing.specs.Tables.{drawn, drawn_edge};
ghost use Rattle.edge_links.specs.Rays.{has_proper_line};
ghost use Rattle.face_split.specs.Wedges.{face_of_last, farther as farther_wedge, last_from, last_with, only_if, wedge_of, wedges_at, wedges_in};

use drawing_queries::edges_at;
use edge_links::{direction_at_end, direction_at_start};
use grid_angle::{Dir, clockwise};
use std::alloc::Global;
use topo_base::{EdgeRow, FaceId, Line, Memory, NodeId, NodeRow};
use topo_tables::Tables;

/// A half-edge that leaves a node: its direction, and the face that follows it clockwise.
#[derive(Clone, Copy)]
struct Wedge {
    dir: Dir,
    face: FaceId,
}

/// The one of two that is last, clockwise from a direction; of equals the first.
fn farther(way: Dir, first: Wedge, next: Wedge) -> Wedge
    ensures { result ≡ farther_wedge way first next }
{
    if clockwise(way, first.dir, next.dir).is_lt() {
        next
    } else {
        first
    }
}

/// The last of those so far and one more.
fn last_with(way: Dir, last: Option<Wedge>, next: Wedge) -> Option<Wedge>
    ensures { result ≡ last_with way last next }
{
    match last {
        None => Some(next),
        Some(first) => Some(farther(way, first, next)),
    }
}

/// The last, with the edge forward if that leaves the node.
fn with_forward(way: Dir, last: Option<Wedge>, node: NodeId, row: &EdgeRow) -> Option<Wedge>
    requires { IsTrue (has_proper_segments row.now.geom) }
    ensures { result ≡ last_from way last (only_if (row.now.start_node == node) (wedge_of (forward_of (drawn_edge row.now)))) }
{
    if row.start_node.0 != node.0 {
        return last;
    }
    let dir = direction_at_start(&row.geom);
    let face = row.right_face;
    last_with(way, last, Wedge { dir, face })
}

/// The last, with the edge backward if that leaves the node.
fn with_backward(way: Dir, last: Option<Wedge>, node: NodeId, row: &EdgeRow) -> Option<Wedge>
    requires { IsTrue (has_proper_segments row.now.geom) }
    ensures { result ≡ last_from way last (only_if (row.now.end_node == node) (wedge_of (backward_of (drawn_edge row.now)))) }
{
    if row.end_node.0 != node.0 {
        return last;
    }
    let dir = direction_at_end(&row.geom);
    let face = row.left_face;
    last_with(way, last, Wedge { dir, face })
}

/// The last, with an edge.
fn with_row(way: Dir, last: Option<Wedge>, node: NodeId, row: &EdgeRow) -> Option<Wedge>
    requires { IsTrue (has_proper_line row.now) }
    ensures { result ≡ last_from way last (wedges_in node row.now) }
{
    with_backward(way, with_forward(way, last, node, row), node, row)
}

/// The last half-edge that leaves the node, clockwise from a direction.
fn last_about(way: Dir, node: NodeId, edges: &[&EdgeRow]) -> Option<Wedge>
    requires { IsTrue (list_all has_proper_line (map (λ (r : Bor EdgeValue). r.now) edges.now)) }
    ensures { result ≡ last_from way None (wedges_at node (map (λ (r : Bor EdgeValue). r.now) edges.now)) }
{
    let mut last = None;
    for row in edges {
        last = with_row(way, last, node, row);
    }
    last
}

/// The face that follows the last half-edge before a direction, clockwise, or 0 where the node has none.
pub(crate) fn face_among(way: Dir, node: NodeId, edges: &[&EdgeRow]) -> FaceId
    requires { IsTrue (list_all has_proper_line (map (λ (r : Bor EdgeValue). r.now) edges.now)) }
    ensures { result ≡ face_of_last (last_from way None (wedges_at node (map (λ (r : Bor EdgeValue). r.now) edges.now))) }
{
    match last_about(way, node, edges) {
        None => FaceId(0),
        Some(last) => last.face,
    }
}

/// The face of a line that leaves the node in a direction: the node's containing face, or else the one
/// that follows the last half-edge before the direction, clockwise.
pub fn face_at_node(
    alloc: Global,
    tables: &Tables,
    node: &NodeRow,
    way: Dir,
) -> Result<FaceId, Memory>
    requires { IsPlain (drawn tables.now.rows) }
    ensures { IfOk result (λ f. f ≡ wedge_face (drawn tables.now.rows) node.now way) }
{
    if let Some(face) = node.containing_face {
        return Ok(face);
    }
    let edges = edges_at(alloc, tables, node.node_id)?;
    Ok(face_among(way, node.node_id, edges.rows()))
}

/// The face of a line at its start, from which it leaves.
pub fn face_at_start(
    alloc: Global,
    tables: &Tables,
    start: &NodeRow,
    line: &Line,
) -> Result<FaceId, Memory>
    requires plain { IsPlain (drawn tables.now.rows) }
    requires proper { IsTrue (has_proper_segments line.now) }
    ensures { IfOk result (λ f. f ≡ start_face (drawn tables.now.rows) start.now line.now) }
{
    face_at_node(alloc, tables, start, direction_at_start(line))
}
