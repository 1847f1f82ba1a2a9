// Faces, nodes and edges that rows name and that aren't listed.
ghost use Rattle.std.specs.Prelude.{◌≡◌, ◌∷◌, ◌++◌, OnOk};
ghost use Rattle.drawing.specs.Tables.{universal_face};
ghost use Rattle.validate_topology.specs.References.{edges_without_face as without_face, edges_without_next as without_next, edges_without_node as without_node, lists_edge, lists_face, lists_node, missing_face, missing_ids, missing_link, missing_links, nodes_without_face as faces_missing, signed as signed_of};
ghost use Rattle.validate_topology.specs.declared.lines.ReportLine.TheVariants.{EdgeWithoutFace, EdgeWithoutNode};

use crate::lines::{Report, ReportLine};
use crate::table::Rows;
use topo_base::{Dart, EdgeId, EdgeRow, FaceId, FaceRow, Memory, NodeId, NodeRow, is_same_dart};

/// Whether the node is listed.
pub fn has_node(nodes: &Rows<NodeRow>, node: NodeId) -> bool
    ensures { result ≡ lists_node nodes.now node }
{
    nodes.has(node.0)
}

/// Whether the edge is listed.
pub fn has_edge(edges: &Rows<EdgeRow>, edge: EdgeId) -> bool
    ensures { result ≡ lists_edge edges.now edge }
{
    edges.has(edge.0)
}

/// Whether the face is listed. Face 0 always is.
pub fn has_face(faces: &Rows<FaceRow>, face: FaceId) -> bool
    ensures { result ≡ lists_face (universal_face ∷ faces.now) face }
{
    0 == face.0 || faces.has(face.0)
}

fn node_without_face(
    node: NodeId,
    face: Option<FaceId>,
    faces: &Rows<FaceRow>,
    report: &mut Report,
) -> Result<(), Memory>
    ensures { OnOk result (report.new ≡ report.old ++ missing_face (lists_face (universal_face ∷ faces.now)) node face) }
{
    match face {
        None => Ok(()),
        Some(face) => {
            let missing = !has_face(faces, face);
            report.push_if(missing, ReportLine::NodeWithoutFace { node, face })
        }
    }
}

pub fn nodes_without_face(
    nodes: &[NodeRow],
    faces: &Rows<FaceRow>,
    report: &mut Report,
) -> Result<(), Memory>
    ensures { OnOk result (report.new ≡ report.old ++ faces_missing (lists_face (universal_face ∷ faces.now)) nodes.now) }
{
    for row in nodes {
        node_without_face(row.node_id, row.containing_face, faces, report)?;
    }
    Ok(())
}

/// One line for each of two nodes that isn't listed, the smaller id first.
fn edge_without_nodes(
    edge: EdgeId,
    a: NodeId,
    b: NodeId,
    nodes: &Rows<NodeRow>,
    report: &mut Report,
) -> Result<(), Memory>
    ensures { OnOk result (report.new ≡ report.old ++ missing_ids (lists_node nodes.now) (λ n. EdgeWithoutNode edge n) a b) }
{
    let low = a.0.min(b.0);
    let high = a.0.max(b.0);
    let node = NodeId(low);
    report.push_if(
        !has_node(nodes, NodeId(low)),
        ReportLine::EdgeWithoutNode { edge, node },
    )?;
    let is_other = !(a.0 == b.0) && !has_node(nodes, NodeId(high));
    let node = NodeId(high);
    report.push_if(is_other, ReportLine::EdgeWithoutNode { edge, node })
}

/// One line for each node that an edge names and that isn't listed, the smaller id first.
pub fn edges_without_node(
    edges: &[EdgeRow],
    nodes: &Rows<NodeRow>,
    report: &mut Report,
) -> Result<(), Memory>
    ensures { OnOk result (report.new ≡ report.old ++ without_node (lists_node nodes.now) edges.now) }
{
    for row in edges {
        edge_without_nodes(row.edge_id, row.start_node, row.end_node, nodes, report)?;
    }
    Ok(())
}

/// One line for each of two faces that isn't listed, the smaller id first.
fn edge_without_faces(
    edge: EdgeId,
    a: FaceId,
    b: FaceId,
    faces: &Rows<FaceRow>,
    report: &mut Report,
) -> Result<(), Memory>
    ensures { OnOk result (report.new ≡ report.old ++ missing_ids (lists_face (universal_face ∷ faces.now)) (λ f. EdgeWithoutFace edge f) a b) }
{
    let low = a.0.min(b.0);
    let high = a.0.max(b.0);
    let face = FaceId(low);
    report.push_if(
        !has_face(faces, FaceId(low)),
        ReportLine::EdgeWithoutFace { edge, face },
    )?;
    let is_other = !(a.0 == b.0) && !has_face(faces, FaceId(high));
    let face = FaceId(high);
    report.push_if(is_other, ReportLine::EdgeWithoutFace { edge, face })
}

/// One line for each face on a side that isn't listed, the smaller id first.
pub fn edges_without_face(
    edges: &[EdgeRow],
    faces: &Rows<FaceRow>,
    report: &mut Report,
) -> Result<(), Memory>
    ensures { OnOk result (report.new ≡ report.old ++ without_face (lists_face (universal_face ∷ faces.now)) edges.now) }
{
    for row in edges {
        edge_without_faces(row.edge_id, row.left_face, row.right_face, faces, report)?;
    }
    Ok(())
}

/// The number of a dart: the id of its edge, negative where it is walked back.
fn signed(dart: &Dart) -> i64
    ensures { result ≡ signed_of dart.now }
{
    let edge = i64::from(dart.edge.0);
    if dart.forward { edge } else { -edge }
}

fn edge_without_link(
    edge: EdgeId,
    next: Dart,
    edges: &Rows<EdgeRow>,
    report: &mut Report,
) -> Result<(), Memory>
    ensures { OnOk result (report.new ≡ report.old ++ missing_link (lists_edge edges.now) edge next) }
{
    let missing = !edges.has(next.edge.0);
    report.push_if(missing, ReportLine::EdgeWithoutNext { edge, next })
}

/// One line for each of two links whose edge isn't listed, the smaller number first.
fn edge_without_links(
    edge: EdgeId,
    left: &Dart,
    right: &Dart,
    edges: &Rows<EdgeRow>,
    report: &mut Report,
) -> Result<(), Memory>
    ensures { OnOk result (report.new ≡ report.old ++ missing_links (lists_edge edges.now) edge left.now right.now) }
{
    if is_same_dart(left, right) {
        return edge_without_link(edge, *left, edges, report);
    }
    if signed(left) < signed(right) {
        edge_without_link(edge, *left, edges, report)?;
        return edge_without_link(edge, *right, edges, report);
    }
    edge_without_link(edge, *right, edges, report)?;
    edge_without_link(edge, *left, edges, report)
}

/// One line for each link whose edge isn't listed, the smaller number first.
pub fn edges_without_next(
    rows: &[EdgeRow],
    edges: &Rows<EdgeRow>,
    report: &mut Report,
) -> Result<(), Memory>
    ensures { OnOk result (report.new ≡ report.old ++ without_next (lists_edge edges.now) rows.now) }
{
    for row in rows {
        let (left, right) = (&row.next_left_edge, &row.next_right_edge);
        edge_without_links(row.edge_id, left, right, edges, report)?;
    }
    Ok(())
}
