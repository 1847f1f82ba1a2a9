// What is wrong with containing faces and links.
ghost use Rattle.std.specs.Prelude.{◌≡◌, ◌+◌, ◌*◌, ◌<◌, ◌++◌, ◌||◌, ◌==◌, ℕ, Bool, true, List, length, map, slice_index_or, if◌then◌else◌, IfOk, OnOk, vec_len};
ghost use Rattle.topo_base.specs.declared.rows.NodeRow.{NodeRow as NodeValue};
ghost use Rattle.drawing.specs.Drawing.{is_end_of};
ghost use Rattle.drawing.specs.HalfEdge.{HalfEdge, dart_of as dart_of_half};
ghost use Rattle.drawing.specs.Star.{next_of};
ghost use Rattle.drawing.specs.Tables.{drawn_edge};
ghost use Rattle.validate_topology.specs.Following.{AreNext, half_edge, half_edges_of};
ghost use Rattle.validate_topology.specs.LinkLines.{has_edge, isolated_without_face, joined_with_face, left_wrong as left_line, lefts_wrong as left_lines, nodes_isolated, nodes_joined, right_wrong as right_line, rights_wrong as right_lines};

use crate::lines::{Report, ReportLine};
use crate::sides::{Side, dart_of};
use crate::stars::Followers;
use crate::table::Rows;
use std::alloc::Global;
use topo_base::{Dart, EdgeRow, Memory, NodeId, NodeRow, is_same_dart};

/// Marks the place of a node.
fn mark(nodes: &Rows<NodeRow>, node: NodeId, joined: &mut Vec<bool>)
    requires { vec_len joined.old ≡ length nodes.now }
    ensures len { vec_len joined.new ≡ vec_len joined.old }
    ensures marked { (seen : ℕ → Bool) → joined.old.items ≡ map (λ (n : NodeValue). seen n.node_id) nodes.now → joined.new.items ≡ map (λ (n : NodeValue). if n.node_id == node then true else seen n.node_id) nodes.now }
{
    let _ = nodes.rows();
    let Some(place) = nodes.place_of(node.0) else {
        return;
    };
    joined[place] = true;
}

/// Marks the places of the ends of an edge.
fn mark_ends(nodes: &Rows<NodeRow>, row: &EdgeRow, joined: &mut Vec<bool>)
    requires { vec_len joined.old ≡ length nodes.now }
    ensures len { vec_len joined.new ≡ vec_len joined.old }
    ensures marked { (seen : ℕ → Bool) → joined.old.items ≡ map (λ (n : NodeValue). seen n.node_id) nodes.now → joined.new.items ≡ map (λ (n : NodeValue). seen n.node_id || is_end_of n.node_id (drawn_edge row.now)) nodes.now }
{
    mark(nodes, row.start_node, joined);
    mark(nodes, row.end_node, joined);
}

/// For each node, whether it has an edge.
fn joined_nodes(
    alloc: Global,
    nodes: &Rows<NodeRow>,
    edges: &[EdgeRow],
) -> Result<Vec<bool>, Memory>
    ensures len { IfOk result (λ v. vec_len v ≡ length nodes.now) }
    ensures joined { IfOk result (λ v. v.items ≡ map (λ (n : NodeValue). has_edge (map drawn_edge edges.now) n.node_id) nodes.now) }
{
    let mut joined = vec![in alloc; false; nodes.rows().len()]?;
    for row in edges {
        mark_ends(nodes, row, &mut joined);
    }
    Ok(joined)
}

fn node_joined(row: &NodeRow, has_edge: bool, report: &mut Report) -> Result<(), Memory>
    ensures { OnOk result (report.new ≡ report.old ++ joined_with_face has_edge row.now.node_id row.now.containing_face) }
{
    let node = row.node_id;
    match row.containing_face {
        None => Ok(()),
        Some(face) => report.push_if(has_edge, ReportLine::NodeJoinedWithFace { node, face }),
    }
}

fn nodes_joined_with_face(
    nodes: &[NodeRow],
    joined: &[bool],
    report: &mut Report,
) -> Result<(), Memory>
    requires { length joined.now ≡ length nodes.now }
    ensures { OnOk result ((has : ℕ → Bool) → joined.now ≡ map (λ (n : NodeValue). has n.node_id) nodes.now → report.new ≡ report.old ++ nodes_joined has nodes.now) }
{
    for index in 0..nodes.len() {
        node_joined(&nodes[index], joined[index], report)?;
    }
    Ok(())
}

fn node_isolated(row: &NodeRow, has_edge: bool, report: &mut Report) -> Result<(), Memory>
    ensures { OnOk result (report.new ≡ report.old ++ isolated_without_face has_edge row.now.node_id row.now.containing_face) }
{
    let node = row.node_id;
    let wrong = row.containing_face.is_none() && !has_edge;
    report.push_if(wrong, ReportLine::NodeIsolatedWithoutFace { node })
}

fn nodes_isolated_without_face(
    nodes: &[NodeRow],
    joined: &[bool],
    report: &mut Report,
) -> Result<(), Memory>
    requires { length joined.now ≡ length nodes.now }
    ensures { OnOk result ((has : ℕ → Bool) → joined.now ≡ map (λ (n : NodeValue). has n.node_id) nodes.now → report.new ≡ report.old ++ nodes_isolated has nodes.now) }
{
    for index in 0..nodes.len() {
        node_isolated(&nodes[index], joined[index], report)?;
    }
    Ok(())
}

/// The lines on nodes with and without edges.
fn node_lines(
    alloc: Global,
    nodes: &Rows<NodeRow>,
    edges: &[EdgeRow],
    report: &mut Report,
) -> Result<(), Memory>
    ensures { OnOk result (report.new ≡ report.old ++ nodes_joined (has_edge (map drawn_edge edges.now)) nodes.now ++ nodes_isolated (has_edge (map drawn_edge edges.now)) nodes.now) }
{
    let joined = joined_nodes(alloc, nodes, edges)?;
    nodes_joined_with_face(nodes.rows(), &joined, report)?;
    nodes_isolated_without_face(nodes.rows(), &joined, report)?;
    Ok(())
}

/// The dart that is next after the one at a place.
fn next_dart(sides: &[Side<'_>], followers: &Followers, place: usize) -> Dart
    requires len { length followers.now ≡ length sides.now }
    requires place { place < length sides.now }
    ensures { (hs : List HalfEdge) (d : HalfEdge) → map half_edge sides.now ≡ hs → AreNext hs followers.now → result ≡ dart_of_half (next_of hs (slice_index_or hs place d)) }
{
    dart_of(&sides[followers.next(place)])
}

fn left_wrong(row: &EdgeRow, next: Dart, report: &mut Report) -> Result<(), Memory>
    ensures { OnOk result (report.new ≡ report.old ++ left_line row.now.edge_id row.now.next_left_edge next) }
{
    let wrong = !is_same_dart(&row.next_left_edge, &next);
    let edge = row.edge_id;
    report.push_if(wrong, ReportLine::NextLeftWrong { edge, next })
}

/// The lines of the links on the left that aren't the dart that is next.
fn lefts_wrong(
    edges: &[EdgeRow],
    sides: &[Side<'_>],
    followers: &Followers,
    report: &mut Report,
) -> Result<(), Memory>
    requires len { length sides.now ≡ 2 * length edges.now }
    requires followers { length followers.now ≡ length sides.now }
    requires sides { map half_edge sides.now ≡ half_edges_of edges.now }
    requires next { AreNext (half_edges_of edges.now) followers.now }
    ensures { OnOk result (report.new ≡ report.old ++ left_lines (half_edges_of edges.now) edges.now) }
{
    for index in 0..edges.len() {
        let next = next_dart(sides, followers, 2 * index);
        left_wrong(&edges[index], next, report)?;
    }
    Ok(())
}

fn right_wrong(row: &EdgeRow, next: Dart, report: &mut Report) -> Result<(), Memory>
    ensures { OnOk result (report.new ≡ report.old ++ right_line row.now.edge_id row.now.next_right_edge next) }
{
    let wrong = !is_same_dart(&row.next_right_edge, &next);
    let edge = row.edge_id;
    report.push_if(wrong, ReportLine::NextRightWrong { edge, next })
}

/// The lines of the links on the right that aren't the dart that is next.
fn rights_wrong(
    edges: &[EdgeRow],
    sides: &[Side<'_>],
    followers: &Followers,
    report: &mut Report,
) -> Result<(), Memory>
    requires len { length sides.now ≡ 2 * length edges.now }
    requires followers { length followers.now ≡ length sides.now }
    requires sides { map half_edge sides.now ≡ half_edges_of edges.now }
    requires next { AreNext (half_edges_of edges.now) followers.now }
    ensures { OnOk result (report.new ≡ report.old ++ right_lines (half_edges_of edges.now) edges.now) }
{
    for index in 0..edges.len() {
        let next = next_dart(sides, followers, 2 * index + 1);
        right_wrong(&edges[index], next, report)?;
    }
    Ok(())
}

/// The lines on containing faces and links.
pub fn link_lines(
    alloc: Global,
    nodes: &Rows<NodeRow>,
    edges: &[EdgeRow],
    sides: &[Side<'_>],
    followers: &Followers,
    report: &mut Report,
) -> Result<(), Memory>
    requires len { length sides.now ≡ 2 * length edges.now }
    requires followers { length followers.now ≡ length sides.now }
    requires sides { map half_edge sides.now ≡ half_edges_of edges.now }
    requires next { AreNext (half_edges_of edges.now) followers.now }
    ensures { OnOk result (report.new ≡ report.old ++ nodes_joined (has_edge (map drawn_edge edges.now)) nodes.now ++ nodes_isolated (has_edge (map drawn_edge edges.now)) nodes.now ++ left_lines (half_edges_of edges.now) edges.now ++ right_lines (half_edges_of edges.now) edges.now) }
{
    node_lines(alloc, nodes, edges, report)?;
    lefts_wrong(edges, sides, followers, report)?;
    rights_wrong(edges, sides, followers, report)
}
