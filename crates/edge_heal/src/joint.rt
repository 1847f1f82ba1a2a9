// Two edges that are healed into one: the names of their darts, the line and the ends of the joined edge.
ghost use Rattle.std.specs.Prelude.{◌≡◌, ℕ, ◌==◌, IfOk, reverse};
ghost use Rattle.topo_base.specs.declared.ids.Dart.{Dart as DartValue};
ghost use Rattle.drawing.specs.HealEdges.{away_from, joined_edge};
ghost use Rattle.drawing.specs.Tables.{drawn_edge};
ghost use Rattle.edge_heal.specs.Healing.{AreMeeting};
ghost use Rattle.edge_heal.specs.Joined.{IsHealedAt, follows_on, row_follower};
ghost use Rattle.edge_heal.specs.Renamed.{healed_name};

use edge_split::Names;
use grid_lines::join;
use std::alloc::Global;
use topo_base::{Dart, EdgeId, EdgeRow, Line, Memory, NodeId};

/// Two edges that are healed into the edge with this id, which may be the first. It is walked forward (or
/// not) from the first edge on.
#[derive(Clone, Copy)]
pub struct Healed {
    pub first: EdgeId,
    pub second: EdgeId,
    pub id: EdgeId,
    pub way: bool,
}

/// A dart by its name after the edit: one of the two edges that leaves its far node is that of the joined
/// edge there.
fn healed_name(healed: &Healed, dart: &Dart) -> Dart
    ensures { result ≡ healed_name healed.now.first healed.now.second healed.now.id healed.now.way dart.now }
{
    let edge = healed.id;
    let way = healed.way;
    if dart.edge.0 == healed.second.0 {
        return Dart {
            edge,
            forward: !way,
        };
    }
    if dart.edge.0 == healed.first.0 {
        return Dart { edge, forward: way };
    }
    *dart
}

impl Names for Healed {
    ghost named = { λ healed d. healed_name healed.first healed.second healed.id healed.way d };

    fn renamed(&self, dart: &Dart) -> Dart {
        healed_name(self, dart)
    }
}

/// Whether the edge starts at the node.
fn starts_at(edge: &EdgeRow, node: NodeId) -> bool
    ensures { result ≡ (edge.now.start_node == node) }
{
    edge.start_node.0 == node.0
}

/// Whether the edge ends at the node.
pub fn ends_at(edge: &EdgeRow, node: NodeId) -> bool
    ensures { result ≡ (node == edge.now.end_node) }
{
    node.0 == edge.end_node.0
}

/// The line walked back.
fn walked_back(alloc: Global, line: &Line) -> Result<Line, Memory>
    ensures { IfOk result (λ l. l ≡ reverse line.now) }
{
    let mut vertices = line.vertices().to_vec(alloc)?;
    vertices.reverse();
    Ok(Line::of(vertices).unwrap())
}

/// The line of an edge, walked away from its node.
fn line_away(alloc: Global, edge: &EdgeRow, node: NodeId) -> Result<Line, Memory>
    ensures { IfOk result (λ l. l ≡ (away_from node (drawn_edge edge.now)).points) }
{
    if starts_at(edge, node) {
        edge.geom.copy(alloc)
    } else {
        walked_back(alloc, &edge.geom)
    }
}

/// The line of the joined edge: the first line and then the second, walked away from the node, or where
/// the first begins there, the second walked up to it and then the first. The vertex at the node stands
/// once.
pub fn joined_line(
    alloc: Global,
    first: &EdgeRow,
    second: &EdgeRow,
    node: NodeId,
) -> Result<Line, Memory>
    requires { AreMeeting (drawn_edge first.now) (drawn_edge second.now) node }
    ensures { IfOk result (λ l. (id : ℕ) → l ≡ (joined_edge node (drawn_edge first.now) (drawn_edge second.now) id).geom) }
{
    let away = line_away(alloc, second, node)?;
    if ends_at(first, node) {
        return join(alloc, &first.geom, &away);
    }
    let back = walked_back(alloc, &away)?;
    join(alloc, &back, &first.geom)
}

/// The node at the other end of an edge.
fn far_node(edge: &EdgeRow, node: NodeId) -> NodeId
    ensures { result ≡ (away_from node (drawn_edge edge.now)).to_node }
{
    if starts_at(edge, node) {
        edge.end_node
    } else {
        edge.start_node
    }
}

/// The nodes where an edge starts and ends.
#[derive(Clone, Copy)]
pub struct Ends {
    pub start: NodeId,
    pub end: NodeId,
}

/// The ends of the joined edge.
pub fn joined_ends(first: &EdgeRow, second: &EdgeRow, node: NodeId) -> Ends
    ensures start { (id : ℕ) → result.start ≡ (joined_edge node (drawn_edge first.now) (drawn_edge second.now) id).start_node }
    ensures end { (id : ℕ) → result.end ≡ (joined_edge node (drawn_edge first.now) (drawn_edge second.now) id).end_node }
{
    let far = far_node(second, node);
    if ends_at(first, node) {
        Ends {
            start: first.start_node,
            end: far,
        }
    } else {
        Ends {
            start: far,
            end: first.end_node,
        }
    }
}

/// What follows an edge, walked this way.
pub fn follower(edge: &EdgeRow, way: bool) -> Dart
    ensures { result ≡ row_follower edge.now way }
{
    if way {
        edge.next_left_edge
    } else {
        edge.next_right_edge
    }
}

/// What follows the joined edge, walked on from the first edge to the second.
pub fn follows_on(healed: &Healed, first: &EdgeRow, second: &EdgeRow, node: NodeId) -> Dart
    requires { IsHealedAt healed.now first.now second.now node }
    ensures { result ≡ follows_on first.now second.now node healed.now.id }
{
    healed.renamed(&follower(second, starts_at(second, node)))
}
