// Nodes and the segments of edges as pieces of the plane, from left to right.
ghost use Rattle.std.specs.Prelude.{◌≡◌, ◌↔◌, ◌++◌, ◌≤ℤ◌, ◌<ℤ◌, flat_map, map, Contains, IfOk, IsTrue, OnOk};
ghost use Rattle.validate_topology.specs.declared.pieces.Piece.{Piece as PieceValue};
ghost use Rattle.validate_topology.specs.Pieces.{AreInOrder, all_pieces, bottom_of, edge_pieces, left_of, node_piece, right_of, top_of};

use grid_lines::{first_of, last_of};
use std::alloc::Global;
use topo_base::{EdgeId, EdgeRow, Grid, Memory, NodeId, NodeRow};

/// The first vertex of a line and the last.
#[derive(Clone, Copy)]
pub struct Ends {
    pub first: Grid,
    pub last: Grid,
}

/// Whose a piece is: a node's, or an edge's, whose line has these ends.
#[derive(Clone, Copy)]
pub enum Owner {
    Node(NodeId),
    Edge(EdgeId, Ends),
}

/// The point of a node, as a way from it to itself, or a segment of an edge.
#[derive(Clone, Copy)]
pub struct Piece {
    pub from: Grid,
    pub to: Grid,
    pub owner: Owner,
}

impl Piece {
    /// How far to the right it begins.
    pub fn left(&self) -> i64
        ensures { result ≡ left_of self.now }
    {
        self.from.x().min(self.to.x())
    }

    /// How far to the right it ends.
    fn right(&self) -> i64
        ensures { result ≡ right_of self.now }
    {
        self.from.x().max(self.to.x())
    }

    /// Whether it begins farther to the right than another ends.
    pub fn is_beyond(&self, other: &Piece) -> bool
        ensures { IsTrue result ↔ right_of other.now <ℤ left_of self.now }
    {
        other.right() < self.left()
    }

    fn bottom(&self) -> i64
        ensures { result ≡ bottom_of self.now }
    {
        self.from.y().min(self.to.y())
    }

    fn top(&self) -> i64
        ensures { result ≡ top_of self.now }
    {
        self.from.y().max(self.to.y())
    }

    /// Whether two pieces reach a common height.
    pub fn is_level_with(&self, other: &Piece) -> bool
        ensures { IsTrue result ↔ (bottom_of self.now ≤ℤ top_of other.now) × (bottom_of other.now ≤ℤ top_of self.now) }
    {
        self.bottom() <= other.top() && other.bottom() <= self.top()
    }
}

/// The segments of an edge.
fn push_edge(pieces: &mut Vec<Piece>, row: &EdgeRow) -> Result<(), Memory>
    ensures { OnOk result (pieces.new.items ≡ pieces.old.items ++ edge_pieces row.now) }
{
    let vertices = row.geom.vertices();
    for index in 0..vertices.len() - 1 {
        pieces.push(Piece {
            from: vertices[index],
            to: vertices[index + 1],
            owner: Owner::Edge(
                row.edge_id,
                Ends {
                    first: first_of(&row.geom),
                    last: last_of(&row.geom),
                },
            ),
        })?;
    }
    Ok(())
}

fn push_nodes(pieces: &mut Vec<Piece>, rows: &[NodeRow]) -> Result<(), Memory>
    ensures { OnOk result (pieces.new.items ≡ pieces.old.items ++ map node_piece rows.now) }
{
    for row in rows {
        pieces.push(Piece {
            from: row.geom,
            to: row.geom,
            owner: Owner::Node(row.node_id),
        })?;
    }
    Ok(())
}

fn push_edges(pieces: &mut Vec<Piece>, rows: &[EdgeRow]) -> Result<(), Memory>
    ensures { OnOk result (pieces.new.items ≡ pieces.old.items ++ flat_map edge_pieces rows.now) }
{
    for row in rows {
        push_edge(pieces, row)?;
    }
    Ok(())
}

/// All nodes and all segments of edges, by how far to the right they begin.
pub fn pieces_of(alloc: Global, nodes: &[NodeRow], edges: &[EdgeRow]) -> Result<Vec<Piece>, Memory>
    ensures all { IfOk result (λ v. (p : PieceValue) → Contains v.items p ↔ Contains (all_pieces nodes.now edges.now) p) }
    ensures order { IfOk result (λ v. AreInOrder v.items) }
{
    let mut pieces = Vec::new(alloc);
    push_nodes(&mut pieces, nodes)?;
    push_edges(&mut pieces, edges)?;
    pieces.sort_unstable_by_key(|piece| piece.left());
    Ok(pieces)
}
