//! The links that change where two edges are healed, and the rules on their nodes.

use crate::healing::healed_into_first;
use crate::rules::{are_not_joined, is_one_closed};
use edge_split::relink_rows;
use std::alloc::Global;
use std::process::Abort;
use std::test::Fail;
use topo_base::{
    Dart, EdgeId, EdgeRow, FaceId, Grid, Hand, Line, NodeId, RowDart, RowId, RowWrite,
};
use topo_tables::Writes;

fn grid(rt: &impl Abort, x: i64, y: i64) -> Grid {
    Grid::of(x, y).expect(rt, "off the grid")
}

/// A line through two points.
fn line(rt: &impl Abort, alloc: Global, from: Grid, to: Grid) -> Result<Line, Fail> {
    let vertices = vec![in alloc; from, to]?;
    Ok(Line::of(vertices).expect(rt, "too few vertices"))
}

fn dart(edge: u32, forward: bool) -> Dart {
    let edge = EdgeId(edge);
    Dart { edge, forward }
}

/// An edge in face 0.
fn edge(id: u32, start: u32, end: u32, left: Dart, right: Dart, geom: Line) -> EdgeRow {
    EdgeRow {
        edge_id: EdgeId(id),
        start_node: NodeId(start),
        end_node: NodeId(end),
        next_left_edge: left,
        next_right_edge: right,
        left_face: FaceId(0),
        right_face: FaceId(0),
        geom,
    }
}

/// Edge 1, from node 1 to node 2, and edge 2, from node 2 to node 3, with no others.
#[derive(Drop)]
struct Chain {
    first: EdgeRow,
    second: EdgeRow,
}

fn chain_of_two(rt: &impl Abort, alloc: Global) -> Result<Chain, Fail> {
    let middle = grid(rt, 4, 0);
    let west = line(rt, alloc, grid(rt, 0, 0), middle)?;
    let east = line(rt, alloc, middle, grid(rt, 8, 1))?;
    let first = edge(1, 1, 2, dart(2, true), dart(1, true), west);
    let second = edge(2, 2, 3, dart(2, false), dart(1, false), east);
    Ok(Chain { first, second })
}

/// Whether the write sets this link of the edge.
fn sets_link(one: &RowWrite, id: u32, at: Hand, wanted: RowDart) -> bool {
    match one {
        RowWrite::SetNext { edge, hand, next } => {
            *edge == RowId::Old(id) && *hand == at && *next == wanted
        }
        _ => false,
    }
}

fn row_dart(edge: u32, forward: bool) -> RowDart {
    RowDart {
        edge: RowId::Old(edge),
        forward,
    }
}

/// Whether the writes are those of the links of a chain.
fn links_joined(made: &[RowWrite]) -> bool {
    made.len() == 3
        && sets_link(&made[0], 1, Hand::Left, row_dart(1, false))
        && sets_link(&made[1], 2, Hand::Left, row_dart(1, false))
        && sets_link(&made[2], 2, Hand::Right, row_dart(1, true))
}

/// The links of both edges of a chain name the darts of the joined edge.
#[test]
fn links_name_the_joined_edge(rt: HostRuntime) -> Result<(), Fail> {
    let alloc = rt.alloc();
    let Chain { first, second } = chain_of_two(&rt, alloc)?;
    let healed = healed_into_first(&first, &second, NodeId(2));
    let slots = vec![in alloc; Some(first), Some(second)]?;
    let mut writes = Writes::new(alloc);
    relink_rows(&mut writes, &healed, &slots)?;
    assert!(rt; links_joined(writes.as_slice()));
    Ok(())
}

/// Whether the rules on nodes tell a closed edge, an edge with itself, and edges without a common node
/// from two that may be healed.
fn rules_tell(first: &EdgeRow, second: &EdgeRow, closed: &EdgeRow, apart: &EdgeRow) -> bool {
    is_one_closed(first, closed)
        && !is_one_closed(first, second)
        && are_not_joined(first, first)
        && are_not_joined(first, apart)
        && !are_not_joined(first, second)
}

#[test]
fn rules_on_nodes(rt: HostRuntime) -> Result<(), Fail> {
    let alloc = rt.alloc();
    let Chain { first, second } = chain_of_two(&rt, alloc)?;
    let bend = line(&rt, alloc, grid(&rt, 0, 5), grid(&rt, 1, 5))?;
    let closed = edge(3, 1, 1, dart(3, true), dart(3, false), bend.copy(alloc)?);
    let apart = edge(4, 5, 3, dart(4, false), dart(4, true), bend);
    assert!(rt; rules_tell(&first, &second, &closed, &apart));
    Ok(())
}
