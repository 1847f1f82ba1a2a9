//! The face of a line at nodes without edges, and about a node with three.

ghost use Rattle.std.specs.Prelude.{◌≡◌, [], ◌∷◌, IfOk};

use crate::wedges::{face_among, face_at_node, face_at_start};
use grid_angle::Dir;
use std::alloc::Global;
use std::process::Abort;
use std::test::Fail;
use topo_base::{Dart, EdgeId, EdgeRow, FaceId, Grid, Line, NodeId, NodeRow};
use topo_tables::Tables;

#[test]
fn isolated_nodes(rt: HostRuntime) -> Result<(), Fail> {
    let geom = Grid::of(0, 0).expect(&rt, "off the grid");
    let end = Grid::of(3, 4).expect(&rt, "off the grid");
    let tables = Tables::empty(rt.alloc());
    for (containing_face, face) in [(Some(FaceId(5)), 5), (None, 0)] {
        let node = NodeRow {
            node_id: NodeId(1),
            containing_face,
            geom,
        };
        assert_eq!(rt;
            face_at_node(rt.alloc(), &tables, &node, Dir::up())?.0,
            face
        );
    }
    let node = NodeRow {
        node_id: NodeId(2),
        containing_face: Some(FaceId(7)),
        geom,
    };
    let line = Line::of(vec![in rt.alloc(); geom, end]?).expect(&rt, "too few vertices");
    assert_eq!(rt; face_at_start(rt.alloc(), &tables, &node, &line)?.0, 7);
    Ok(())
}

fn line(rt: &impl Abort, alloc: Global, from: Grid, to: Grid) -> Result<Line, Fail>
    ensures { IfOk result (λ l. l ≡ from ∷ to ∷ []) }
{
    Ok(Line::of(vec![in alloc; from, to]?).expect(rt, "too few vertices"))
}

/// An edge between these nodes, with these faces on its left and on its right.
fn edge(id: u32, nodes: (u32, u32), faces: (u32, u32), geom: Line) -> EdgeRow
    ensures { result.geom ≡ geom }
{
    EdgeRow {
        edge_id: EdgeId(id),
        start_node: NodeId(nodes.0),
        end_node: NodeId(nodes.1),
        next_left_edge: Dart {
            edge: EdgeId(id),
            forward: true,
        },
        next_right_edge: Dart {
            edge: EdgeId(id),
            forward: false,
        },
        left_face: FaceId(faces.0),
        right_face: FaceId(faces.1),
        geom,
    }
}

// Up from the node, to it from the right, and down from it. The edge between two other nodes does not count.
#[test]
fn three_edges(rt: HostRuntime) -> Result<(), Fail> {
    let alloc = rt.alloc();
    let middle = Grid::of(0, 0).expect(&rt, "off the grid");
    let up = Grid::of(0, 9).expect(&rt, "off the grid");
    let right = Grid::of(9, 0).expect(&rt, "off the grid");
    let down = Grid::of(0, -9).expect(&rt, "off the grid");
    let first = edge(1, (1, 2), (3, 4), line(&rt, alloc, middle, up)?);
    let second = edge(3, (3, 1), (5, 4), line(&rt, alloc, right, middle)?);
    let third = edge(4, (1, 4), (5, 3), line(&rt, alloc, middle, down)?);
    let apart = edge(5, (2, 3), (6, 4), line(&rt, alloc, up, right)?);
    let edges = [&first, &second, &third, &apart];
    for (dx, dy, face) in [(1, 1, 4), (2, -1, 5), (1, -7, 5), (-1, 0, 3)] {
        let way = Dir::of(dx, dy).expect(&rt, "a direction");
        assert_eq!(rt; face_among(way, NodeId(1), &edges).0, face, "at {dx} {dy}");
    }
    Ok(())
}
