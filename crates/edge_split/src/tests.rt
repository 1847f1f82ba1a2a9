//! The links that change where a closed edge is split: its own, and that of an edge beside it.

use crate::links::{Parts, relink_rows};
use std::alloc::Global;
use std::process::Abort;
use std::test::Fail;
use topo_base::{
    Dart, EdgeId, EdgeRow, FaceId, Grid, Hand, Line, NodeId, RowDart, RowId, RowWrite,
};
use topo_tables::Writes;

fn dart(edge: u32, forward: bool) -> Dart {
    let edge = EdgeId(edge);
    Dart { edge, forward }
}

fn line(rt: &impl Abort, alloc: Global) -> Result<Line, Fail> {
    let from = Grid::of(0, 0).expect(rt, "off the grid");
    let to = Grid::of(3, 4).expect(rt, "off the grid");
    Ok(Line::of(vec![in alloc; from, to]?).expect(rt, "too few vertices"))
}

/// An edge with these links.
fn edge(id: u32, left: Dart, right: Dart, geom: Line) -> EdgeRow {
    EdgeRow {
        edge_id: EdgeId(id),
        start_node: NodeId(1),
        end_node: NodeId(1),
        next_left_edge: left,
        next_right_edge: right,
        left_face: FaceId(0),
        right_face: FaceId(0),
        geom,
    }
}

/// Whether the write sets this link of the edge to the second part walked back.
fn is_set(one: &RowWrite, edge: u32, hand: Hand) -> bool {
    let second = RowDart {
        edge: RowId::Old(7),
        forward: false,
    };
    match one {
        RowWrite::SetNext {
            edge: own,
            hand: side,
            next,
        } => *own == RowId::Old(edge) && *side == hand && *next == second,
        _ => false,
    }
}

#[test]
fn a_closed_edge(rt: HostRuntime) -> Result<(), Fail> {
    let alloc = rt.alloc();
    let slots = vec![in alloc;
        Some(edge(1, dart(1, true), dart(1, false), line(&rt, alloc)?)),
        None,
        Some(edge(3, dart(1, false), dart(3, true), line(&rt, alloc)?)),
    ]?;
    let parts = Parts {
        edge: EdgeId(1),
        node: NodeId(2),
        first: EdgeId(1),
        second: EdgeId(7),
    };
    let mut writes = Writes::new(alloc);
    relink_rows(&mut writes, &parts, &slots)?;
    let made = writes.as_slice();
    assert_eq!(rt; made.len(), 2);
    assert!(rt; is_set(&made[0], 1, Hand::Right));
    assert!(rt; is_set(&made[1], 3, Hand::Left));
    Ok(())
}
