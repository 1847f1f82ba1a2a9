//! Sides, nodes and faces where faces become one, in small tables made by row writes.

ghost use Rattle.std.specs.Prelude.{◌≡◌, ◌<◌, true, false};

use crate::last::last_writes;
use crate::removed::Removed;
use crate::sides::renamed_writes;
use std::alloc::Global;
use std::marker::Brand;
use std::process::Abort;
use std::sync::ledger::{Blank, Ledger};
use std::test::Fail;
use topo_base::{FaceId, Grid, Hand, Line, NodeId, RowDart, RowId, RowWrite, Steps};
use topo_tables::{Tables, Writes};

fn grid(rt: &impl Abort, x: i64, y: i64) -> Grid {
    Grid::of(x, y).expect(rt, "off the grid")
}

fn node_comes(node: u32, face: Option<RowId>, geom: Grid) -> RowWrite
    ensures { result ≡ RowWrite.AddNode (RowId.Old node) face geom }
{
    RowWrite::AddNode {
        node: RowId::Old(node),
        face,
        geom,
    }
}

fn row_dart(edge: u32, forward: bool) -> RowDart
    ensures { result ≡ record { edge = RowId.Old edge; forward = forward } }
{
    RowDart {
        edge: RowId::Old(edge),
        forward,
    }
}

/// Edge 1, from node 1 to node 2 in face 0.
fn edge_comes(line: Line) -> RowWrite
    ensures { result ≡ RowWrite.AddEdge (RowId.Old 1) (RowId.Old 1) (RowId.Old 2) (record { edge = RowId.Old 1; forward = false }) (record { edge = RowId.Old 1; forward = true }) (RowId.Old 0) (RowId.Old 0) line }
{
    RowWrite::AddEdge {
        edge: RowId::Old(1),
        start: RowId::Old(1),
        end: RowId::Old(2),
        next_left: row_dart(1, false),
        next_right: row_dart(1, true),
        left: RowId::Old(0),
        right: RowId::Old(0),
        geom: line,
    }
}

/// Tables of a node in face 0.
fn with_node<L: Ledger>(alloc: Global, geom: Grid, steps: &mut Steps<L>) -> Result<Tables, Fail> {
    let mut tables = Tables::empty(alloc);
    let mut writes = Writes::new(alloc);
    writes.push(node_comes(1, Some(RowId::Old(0)), geom))?;
    tables.reserve(&writes)?;
    tables.write_all(writes, steps);
    Ok(tables)
}

/// Tables of an edge alone in face 0.
fn with_island<L: Ledger>(
    rt: &impl Abort,
    alloc: Global,
    steps: &mut Steps<L>,
) -> Result<Tables, Fail> {
    let mut vertices = Vec::new(alloc);
    vertices.push(grid(rt, 1, 1))?;
    vertices.push(grid(rt, 2, 1))?;
    let line = Line::of(vertices).expect(rt, "too few vertices");
    let mut tables = Tables::empty(alloc);
    let mut writes = Writes::new(alloc);
    writes.push(node_comes(1, None, grid(rt, 1, 1)))?;
    writes.push(node_comes(2, None, grid(rt, 2, 1)))?;
    writes.push(edge_comes(line))?;
    tables.reserve(&writes)?;
    tables.write_all(writes, steps);
    Ok(tables)
}

/// An edge from node 1 to node 2 that had face 0 on both sides.
fn removed() -> Removed {
    Removed {
        start_node: NodeId(1),
        end_node: NodeId(2),
        left_face: FaceId(0),
        right_face: FaceId(0),
    }
}

fn side(write: &RowWrite) -> Option<(RowId, Hand, RowId)> {
    match write {
        RowWrite::SetSide { edge, hand, face } => Some((*edge, *hand, *face)),
        _ => None,
    }
}

/// Whether these sides of edge 1 become face 3.
fn sets_sides(writes: &[RowWrite], wanted: &[Hand]) -> bool {
    if writes.len() != wanted.len() {
        return false;
    }
    for (write, hand) in writes.iter().zip(wanted) {
        if side(write) != Some((RowId::Old(1), *hand, RowId::Old(3))) {
            return false;
        }
    }
    true
}

fn containing(write: &RowWrite) -> Option<(RowId, Option<RowId>)> {
    match write {
        RowWrite::SetContaining { node, face } => Some((*node, *face)),
        _ => None,
    }
}

fn dropped(write: &RowWrite) -> Option<RowId> {
    match write {
        RowWrite::DropFace { face } => Some(*face),
        _ => None,
    }
}

/// Both sides of an edge change, and its nodes, which have it, stay.
fn both_sides<L: Ledger>(rt: &impl Abort, alloc: Global, blank: Blank) -> Result<(), Fail>
    requires name { blank.name ≡ L.name }
    requires parts { blank.parts ≡ L.parts }
    requires some { 0 < blank.parts }
{
    let mut steps = Steps::<L>::new(blank);
    let tables = with_island(rt, alloc, &mut steps)?;
    let gone = [FaceId(0)];
    let writes = renamed_writes(alloc, &tables, &removed(), &gone, FaceId(3), &mut steps)?;
    let wanted = [Hand::Left, Hand::Right];
    assert!(rt; sets_sides(writes.as_slice(), wanted.as_slice()));
    Ok(())
}

#[test]
fn both_sides_change(rt: HostRuntime) -> Result<(), Fail> {
    both_sides::<Brand>(&rt, rt.alloc(), Blank::new(1))
}

/// A node that was an end of the edge comes into the face, although no face goes.
fn freed_node<L: Ledger>(rt: &impl Abort, alloc: Global, blank: Blank) -> Result<(), Fail>
    requires name { blank.name ≡ L.name }
    requires parts { blank.parts ≡ L.parts }
    requires some { 0 < blank.parts }
{
    let mut steps = Steps::<L>::new(blank);
    let tables = with_node(alloc, grid(rt, 4, 2), &mut steps)?;
    let gone = [];
    let writes = renamed_writes(alloc, &tables, &removed(), &gone, FaceId(3), &mut steps)?;
    let wanted = (RowId::Old(1), Some(RowId::Old(3)));
    assert!(rt; writes.as_slice().last().and_then(containing) == Some(wanted));
    Ok(())
}

#[test]
fn an_end_is_freed(rt: HostRuntime) -> Result<(), Fail> {
    freed_node::<Brand>(&rt, rt.alloc(), Blank::new(1))
}

/// The face that goes is dropped at last.
fn last_of<L: Ledger>(rt: &impl Abort, alloc: Global, blank: Blank) -> Result<(), Fail>
    requires name { blank.name ≡ L.name }
    requires parts { blank.parts ≡ L.parts }
    requires some { 0 < blank.parts }
{
    let mut steps = Steps::<L>::new(blank);
    let tables = Tables::empty(alloc);
    let gone = [FaceId(2)];
    let writes = last_writes(alloc, &tables, FaceId(3), &gone, &mut steps)?;
    assert!(rt; writes.as_slice().last().and_then(dropped) == Some(RowId::Old(2)));
    Ok(())
}

#[test]
fn the_face_goes(rt: HostRuntime) -> Result<(), Fail> {
    last_of::<Brand>(&rt, rt.alloc(), Blank::new(1))
}
