//! Points on the left of a shell and of a hole, and a closed edge that divides face 0, also where nodes lie
//! in it.

ghost use Rattle.std.specs.Prelude.{◌≡◌, ◌<◌, true, false, not};

use crate::{Cut, FaceParts, divided_writes};
use face_rings::{BorderDart, FaceContent};
use grid_rays::Ring;
use std::alloc::Global;
use std::marker::Brand;
use std::process::Abort;
use std::sync::ledger::{Blank, Ledger};
use std::test::Fail;
use topo_base::{Dart, EdgeId, FaceId, Grid, Hand, Line, RowDart, RowId, RowWrite, Steps};
use topo_tables::{Tables, Writes};

fn grid(rt: &impl Abort, x: i64, y: i64) -> Grid {
    Grid::of(x, y).expect(rt, "off the grid")
}

fn cut(rt: &impl Abort, alloc: Global, places: &[(i64, i64)]) -> Result<Cut, Fail> {
    let mut vertices = Vec::new(alloc);
    for (x, y) in places {
        vertices.push(grid(rt, *x, *y))?;
    }
    match Ring::of(vertices) {
        Ok(ring) => Ok(Cut::of(ring)),
        Err(_) => panic!(rt; "too few vertices"),
    }
}

/// Counterclockwise round a square.
const SHELL: [(i64, i64); 4] = [(0, 0), (4, 0), (4, 4), (0, 4)];

/// The same square, clockwise.
const HOLE: [(i64, i64); 4] = [(0, 0), (0, 4), (4, 4), (4, 0)];

#[test]
fn inside_of_a_shell_is_left(rt: HostRuntime) -> Result<(), Fail> {
    let shell = cut(&rt, rt.alloc(), SHELL.as_slice())?;
    assert!(rt; shell.is_on_left(grid(&rt, 1, 1)));
    assert!(rt; !shell.is_on_left(grid(&rt, 9, 1)));
    Ok(())
}

#[test]
fn outside_of_a_hole_is_left(rt: HostRuntime) -> Result<(), Fail> {
    let hole = cut(&rt, rt.alloc(), HOLE.as_slice())?;
    assert!(rt; !hole.is_on_left(grid(&rt, 1, 1)));
    assert!(rt; hole.is_on_left(grid(&rt, 9, 1)));
    Ok(())
}

fn dart(edge: u32, forward: bool) -> Dart
    ensures { result ≡ record { edge = edge; forward = forward } }
{
    Dart {
        edge: EdgeId(edge),
        forward,
    }
}

/// A dart that is its own next.
fn alone(edge: u32, forward: bool) -> BorderDart
    ensures { result ≡ record { dart = record { edge = edge; forward = forward }; next = record { edge = edge; forward = forward } } }
{
    BorderDart {
        dart: dart(edge, forward),
        next: dart(edge, forward),
    }
}

fn side(write: &RowWrite) -> Option<(RowId, Hand, RowId)> {
    match write {
        RowWrite::SetSide { edge, hand, face } => Some((*edge, *hand, *face)),
        _ => None,
    }
}

/// A dart of an edge whose ends have no other edge.
fn turned(edge: u32, forward: bool) -> BorderDart
    ensures { result ≡ record { dart = record { edge = edge; forward = forward }; next = record { edge = edge; forward = not forward } } }
{
    BorderDart {
        dart: dart(edge, forward),
        next: dart(edge, !forward),
    }
}

/// Edge 2 is closed, has the walk on its left and divides face 0. Edge 1 may be an island there.
fn divide<L: Ledger>(
    alloc: Global,
    tables: &Tables,
    island: bool,
    cut: &Cut,
    left: u32,
    right: u32,
    steps: &mut Steps<L>,
) -> Result<Writes, Fail> {
    let darts = if island {
        vec![in alloc;
            turned(1, true),
            turned(1, false),
            alone(2, true),
            alone(2, false),
        ]?
    } else {
        vec![in alloc; alone(2, true), alone(2, false)]?
    };
    let content = FaceContent::of(darts);
    let parts = FaceParts {
        face: FaceId(0),
        edge: EdgeId(2),
        left_part: FaceId(left),
        right_part: FaceId(right),
    };
    Ok(divided_writes(alloc, tables, &content, &parts, cut, steps)?)
}

/// One side changes: that of the new part.
fn one_side<L: Ledger>(rt: &impl Abort, alloc: Global, blank: Blank) -> Result<(), Fail>
    requires name { blank.name ≡ L.name }
    requires parts { blank.parts ≡ L.parts }
    requires some { 0 < blank.parts }
{
    let mut steps = Steps::<L>::new(blank);
    let tables = Tables::empty(alloc);
    let shell = cut(rt, alloc, SHELL.as_slice())?;
    let writes = divide(alloc, &tables, false, &shell, 1, 0, &mut steps)?;
    assert!(rt; sets_sides(writes.as_slice(), [(2, Hand::Left)].as_slice()));
    Ok(())
}

#[test]
fn the_side_of_the_new_part(rt: HostRuntime) -> Result<(), Fail> {
    one_side::<Brand>(&rt, rt.alloc(), Blank::new(1))
}

fn node_comes(node: u32, face: Option<RowId>, geom: Grid) -> RowWrite
    ensures { result ≡ RowWrite.AddNode (RowId.Old node) face geom }
{
    RowWrite::AddNode {
        node: RowId::Old(node),
        face,
        geom,
    }
}

/// Tables of a node in face 0.
fn with_node<L: Ledger>(alloc: Global, geom: Grid, steps: &mut Steps<L>) -> Result<Tables, Fail> {
    let mut tables = Tables::empty(alloc);
    let mut writes = Writes::new(alloc);
    writes.push(node_comes(1, Some(RowId::Old(0)), geom))?;
    tables.reserve(&writes)?;
    tables.write_all(writes, steps);
    Ok(tables)
}

fn containing(write: &RowWrite) -> Option<(RowId, Option<RowId>)> {
    match write {
        RowWrite::SetContaining { node, face } => Some((*node, *face)),
        _ => None,
    }
}

/// The left part is the face, and the node outside of the walk comes into the part on the right.
fn node_outside<L: Ledger>(rt: &impl Abort, alloc: Global, blank: Blank) -> Result<(), Fail>
    requires name { blank.name ≡ L.name }
    requires parts { blank.parts ≡ L.parts }
    requires some { 0 < blank.parts }
{
    let mut steps = Steps::<L>::new(blank);
    let shell = cut(rt, alloc, SHELL.as_slice())?;
    let tables = with_node(alloc, grid(rt, 9, 1), &mut steps)?;
    let writes = divide(alloc, &tables, false, &shell, 0, 1, &mut steps)?;
    let wanted = (RowId::Old(1), Some(RowId::Old(1)));
    assert!(rt; writes.as_slice().last().and_then(containing) == Some(wanted));
    Ok(())
}

#[test]
fn the_node_outside(rt: HostRuntime) -> Result<(), Fail> {
    node_outside::<Brand>(&rt, rt.alloc(), Blank::new(1))
}

fn row_dart(edge: u32, forward: bool) -> RowDart
    ensures { result ≡ record { edge = RowId.Old edge; forward = forward } }
{
    RowDart {
        edge: RowId::Old(edge),
        forward,
    }
}

/// Edge 1, from node 1 to node 2 in face 0.
fn edge_comes(line: Line) -> RowWrite
    ensures { result ≡ RowWrite.AddEdge (RowId.Old 1) (RowId.Old 1) (RowId.Old 2) (record { edge = RowId.Old 1; forward = false }) (record { edge = RowId.Old 1; forward = true }) (RowId.Old 0) (RowId.Old 0) line }
{
    RowWrite::AddEdge {
        edge: RowId::Old(1),
        start: RowId::Old(1),
        end: RowId::Old(2),
        next_left: row_dart(1, false),
        next_right: row_dart(1, true),
        left: RowId::Old(0),
        right: RowId::Old(0),
        geom: line,
    }
}

/// Tables of an edge alone in face 0.
fn with_island<L: Ledger>(
    rt: &impl Abort,
    alloc: Global,
    steps: &mut Steps<L>,
) -> Result<Tables, Fail> {
    let mut vertices = Vec::new(alloc);
    vertices.push(grid(rt, 1, 1))?;
    vertices.push(grid(rt, 2, 1))?;
    let line = Line::of(vertices).expect(rt, "too few vertices");
    let mut tables = Tables::empty(alloc);
    let mut writes = Writes::new(alloc);
    writes.push(node_comes(1, None, grid(rt, 1, 1)))?;
    writes.push(node_comes(2, None, grid(rt, 2, 1)))?;
    writes.push(edge_comes(line))?;
    tables.reserve(&writes)?;
    tables.write_all(writes, steps);
    Ok(tables)
}

/// Whether these sides become face 1.
fn sets_sides(writes: &[RowWrite], wanted: &[(u32, Hand)]) -> bool {
    if writes.len() != wanted.len() {
        return false;
    }
    for (write, (edge, hand)) in writes.iter().zip(wanted) {
        if side(write) != Some((RowId::Old(*edge), *hand, RowId::Old(1))) {
            return false;
        }
    }
    true
}

/// Both sides of the island come into the part inside.
fn island_inside<L: Ledger>(rt: &impl Abort, alloc: Global, blank: Blank) -> Result<(), Fail>
    requires name { blank.name ≡ L.name }
    requires parts { blank.parts ≡ L.parts }
    requires some { 0 < blank.parts }
{
    let mut steps = Steps::<L>::new(blank);
    let shell = cut(rt, alloc, SHELL.as_slice())?;
    let tables = with_island(rt, alloc, &mut steps)?;
    let writes = divide(alloc, &tables, true, &shell, 1, 0, &mut steps)?;
    let wanted = [(1, Hand::Left), (1, Hand::Right), (2, Hand::Left)];
    assert!(rt; sets_sides(writes.as_slice(), wanted.as_slice()));
    Ok(())
}

#[test]
fn an_island_inside(rt: HostRuntime) -> Result<(), Fail> {
    island_inside::<Brand>(&rt, rt.alloc(), Blank::new(1))
}
