//! The path along a closed edge, walked both ways.

ghost use Rattle.std.specs.Prelude.{◌≡◌, ◌<◌, true, length};
ghost use Rattle.drawing.specs.Rows.{row_at};
ghost use Rattle.drawing.specs.Writes.{edge_row_id};
ghost use Rattle.face_parts.specs.Paths.{walked_row};

use crate::ring_path;
use grid_rays::{Ring, inside, is_shell};
use std::alloc::Global;
use std::marker::Brand;
use std::process::Abort;
use std::sync::ledger::{Blank, Ledger};
use std::test::Fail;
use topo_base::{Dart, EdgeId, Grid, Line, Memory, RowDart, RowId, RowWrite, Steps};
use topo_tables::{Tables, Writes};

fn grid(rt: &impl Abort, x: i64, y: i64) -> Grid {
    Grid::of(x, y).expect(rt, "off the grid")
}

/// Tables with one node and a closed edge there, which goes round a face clockwise.
fn lone_loop<L: Ledger>(
    alloc: Global,
    point: Grid,
    geom: Line,
    steps: &mut Steps<L>,
) -> Result<Tables, Memory> {
    let node = RowId::Old(1);
    let edge = RowId::Old(1);
    let mut writes = Writes::new(alloc);
    writes.push(RowWrite::AddNode {
        node,
        face: None,
        geom: point,
    })?;
    writes.push(RowWrite::AddEdge {
        edge,
        start: node,
        end: node,
        next_left: RowDart {
            edge,
            forward: true,
        },
        next_right: RowDart {
            edge,
            forward: false,
        },
        left: RowId::Old(0),
        right: RowId::Old(0),
        geom,
    })?;
    let mut tables = Tables::empty(alloc);
    tables.reserve(&writes)?;
    tables.write_all(writes, steps);
    Ok(tables)
}

/// How many vertices the line of the edge has; none where the edge is not there.
fn vertex_count<L: Ledger>(tables: &Tables, edge: EdgeId, steps: &mut Steps<L>) -> usize
    ensures { result ≡ length (walked_row true (row_at edge_row_id tables.now.rows.edges edge)) }
{
    match tables.edge(edge, steps) {
        None => 0,
        Some(row) => row.geom.vertices().len(),
    }
}

/// The path along a closed edge.
fn path_along<L: Ledger>(
    rt: &impl Abort,
    alloc: Global,
    tables: &Tables,
    dart: Dart,
    steps: &mut Steps<L>,
) -> Result<Ring, Fail> {
    if vertex_count(tables, dart.edge, steps) < 3 {
        panic!(rt; "no closed edge");
    }
    Ok(ring_path(alloc, tables, &[dart], steps)?)
}

fn walks_both_ways<L: Ledger>(rt: &impl Abort, alloc: Global, blank: Blank) -> Result<(), Fail>
    requires name { blank.name ≡ L.name }
    requires parts { blank.parts ≡ L.parts }
    requires some { 0 < blank.parts }
{
    let mut steps = Steps::<L>::new(blank);
    let (a, b, c) = (grid(rt, 0, 0), grid(rt, 0, 4), grid(rt, 4, 0));
    let line = Line::of(vec![in alloc; a, b, c, a]?).expect(rt, "too few vertices");
    let tables = lone_loop(alloc, a, line, &mut steps)?;
    for (forward, vertices) in [(true, [a, b, c]), (false, [a, c, b])] {
        let edge = EdgeId(1);
        let path = path_along(rt, alloc, &tables, Dart { edge, forward }, &mut steps)?;
        assert_eq!(rt; path.vertices(), vertices.as_slice());
        assert_eq!(rt; is_shell(&path), !forward);
        assert!(rt; inside(grid(rt, 1, 1), &path));
    }
    Ok(())
}

#[test]
fn closed_edge(rt: HostRuntime) -> Result<(), Fail> {
    walks_both_ways::<Brand>(&rt, rt.alloc(), Blank::new(1))
}
