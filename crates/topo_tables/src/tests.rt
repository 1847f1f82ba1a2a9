//! Nodes that come and go, and a copy that later writes leave alone.

ghost use Rattle.std.specs.Prelude.{◌≡◌, ◌<◌};

use crate::{Tables, Writes};
use std::alloc::Global;
use std::marker::Brand;
use std::process::Abort;
use std::sync::ledger::{Blank, Ledger};
use std::test::Fail;
use topo_base::{Grid, NodeId, RowId, RowWrite, Steps};

fn grid(rt: &impl Abort, x: i64, y: i64) -> Grid {
    Grid::of(x, y).expect(rt, "off the grid")
}

fn node_comes(node: u32, geom: Grid) -> RowWrite
    ensures { result ≡ RowWrite.AddNode (RowId.Old node) None geom }
{
    RowWrite::AddNode {
        node: RowId::Old(node),
        face: None,
        geom,
    }
}

/// A node more, by a write.
fn put<L: Ledger>(
    rt: &impl Abort,
    alloc: Global,
    tables: &mut Tables,
    geom: Grid,
    steps: &mut Steps<L>,
) -> Result<(), Fail> {
    let next = tables.counters().node;
    assert!(rt; next < 1000);
    let mut writes = Writes::new(alloc);
    writes.push(node_comes(next, geom))?;
    assert_eq!(rt; writes.as_slice().len(), 1);
    tables.reserve(&writes)?;
    assert_eq!(rt; writes.into_vec().len(), 1);
    tables.write(node_comes(next, geom), steps);
    Ok(())
}

/// A node less, by a write, where the node is there.
fn drop_from<L: Ledger>(tables: &mut Tables, node: NodeId, steps: &mut Steps<L>) {
    if tables.node(node, steps).is_some() {
        tables.write(
            RowWrite::DropNode {
                node: RowId::Old(node.0),
            },
            steps,
        );
    }
}

/// Where the node is, if it is there.
fn point_of<L: Ledger>(tables: &Tables, node: NodeId, steps: &mut Steps<L>) -> Option<Grid> {
    tables.node(node, steps).map(|row| row.geom)
}

fn nodes_come_and_go<L: Ledger>(rt: &impl Abort, alloc: Global, blank: Blank) -> Result<(), Fail>
    requires name { blank.name ≡ L.name }
    requires parts { blank.parts ≡ L.parts }
    requires some { 0 < blank.parts }
{
    let mut steps = Steps::<L>::new(blank);
    let mut tables = Tables::empty(alloc);
    put(rt, alloc, &mut tables, grid(rt, 1, 0), &mut steps)?;
    put(rt, alloc, &mut tables, grid(rt, 2, 0), &mut steps)?;
    let before = tables.copy(alloc)?;
    drop_from(&mut tables, NodeId(2), &mut steps);
    assert!(rt; point_of(&tables, NodeId(2), &mut steps).is_none());
    assert_eq!(rt;
        point_of(&before, NodeId(2), &mut steps),
        Some(grid(rt, 2, 0))
    );
    Ok(())
}

#[test]
fn rows_follow_writes(rt: HostRuntime) -> Result<(), Fail> {
    nodes_come_and_go::<Brand>(&rt, rt.alloc(), Blank::new(1))
}
