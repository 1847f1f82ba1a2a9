//! A square, looked at from inside, below and above, and a change that is staged, dropped and made.

ghost use Rattle.std.specs.Prelude.{◌≡◌, ◌<◌, false, IfOk};

use crate::SlabIndex;
use std::alloc::Global;
use std::marker::Brand;
use std::process::Abort;
use std::sync::ledger::{Blank, Ledger};
use std::test::Fail;
use topo_base::{Dart, EdgeId, EdgeRow, FaceId, Grid, Line, NodeId, Steps};

fn grid(rt: &impl Abort, x: i64, y: i64) -> Grid {
    Grid::of(x, y).expect(rt, "off the grid")
}

fn dart(edge: u32, forward: bool) -> Dart {
    Dart {
        edge: EdgeId(edge),
        forward,
    }
}

/// An edge of this id from one point to another.
fn edge(
    rt: &impl Abort,
    alloc: Global,
    id: u32,
    ends: (i64, i64, i64, i64),
) -> Result<EdgeRow, Fail> {
    let (ax, ay, bx, by) = ends;
    let vertices = vec![in alloc; grid(rt, ax, ay), grid(rt, bx, by)]?;
    Ok(EdgeRow {
        edge_id: EdgeId(id),
        start_node: NodeId(1),
        end_node: NodeId(2),
        next_left_edge: dart(id, true),
        next_right_edge: dart(id, true),
        left_face: FaceId(0),
        right_face: FaceId(0),
        geom: Line::of(vertices).ok().expect(rt, "too short"),
    })
}

/// The square from (0, 0) to (4, 4), whose edge 1 is at the bottom.
fn square(rt: &impl Abort, alloc: Global) -> Result<SlabIndex, Fail>
    ensures { IfOk result (λ index. index.staged ≡ false) }
{
    let mut index = SlabIndex::empty(alloc);
    index.insert(&edge(rt, alloc, 1, (0, 0, 4, 0))?)?;
    index.insert(&edge(rt, alloc, 2, (4, 0, 4, 4))?)?;
    index.insert(&edge(rt, alloc, 3, (4, 4, 0, 4))?)?;
    index.insert(&edge(rt, alloc, 4, (0, 4, 0, 0))?)?;
    Ok(index)
}

/// The dart above a point, on a count of steps of its own.
fn above<L: Ledger>(index: &SlabIndex, point: Grid, blank: Blank) -> Option<Dart>
    requires name { blank.name ≡ L.name }
    requires parts { blank.parts ≡ L.parts }
    requires some { 0 < blank.parts }
{
    let mut steps = Steps::<L>::new(blank);
    index.find_above(point, &mut steps)
}

fn on<L: Ledger>(index: &SlabIndex, point: Grid, blank: Blank) -> Option<EdgeId>
    requires name { blank.name ≡ L.name }
    requires parts { blank.parts ≡ L.parts }
    requires some { 0 < blank.parts }
{
    let mut steps = Steps::<L>::new(blank);
    index.edge_on(point, &mut steps)
}

fn is_above(rt: &impl Abort, index: &SlabIndex, at: (i64, i64), wanted: Option<Dart>) -> bool {
    let (x, y) = at;
    above::<Brand>(index, grid(rt, x, y), Blank::new(1)) == wanted
}

fn is_on(rt: &impl Abort, index: &SlabIndex, at: (i64, i64), wanted: Option<EdgeId>) -> bool {
    let (x, y) = at;
    on::<Brand>(index, grid(rt, x, y), Blank::new(1)) == wanted
}

#[test]
fn finds_what_is_above(rt: HostRuntime) -> Result<(), Fail> {
    let index = square(&rt, rt.alloc())?;
    assert!(rt; is_above(&rt, &index, (1, 1), Some(dart(3, true))));
    assert!(rt; is_above(&rt, &index, (1, -1), Some(dart(1, false))));
    assert!(rt; is_above(&rt, &index, (1, 5), None));
    Ok(())
}

#[test]
fn finds_the_edge_on(rt: HostRuntime) -> Result<(), Fail> {
    let index = square(&rt, rt.alloc())?;
    assert!(rt; is_on(&rt, &index, (0, 1), Some(EdgeId(4))));
    assert!(rt; is_on(&rt, &index, (0, 0), Some(EdgeId(1))));
    assert!(rt; is_on(&rt, &index, (2, 2), None));
    Ok(())
}

/// The edge at the top goes, and comes again from (4, 4) to (0, 2).
#[test]
fn stages_a_change(rt: HostRuntime) -> Result<(), Fail> {
    let mut index = square(&rt, rt.alloc())?;
    let come = [edge(&rt, rt.alloc(), 3, (4, 4, 0, 2))?];
    index.stage(&[EdgeId(3)], &come)?;
    assert!(rt; is_on(&rt, &index, (2, 4), Some(EdgeId(3))));
    index.discard();
    index.stage(&[EdgeId(3)], &come)?;
    index.settle();
    assert!(rt; is_on(&rt, &index, (2, 4), None));
    assert!(rt; is_on(&rt, &index, (2, 3), Some(EdgeId(3))));
    index.remove(EdgeId(3));
    assert!(rt; is_on(&rt, &index, (2, 3), None));
    Ok(())
}
