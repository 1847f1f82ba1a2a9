//! Stars with near directions, closed edges, and the links round an edge that comes or goes.

ghost use Rattle.std.specs.Prelude.{◌≡◌, ◌<◌, ◌^◌, ◌≤ℤ◌, pos, slice_index, IfOk, IsTrue};
ghost use Rattle.plane.specs.LinePoints.{has_proper_segments};
ghost use Rattle.edge_links.specs.Rays.{has_proper_line};

use crate::about::star_among;
use crate::{Star, has_dart, insert_edge, link_writes, unlink_writes};
use grid_angle::Dir;
use std::alloc::Global;
use std::process::Abort;
use std::test::Fail;
use topo_base::{
    Dart, EdgeId, EdgeRow, FaceId, Grid, Hand, Line, NodeId, RowDart, RowId, RowWrite,
};

fn dart(edge: u32, forward: bool) -> Dart
    ensures { result ≡ record { edge = edge; forward = forward } }
{
    Dart {
        edge: EdgeId(edge),
        forward,
    }
}

/// A star of darts of the edges 1, 2, .. forward, in these directions.
fn star_of(rt: &impl Abort, alloc: Global, parts: &[(i64, i64)]) -> Result<Star, Fail> {
    let mut star = Star::new(alloc);
    let mut edge = 1u32;
    for (dx, dy) in parts {
        let dir = Dir::of(*dx, *dy).expect(rt, "no direction");
        star.insert(dart(edge, true), dir)?;
        edge = edge.saturating_add(1);
    }
    Ok(star)
}

/// The numbers of the edges in the order of their darts.
fn edges_in(alloc: Global, star: &Star) -> Result<Vec<u32>, Fail> {
    let mut edges = Vec::new(alloc);
    for dart in star.darts() {
        edges.push(dart.edge.0)?;
    }
    Ok(edges)
}

fn expect_edges(rt: &impl Abort, alloc: Global, star: &Star, wanted: &[u32]) -> Result<(), Fail> {
    let edges = edges_in(alloc, star)?;
    assert_eq!(rt; edges.as_slice(), wanted);
    Ok(())
}

/// Three directions of which each is a cross product of 1 from the next, put in in this order, and the
/// edges as they then stand.
fn expect_near(
    rt: &impl Abort,
    alloc: Global,
    n: i64,
    order: [usize; 3],
    wanted: [u32; 3],
) -> Result<(), Fail>
    requires n { (pos 2 ≤ℤ n) × (n ≤ℤ pos (2 ^ 40)) }
    requires order { (slice_index order 0 < 3) × (slice_index order 1 < 3) × (slice_index order 2 < 3) }
{
    let near = [(n - 2, n - 1), (n - 1, n), (n, n + 1)];
    let star = star_of(rt, alloc, &[near[order[0]], near[order[1]], near[order[2]]])?;
    expect_edges(rt, alloc, &star, &wanted)
}

#[test]
fn has_no_darts_at_first(rt: HostRuntime) -> Result<(), Fail> {
    let star = Star::new(rt.alloc());
    assert!(rt; star.darts().is_empty());
    assert!(rt; star.dirs().is_empty());
    Ok(())
}

/// The direction that is put in first is not always the first clockwise: (n, n + 1) is nearest to
/// straight up of the three, since its slope is the least steep above 1.
fn expect_all_near(rt: &impl Abort, alloc: Global, n: i64) -> Result<(), Fail>
    requires { (pos 2 ≤ℤ n) × (n ≤ℤ pos (2 ^ 40)) }
{
    expect_near(rt, alloc, n, [0, 1, 2], [1, 2, 3])?;
    expect_near(rt, alloc, n, [0, 2, 1], [1, 3, 2])?;
    expect_near(rt, alloc, n, [1, 0, 2], [2, 1, 3])?;
    expect_near(rt, alloc, n, [1, 2, 0], [3, 1, 2])?;
    expect_near(rt, alloc, n, [2, 0, 1], [2, 3, 1])?;
    expect_near(rt, alloc, n, [2, 1, 0], [3, 2, 1])
}

#[test]
fn tells_near_directions_apart(rt: HostRuntime) -> Result<(), Fail> {
    for n in [1i64 << 25, 1i64 << 30, 1i64 << 40] {
        expect_all_near(&rt, rt.alloc(), n)?;
    }
    Ok(())
}

/// The star of five darts, whose order is 3, 5, 4, 1, 2.
fn five(rt: &impl Abort, alloc: Global) -> Result<Star, Fail> {
    star_of(rt, alloc, &[(0, -3), (-1, 0), (0, 7), (2, -1), (1, 1)])
}

#[test]
fn orders_five_darts(rt: HostRuntime) -> Result<(), Fail> {
    let star = five(&rt, rt.alloc())?;
    expect_edges(&rt, rt.alloc(), &star, &[3, 5, 4, 1, 2])?;
    assert_eq!(rt; star.dirs().len(), 5);
    assert_eq!(rt; (star.dirs()[2].dx(), star.dirs()[2].dy()), (2, -1));
    Ok(())
}

fn grid(rt: &impl Abort, x: i64, y: i64) -> Grid {
    Grid::of(x, y).expect(rt, "off the grid")
}

/// A line through four points, the neighbours of which differ.
fn line(rt: &impl Abort, alloc: Global, points: [(i64, i64); 4]) -> Result<Line, Fail>
    ensures { IfOk result (λ l. IsTrue (has_proper_segments l)) }
{
    let first = grid(rt, points[0].0, points[0].1);
    let second = grid(rt, points[1].0, points[1].1);
    let third = grid(rt, points[2].0, points[2].1);
    let last = grid(rt, points[3].0, points[3].1);
    assert!(rt; first != second);
    assert!(rt; second != third);
    assert!(rt; third != last);
    let vertices = vec![in alloc; first, second, third, last]?;
    match Line::of(vertices) {
        Ok(line) => Ok(line),
        Err(_) => unreachable!(),
    }
}

/// The darts as pairs of an edge and whether it is walked forward.
fn expect_darts(rt: &impl Abort, star: &Star, wanted: &[(u32, bool)]) {
    assert_eq!(rt; star.darts().len(), wanted.len());
    for (dart, (edge, forward)) in star.darts().iter().zip(wanted) {
        assert_eq!(rt; dart.edge.0, *edge);
        assert_eq!(rt; dart.forward, *forward);
    }
}

/// A closed edge has both of its darts at its node, and another edge one.
#[test]
fn puts_edges_in(rt: HostRuntime) -> Result<(), Fail> {
    let alloc = rt.alloc();
    let node = NodeId(1);
    let mut star = Star::new(alloc);
    let round = line(&rt, alloc, [(0, 0), (0, 9), (9, 0), (0, 0)])?;
    insert_edge(&mut star, node, EdgeId(1), node, node, &round)?;
    expect_darts(&rt, &star, &[(1, true), (1, false)]);
    let away = line(&rt, alloc, [(0, 0), (5, 5), (9, 9), (9, 20)])?;
    insert_edge(&mut star, node, EdgeId(2), node, NodeId(2), &away)?;
    insert_edge(&mut star, node, EdgeId(3), NodeId(2), NodeId(3), &away)?;
    expect_darts(&rt, &star, &[(1, true), (2, true), (1, false)]);
    let back = line(&rt, alloc, [(9, 20), (-7, 8), (-9, -9), (0, 0)])?;
    insert_edge(&mut star, node, EdgeId(4), NodeId(2), node, &back)?;
    expect_darts(&rt, &star, &[(1, true), (2, true), (1, false), (4, false)]);
    Ok(())
}

fn is_link(write: &RowWrite, back: (u32, bool), next: (u32, bool)) -> bool {
    let wanted = RowDart {
        edge: RowId::Old(next.0),
        forward: next.1,
    };
    let on = if back.1 { Hand::Right } else { Hand::Left };
    match write {
        RowWrite::SetNext { edge, hand, next } => {
            *edge == RowId::Old(back.0) && *hand == on && *next == wanted
        }
        _ => false,
    }
}

/// The writes round the dart, which link the dart before it, walked back, to it, and it, walked back,
/// to the dart after it.
fn expect_links(
    rt: &impl Abort,
    alloc: Global,
    star: &Star,
    own: (u32, bool),
    before: (u32, bool),
    after: (u32, bool),
) -> Result<(), Fail> {
    let dart = dart(own.0, own.1);
    assert!(rt; has_dart(star, &dart));
    let writes = link_writes(alloc, star, dart)?;
    assert_eq!(rt; writes.as_slice().len(), 2);
    assert!(rt; is_link(&writes.as_slice()[0], before, own));
    assert!(rt; is_link(&writes.as_slice()[1], own, after));
    Ok(())
}

#[test]
fn links_darts(rt: HostRuntime) -> Result<(), Fail> {
    let alloc = rt.alloc();
    let star = five(&rt, alloc)?;
    expect_links(&rt, alloc, &star, (4, true), (5, true), (1, true))?;
    expect_links(&rt, alloc, &star, (3, true), (2, true), (5, true))?;
    expect_links(&rt, alloc, &star, (2, true), (1, true), (3, true))?;
    assert!(rt; !has_dart(&star, &dart(4, false)));
    assert!(rt; !has_dart(&star, &dart(6, true)));
    let lone = star_of(&rt, alloc, &[(1, -1)])?;
    expect_links(&rt, alloc, &lone, (1, true), (1, true), (1, true))
}

fn row(edge: u32, start: u32, end: u32, geom: Line) -> EdgeRow
    requires { IsTrue (has_proper_segments geom) }
    ensures { IsTrue (has_proper_line result) }
{
    EdgeRow {
        edge_id: EdgeId(edge),
        start_node: NodeId(start),
        end_node: NodeId(end),
        next_left_edge: dart(edge, false),
        next_right_edge: dart(edge, true),
        left_face: FaceId(0),
        right_face: FaceId(0),
        geom,
    }
}

/// Of a closed edge, and one that ends at the node.
#[test]
fn finds_stars(rt: HostRuntime) -> Result<(), Fail> {
    let alloc = rt.alloc();
    let round = line(&rt, alloc, [(0, 0), (0, -9), (9, -9), (0, 0)])?;
    let back = line(&rt, alloc, [(9, 20), (-7, 8), (-9, -9), (0, 0)])?;
    let closed = row(1, 1, 1, round);
    let ends = row(3, 2, 1, back);
    let rows = [&closed, &ends];
    let star = star_among(alloc, &rows, NodeId(1))?;
    expect_darts(&rt, &star, &[(1, false), (1, true), (3, false)]);
    let other = star_among(alloc, &rows, NodeId(2))?;
    expect_darts(&rt, &other, &[(3, true)]);
    expect_links(&rt, alloc, &star, (1, true), (1, false), (3, false))?;
    expect_links(&rt, alloc, &star, (1, false), (3, false), (1, true))
}

/// A star of up to four darts, in this order.
fn star_in_order(rt: &impl Abort, alloc: Global, darts: &[(u32, bool)]) -> Result<Star, Fail> {
    let mut star = Star::new(alloc);
    let dirs = [(0, 1), (1, 0), (0, -1), (-1, 0)];
    for ((edge, forward), (dx, dy)) in darts.iter().zip(dirs.iter()) {
        let dir = Dir::of(*dx, *dy).expect(rt, "no direction");
        star.insert(dart(*edge, *forward), dir)?;
    }
    Ok(star)
}

/// The links by which these darts follow where edge 2 goes.
fn expect_unlinks(
    rt: &impl Abort,
    alloc: Global,
    darts: &[(u32, bool)],
    wanted: &[((u32, bool), (u32, bool))],
) -> Result<(), Fail> {
    let star = star_in_order(rt, alloc, darts)?;
    expect_darts(rt, &star, darts);
    let writes = unlink_writes(alloc, &star, EdgeId(2))?;
    assert_eq!(rt; writes.as_slice().len(), wanted.len());
    for (write, (back, next)) in writes.as_slice().iter().zip(wanted) {
        assert!(rt; is_link(write, *back, *next));
    }
    Ok(())
}

const OUT: (u32, bool) = (2, true);

const BACK: (u32, bool) = (2, false);

const ONE: (u32, bool) = (1, true);

const THREE: (u32, bool) = (3, false);

#[test]
fn unlinks_one_dart(rt: HostRuntime) -> Result<(), Fail> {
    let alloc = rt.alloc();
    expect_unlinks(&rt, alloc, &[ONE, OUT, THREE], &[(ONE, THREE)])?;
    expect_unlinks(&rt, alloc, &[BACK, ONE, THREE], &[(THREE, ONE)])?;
    expect_unlinks(&rt, alloc, &[ONE, OUT], &[(ONE, ONE)])?;
    expect_unlinks(&rt, alloc, &[OUT], &[])?;
    expect_unlinks(&rt, alloc, &[ONE, THREE], &[])
}

/// The darts of a closed edge are neighbours, stand apart, or are all there are.
#[test]
fn unlinks_closed_edges(rt: HostRuntime) -> Result<(), Fail> {
    let alloc = rt.alloc();
    expect_unlinks(&rt, alloc, &[ONE, OUT, BACK, THREE], &[(ONE, THREE)])?;
    expect_unlinks(&rt, alloc, &[BACK, ONE, THREE, OUT], &[(THREE, ONE)])?;
    expect_unlinks(
        &rt,
        alloc,
        &[OUT, ONE, BACK, THREE],
        &[(ONE, THREE), (THREE, ONE)],
    )?;
    expect_unlinks(&rt, alloc, &[OUT, ONE, BACK], &[(ONE, ONE)])?;
    expect_unlinks(&rt, alloc, &[OUT, BACK], &[])
}
