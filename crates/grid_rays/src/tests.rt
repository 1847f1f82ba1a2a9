//! Walks whose top vertex stands twice or is as high as another, spikes, holes and shells, and rays
//! through vertices.

ghost use Rattle.std.specs.Prelude.{◌≡◌, ◌<◌};

use crate::{Ring, crossings_above, inside, is_shell, top_vertex};
use std::alloc::Global;
use std::marker::Brand;
use std::process::Abort;
use std::sync::ledger::{Blank, Ledger};
use topo_base::{Grid, Line, Steps};

const FAR: i64 = 1 << 40;

fn grid(rt: &impl Abort, at: (i64, i64)) -> Grid {
    Grid::of(at.0, at.1).expect(rt, "off the grid")
}

fn vertices(rt: &impl Abort, alloc: Global, places: &[(i64, i64)]) -> Vec<Grid> {
    let mut vertices = Vec::new(alloc);
    for at in places {
        vertices.push(grid(rt, *at)).expect(rt, "memory");
    }
    vertices
}

fn ring(rt: &impl Abort, alloc: Global, places: &[(i64, i64)]) -> Ring {
    match Ring::of(vertices(rt, alloc, places)) {
        Ok(ring) => ring,
        Err(_) => panic!(rt; "too few vertices"),
    }
}

/// How many segments are above a point, counted on the steps of a ledger.
fn counted<L: Ledger>(p: Grid, line: &Line, blank: Blank) -> u64
    requires name { blank.name ≡ L.name }
    requires parts { blank.parts ≡ L.parts }
    requires some { 0 < blank.parts }
{
    let mut steps = Steps::<L>::new(blank);
    crossings_above(p, line, &mut steps)
}

/// How many segments are above a point, on a count of steps of its own.
fn crossings(rt: &impl Abort, at: (i64, i64), line: &Line) -> u64 {
    counted::<Brand>(grid(rt, at), line, Blank::new(1))
}

#[test]
fn keeps_at_least_two_vertices(rt: HostRuntime) {
    assert!(rt; Ring::of(vertices(&rt, rt.alloc(), &[(1, 2)])).is_err());
    let walk = ring(&rt, rt.alloc(), &[(1, 2), (3, 4)]);
    assert_eq!(rt; walk.vertices().len(), 2);
}

#[test]
fn finds_the_top(rt: HostRuntime) {
    assert_eq!(rt; top_vertex(&ring(&rt, rt.alloc(), &[(0, 0), (2, 0)])), 1);
    assert_eq!(rt;
        top_vertex(&ring(&rt, rt.alloc(), &[(0, 5), (-3, 5), (1, 4)])),
        0
    );
    let twice = ring(&rt, rt.alloc(), &[(0, 0), (1, 3), (2, 0), (1, 3), (1, 1)]);
    assert_eq!(rt; top_vertex(&twice), 1);
    assert_eq!(rt;
        top_vertex(&ring(&rt, rt.alloc(), &[(9, 0), (-FAR, FAR), (1 - FAR, FAR)])),
        2
    );
}

#[test]
fn tells_shells_from_holes(rt: HostRuntime) {
    let counter_clockwise = ring(&rt, rt.alloc(), &[(0, 0), (4, 0), (4, 4), (0, 4)]);
    assert!(rt; is_shell(&counter_clockwise));
    let clockwise = ring(&rt, rt.alloc(), &[(0, 0), (0, 4), (4, 4), (4, 0)]);
    assert!(rt; !is_shell(&clockwise));
    // out and back again
    assert!(rt; !is_shell(&ring(&rt, rt.alloc(), &[(0, 0), (0, 7)])));
    assert!(rt; !is_shell(&ring(&rt, rt.alloc(), &[(0, 0), (3, 0), (7, 0), (3, 0)])));
}

#[test]
fn sees_every_stand_at_the_top(rt: HostRuntime) {
    // a triangle, and one in it that hangs from the same top: what is between them on the left
    let between = ring(
        &rt,
        rt.alloc(),
        &[(0, 9), (-9, 0), (9, 0), (0, 9), (2, 3), (-2, 3)],
    );
    assert!(rt; is_shell(&between));
    // two triangles that hang from one top, with what is round them on the left
    let round = ring(
        &rt,
        rt.alloc(),
        &[(0, 9), (4, 0), (1, 0), (0, 9), (-1, 0), (-4, 0)],
    );
    assert!(rt; !is_shell(&round));
    // a spike from the top into a triangle, and one out of its top
    let inward = [(0, 9), (-4, 0), (4, 0), (0, 9), (0, 5)];
    assert!(rt; is_shell(&ring(&rt, rt.alloc(), &inward)));
    let outward = [(0, 9), (4, 0), (-4, 0), (0, 9), (0, 12)];
    assert!(rt; !is_shell(&ring(&rt, rt.alloc(), &outward)));
}

#[test]
fn counts_rays(rt: HostRuntime) {
    let line = match Line::of(vertices(
        &rt,
        rt.alloc(),
        &[(0, 4), (4, 4), (8, 8), (8, 0), (2, 2)],
    )) {
        Ok(line) => line,
        Err(_) => panic!(rt; "too few vertices"),
    };
    for (at, count) in [
        ((0, 0), 1),
        ((-1, 0), 0),
        ((4, 0), 2),
        ((4, 4), 0),
        ((4, 3), 1),
        ((8, 0), 0),
        ((2, 2), 1),
        ((7, -9), 2),
    ] {
        let found = crossings(&rt, at, &line);
        assert_eq!(rt; found, count, "at {at:?}");
    }
}

#[test]
fn knows_the_inside(rt: HostRuntime) {
    let walk = ring(&rt, rt.alloc(), &[(0, 0), (4, 0), (4, 4), (2, 1), (0, 4)]);
    assert!(rt; inside(grid(&rt, (1, 1)), &walk));
    assert!(rt; inside(grid(&rt, (3, 1)), &walk));
    assert!(rt; !inside(grid(&rt, (2, 2)), &walk));
    assert!(rt; !inside(grid(&rt, (4, 1)), &walk));
    assert!(rt; inside(grid(&rt, (0, 1)), &walk));
    assert!(rt; !inside(grid(&rt, (2, -1)), &walk));
    let wide = ring(&rt, rt.alloc(), &[(-FAR, -FAR), (FAR, -FAR), (FAR, FAR)]);
    assert!(rt; inside(grid(&rt, (0, -1)), &wide));
    assert!(rt; !inside(grid(&rt, (0, 0)), &wide));
}
