//! Lines that touch themselves and one another in each way, and splits at vertices and between.

ghost use Rattle.std.specs.Prelude.{◌≡◌, ◌<◌};

use crate::proper::{first_of, is_same_point, last_of};
use crate::{Meeting, is_proper, is_simple, join, lines_meet, split_at};
use std::alloc::Global;
use std::marker::Brand;
use std::process::Abort;
use std::sync::ledger::{Blank, Ledger};
use std::test::Fail;
use topo_base::{Grid, Line, Memory, Steps};

const FAR: i64 = 1 << 40;

fn grid(rt: &impl Abort, x: i64, y: i64) -> Grid {
    Grid::of(x, y).expect(rt, "off the grid")
}

fn line(rt: &impl Abort, alloc: Global, points: &[(i64, i64)]) -> Result<Line, Fail> {
    let mut vertices = Vec::new(alloc);
    for (x, y) in points {
        vertices.push(grid(rt, *x, *y))?;
    }
    Ok(Line::of(vertices).expect(rt, "too few vertices"))
}

fn simple<L: Ledger>(line: &Line, blank: Blank) -> bool
    requires name { blank.name ≡ L.name }
    requires parts { blank.parts ≡ L.parts }
    requires some { 0 < blank.parts }
{
    let mut steps = Steps::<L>::new(blank);
    is_simple(line, &mut steps)
}

fn meeting<L: Ledger>(a: &Line, b: &Line, blank: Blank) -> Meeting
    requires name { blank.name ≡ L.name }
    requires parts { blank.parts ≡ L.parts }
    requires some { 0 < blank.parts }
{
    let mut steps = Steps::<L>::new(blank);
    if is_proper(a) && is_proper(b) {
        lines_meet(a, b, &mut steps)
    } else {
        Meeting::Inside
    }
}

// Each on a count of steps of its own.
fn knows_simple(line: &Line) -> bool {
    simple::<Brand>(line, Blank::new(1))
}

fn how_they_meet(a: &Line, b: &Line) -> Meeting {
    meeting::<Brand>(a, b, Blank::new(1))
}

fn split_counted(alloc: Global, line: &Line, p: Grid) -> Result<Option<(Line, Line)>, Memory> {
    split_simple::<Brand>(alloc, line, p, Blank::new(1))
}

#[test]
fn knows_simple_lines(rt: HostRuntime) -> Result<(), Fail> {
    let simple_lines: [&[(i64, i64)]; 6] = [
        &[(0, 0), (5, 1)],
        &[(-FAR, -FAR), (FAR, FAR - 1), (FAR, FAR)],
        &[(0, 0), (4, 0), (4, 4), (0, 4), (0, 0)],
        &[(0, 0), (4, 0), (0, 4), (0, 0)],
        &[(0, 0), (4, 0), (8, 0)],
        &[
            (0, 0),
            (9, 0),
            (9, 9),
            (1, 9),
            (1, 1),
            (7, 1),
            (7, 7),
            (3, 7),
        ],
    ];
    for points in simple_lines {
        assert!(rt; knows_simple(&line(&rt, rt.alloc(), points)?), "{points:?}");
    }
    Ok(())
}

#[test]
fn knows_lines_that_touch_themselves(rt: HostRuntime) -> Result<(), Fail> {
    let touching: [&[(i64, i64)]; 11] = [
        // two equal neighbours
        &[(0, 0), (0, 0)],
        &[(0, 0), (5, 0), (5, 0), (5, 5)],
        // back over itself, in whole and in part
        &[(0, 0), (5, 0), (0, 0)],
        &[(0, 0), (5, 0), (3, 0)],
        &[(0, 0), (5, 0), (9, 0), (7, 0)],
        // in a vertex, and inside a segment
        &[(0, 0), (4, 0), (4, 4), (0, 4), (4, 0)],
        &[(0, 0), (8, 0), (8, 4), (4, 0), (4, -4)],
        // a figure of eight
        &[(0, 0), (4, 4), (4, 0), (0, 4), (0, 0)],
        &[(0, 0), (4, 0), (4, 4), (0, 0), (-4, 0), (-4, -4), (0, 0)],
        // closed, with an end that comes back inside the first segment
        &[(0, 0), (8, 0), (8, 8), (4, 8), (4, 0)],
        &[(-FAR, 0), (FAR, 1), (FAR, -FAR), (0, FAR), (-FAR, 0)],
    ];
    for points in touching {
        assert!(rt;
            !knows_simple(&line(&rt, rt.alloc(), points)?),
            "{points:?}"
        );
    }
    Ok(())
}

#[test]
fn knows_how_lines_meet(rt: HostRuntime) -> Result<(), Fail> {
    let alloc = rt.alloc();
    let a = line(&rt, alloc, &[(0, 0), (4, 0), (4, 4)])?;
    let rows: [(&[(i64, i64)], Meeting); 9] = [
        (&[(0, 1), (3, 1), (3, 9)], Meeting::Apart),
        (&[(-FAR, -1), (FAR, -1)], Meeting::Apart),
        (&[(0, 0), (-4, 0)], Meeting::AtEnds),
        (&[(4, 4), (0, 4), (0, 0)], Meeting::AtEnds),
        (&[(0, 0), (0, 4), (4, 4)], Meeting::AtEnds),
        (&[(4, 0), (9, 0)], Meeting::Inside),
        (&[(2, 0), (2, -5)], Meeting::Inside),
        (&[(0, 0), (4, 0), (4, 4)], Meeting::Inside),
        (&[(0, -1), (1, 1)], Meeting::Inside),
    ];
    for (points, want) in rows {
        let b = line(&rt, alloc, points)?;
        assert_eq!(rt; how_they_meet(&a, &b), want, "{points:?}");
        assert_eq!(rt; how_they_meet(&b, &a), want, "{points:?}");
    }
    let closed = line(&rt, alloc, &[(0, 0), (4, 0), (0, 4), (0, 0)])?;
    let other = line(&rt, alloc, &[(0, 0), (-4, 0), (0, -4), (0, 0)])?;
    assert_eq!(rt; how_they_meet(&closed, &other), Meeting::AtEnds);
    Ok(())
}

#[test]
fn splits_and_joins(rt: HostRuntime) -> Result<(), Fail> {
    let alloc = rt.alloc();
    let whole = line(&rt, alloc, &[(-FAR, -FAR), (0, 0), (FAR, 0), (FAR, FAR)])?;
    let rows: [((i64, i64), &[(i64, i64)], &[(i64, i64)]); 4] = [
        (
            (0, 0),
            &[(-FAR, -FAR), (0, 0)],
            &[(0, 0), (FAR, 0), (FAR, FAR)],
        ),
        (
            (FAR, 0),
            &[(-FAR, -FAR), (0, 0), (FAR, 0)],
            &[(FAR, 0), (FAR, FAR)],
        ),
        (
            (-1, -1),
            &[(-FAR, -FAR), (-1, -1)],
            &[(-1, -1), (0, 0), (FAR, 0), (FAR, FAR)],
        ),
        (
            (FAR, FAR - 1),
            &[(-FAR, -FAR), (0, 0), (FAR, 0), (FAR, FAR - 1)],
            &[(FAR, FAR - 1), (FAR, FAR)],
        ),
    ];
    assert!(rt; knows_simple(&whole));
    for ((x, y), first, second) in rows {
        let parts = split_counted(alloc, &whole, grid(&rt, x, y))?;
        let (a, b) = parts.expect(&rt, "not inside the line");
        assert_eq!(rt; a.vertices(), line(&rt, alloc, first)?.vertices());
        assert_eq!(rt; b.vertices(), line(&rt, alloc, second)?.vertices());
    }
    for (x, y) in [(-FAR, -FAR), (FAR, FAR), (0, 1), (1 - FAR, -FAR)] {
        assert!(rt; split_counted(alloc, &whole, grid(&rt, x, y))?.is_none());
    }
    let a = line(&rt, alloc, &[(0, 0), (1, 5)])?;
    let b = line(&rt, alloc, &[(1, 5), (2, 2), (0, 0)])?;
    let closed = line(&rt, alloc, &[(0, 0), (1, 5), (2, 2), (0, 0)])?;
    let joined = join_met(alloc, &a, &b)?;
    assert_eq!(rt;
        joined.expect(&rt, "the lines do not meet").vertices(),
        closed.vertices()
    );
    Ok(())
}

fn split_simple<L: Ledger>(
    alloc: Global,
    line: &Line,
    p: Grid,
    blank: Blank,
) -> Result<Option<(Line, Line)>, Memory>
    requires name { blank.name ≡ L.name }
    requires parts { blank.parts ≡ L.parts }
    requires some { 0 < blank.parts }
{
    let mut steps = Steps::<L>::new(blank);
    if is_simple(line, &mut steps) {
        split_at(alloc, line, p)
    } else {
        Ok(None)
    }
}

/// Two lines in a row, if the second begins where the first ends.
fn join_met(alloc: Global, a: &Line, b: &Line) -> Result<Option<Line>, Memory> {
    if !is_same_point(&last_of(a), &first_of(b)) {
        return Ok(None);
    }
    Ok(Some(join(alloc, a, b)?))
}
