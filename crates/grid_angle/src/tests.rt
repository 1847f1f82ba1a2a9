//! Sharp cases of the order about a point.

ghost use Rattle.std.specs.Prelude.{◌≡◌};
ghost use Rattle.plane.specs.Direction.{IsGridDirection};

use crate::{Dir, clockwise, wedge};
use std::cmp::Ordering;
use topo_base::Grid;

const FAR: i64 = 1 << 40;

fn dir(dx: i64, dy: i64) -> Dir
    requires { IsGridDirection (record { dx = dx; dy = dy }) }
    ensures { result ≡ record { dx = dx; dy = dy } }
{
    match Dir::of(dx, dy) {
        Some(dir) => dir,
        None => unreachable!(),
    }
}

#[test]
fn makes_directions(rt: HostRuntime) {
    let limit: i64 = 1 << 41;
    for (dx, dy, is_there) in [
        (0, 0, false),
        (0, -1, true),
        (limit, -limit, true),
        (limit + 1, 0, false),
        (0, -limit - 1, false),
    ] {
        assert_eq!(rt; Dir::of(dx, dy).is_some(), is_there, "at {dx} {dy}");
    }
    let low = Grid::of(-FAR, -FAR).expect(&rt, "on the grid");
    let high = Grid::of(FAR, FAR - 1).expect(&rt, "on the grid");
    let up = Dir::between(low, high).expect(&rt, "two points");
    assert_eq!(rt; (up.dx(), up.dy()), (limit, limit - 1));
    assert!(rt; Dir::between(low, low).is_none());
}

/// Three directions of which the second is to the left of the first and the third to the left of
/// the second, each by a cross product of 1.
#[test]
fn tells_close_directions_apart(rt: HostRuntime) {
    for n in [1i64 << 25, 1i64 << 30, 1i64 << 40] {
        for (first, second, third) in [
            ((n, n + 1), (n - 1, n), (n - 2, n - 1)),
            ((n + 1, -n), (n, 1 - n), (n - 1, 2 - n)),
        ] {
            let far = Dir::of(first.0, first.1).expect(&rt, "a direction");
            let b = Dir::of(second.0, second.1).expect(&rt, "a direction");
            let near = Dir::of(third.0, third.1).expect(&rt, "a direction");
            assert!(rt; clockwise(near, near, b) == Ordering::Less, "{n}");
            assert!(rt; clockwise(near, b, far) == Ordering::Less, "{n}");
            assert!(rt; clockwise(near, far, b) == Ordering::Greater, "{n}");
            assert!(rt; clockwise(b, far, near) == Ordering::Less, "{n}");
            assert!(rt; clockwise(b, near, far) == Ordering::Greater, "{n}");
            assert!(rt; clockwise(far, near, b) == Ordering::Less, "{n}");
            assert!(rt; clockwise(far, b, far) == Ordering::Greater, "{n}");
            assert!(rt; clockwise(far, b, b) == Ordering::Equal, "{n}");
        }
    }
}

#[test]
fn finds_wedges(rt: HostRuntime) {
    let star = [dir(0, 1), dir(1, 1), dir(2, -1), dir(0, -3), dir(-1, 0)];
    for (dx, dy, place) in [
        (1, 2, Some(0)),
        (0, 5, None),
        (1, 0, Some(1)),
        (1, -1, Some(2)),
        (0, -1, None),
        (-1, -1, Some(3)),
        (-7, 1, Some(4)),
        (-1, 7, Some(4)),
    ] {
        let found = wedge(&star, dir(dx, dy));
        assert_eq!(rt; found, place, "at {dx} {dy}");
    }
}

#[test]
fn turns_fully_about_one(rt: HostRuntime) {
    let star = [dir(3, -4)];
    assert_eq!(rt; wedge(&star, dir(-3, 4)), Some(0));
    assert_eq!(rt; wedge(&star, dir(1 << 40, -(1 << 40))), Some(0));
    assert_eq!(rt; wedge(&star, dir(6, -8)), None);
}
