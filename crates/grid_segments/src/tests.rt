//! Points as near to long segments as the grid allows, and each way in which two segments meet.

ghost use Rattle.std.specs.Prelude.{◌≡◌, ◌<◌};

use crate::{Relation, Seg, on_segment, relate, side};
use std::marker::Brand;
use std::process::Abort;
use std::sync::ledger::{Blank, Ledger};
use topo_base::{Grid, Side, Steps};

const FAR: i64 = 1 << 40;

fn grid(rt: &impl Abort, x: i64, y: i64) -> Grid {
    Grid::of(x, y).expect(rt, "off the grid")
}

fn segment(rt: &impl Abort, ends: (i64, i64, i64, i64)) -> Seg {
    let (ax, ay, bx, by) = ends;
    Seg::of(grid(rt, ax, ay), grid(rt, bx, by)).expect(rt, "two equal ends")
}

/// How two segments relate, on a count of steps of its own.
fn counted<L: Ledger>(s: &Seg, t: &Seg, blank: Blank) -> Relation
    requires name { blank.name ≡ L.name }
    requires parts { blank.parts ≡ L.parts }
    requires some { 0 < blank.parts }
{
    let mut steps = Steps::<L>::new(blank);
    relate(s, t, &mut steps)
}

fn relation(rt: &impl Abort, s: (i64, i64, i64, i64), t: (i64, i64, i64, i64)) -> Relation {
    counted::<Brand>(&segment(rt, s), &segment(rt, t), Blank::new(1))
}

#[test]
fn reads_ends(rt: HostRuntime) {
    let s = segment(&rt, (-FAR, 3, FAR, -3));
    assert_eq!(rt; s.from(), grid(&rt, -FAR, 3));
    assert_eq!(rt; s.to(), grid(&rt, FAR, -3));
    assert!(rt; Seg::of(s.from(), s.from()).is_none());
}

#[test]
fn sees_the_nearest_points(rt: HostRuntime) {
    let s = segment(&rt, (-FAR, -FAR, FAR, FAR - 1));
    assert_eq!(rt; side(grid(&rt, 0, 0), &s), Side::Left);
    assert_eq!(rt; side(grid(&rt, -1, -1), &s), Side::Left);
    assert_eq!(rt; side(grid(&rt, 1, 0), &s), Side::Right);
    assert!(rt; !on_segment(grid(&rt, 0, 0), &s));
    let flat = segment(&rt, (-FAR, 0, FAR - 1, 1));
    assert_eq!(rt; side(grid(&rt, -FAR + 1, 0), &flat), Side::Right);
    assert_eq!(rt; side(grid(&rt, FAR - 2, 1), &flat), Side::Left);
    assert_eq!(rt; side(grid(&rt, FAR - 1, 1), &flat), Side::On);
    assert!(rt; !on_segment(grid(&rt, 0, 1), &flat));
}

#[test]
fn knows_points_on_segments(rt: HostRuntime) {
    let s = segment(&rt, (-FAR, -FAR, FAR, FAR));
    assert!(rt; on_segment(grid(&rt, 1, 1), &s));
    assert!(rt; on_segment(grid(&rt, FAR, FAR), &s));
    assert!(rt; on_segment(grid(&rt, -FAR, -FAR), &s));
    let upright = segment(&rt, (5, FAR, 5, 0));
    assert!(rt; on_segment(grid(&rt, 5, 7), &upright));
    assert!(rt; !on_segment(grid(&rt, 5, -1), &upright));
    assert_eq!(rt; side(grid(&rt, 5, -1), &upright), Side::On);
    assert_eq!(rt; side(grid(&rt, 6, 0), &upright), Side::Left);
    assert_eq!(rt; side(grid(&rt, 4, 0), &upright), Side::Right);
}

#[test]
fn relates_crossing_segments(rt: HostRuntime) {
    let long = (-FAR, -FAR, FAR, FAR);
    assert_eq!(rt; relation(&rt, long, (-FAR, FAR, FAR, -FAR)), Relation::Meet);
    assert_eq!(rt; relation(&rt, long, (-FAR, FAR, 0, 0)), Relation::Meet);
    assert_eq!(rt; relation(&rt, long, (-FAR, FAR, 0, 1)), Relation::Apart);
    assert_eq!(rt;
        relation(&rt, long, (FAR, FAR, FAR, -FAR)),
        Relation::TouchEnds
    );
    assert_eq!(rt;
        relation(&rt, long, (-FAR, -FAR, FAR, FAR - 1)),
        Relation::TouchEnds
    );
    assert_eq!(rt;
        relation(&rt, long, (-FAR + 1, -FAR, FAR, FAR - 1)),
        Relation::Apart
    );
    assert_eq!(rt;
        relation(&rt, long, (-FAR + 1, -FAR, FAR - 1, FAR)),
        Relation::Meet
    );
    assert_eq!(rt;
        relation(&rt, (0, -FAR, 0, FAR), (-FAR, 0, FAR, 0)),
        Relation::Meet
    );
    assert_eq!(rt;
        relation(&rt, (0, -FAR, 0, FAR), (0, 0, FAR, 0)),
        Relation::Meet
    );
    assert_eq!(rt;
        relation(&rt, (0, -FAR, 0, FAR), (1, 0, FAR, 0)),
        Relation::Apart
    );
}

#[test]
fn relates_segments_on_one_line(rt: HostRuntime) {
    let long = (-FAR, -FAR, 0, 0);
    assert_eq!(rt; relation(&rt, long, (0, 0, FAR, FAR)), Relation::TouchEnds);
    assert_eq!(rt; relation(&rt, long, (FAR, FAR, 0, 0)), Relation::TouchEnds);
    assert_eq!(rt; relation(&rt, long, (1, 1, FAR, FAR)), Relation::Apart);
    assert_eq!(rt; relation(&rt, long, (-1, -1, FAR, FAR)), Relation::Overlap);
    assert_eq!(rt; relation(&rt, long, (0, 0, -FAR, -FAR)), Relation::Overlap);
    assert_eq!(rt; relation(&rt, long, (-2, -2, -1, -1)), Relation::Overlap);
    assert_eq!(rt;
        relation(&rt, long, (-FAR, -FAR + 1, -1, 0)),
        Relation::Apart
    );
    let upright = (7, -FAR, 7, 0);
    assert_eq!(rt; relation(&rt, upright, (7, FAR, 7, 0)), Relation::TouchEnds);
    assert_eq!(rt; relation(&rt, upright, (7, FAR, 7, -1)), Relation::Overlap);
    assert_eq!(rt; relation(&rt, upright, (7, FAR, 7, 1)), Relation::Apart);
    let level = (-FAR, 7, 0, 7);
    assert_eq!(rt; relation(&rt, level, (FAR, 7, 0, 7)), Relation::TouchEnds);
    assert_eq!(rt; relation(&rt, level, (FAR, 7, -1, 7)), Relation::Overlap);
    assert_eq!(rt; relation(&rt, level, (FAR, 7, 1, 7)), Relation::Apart);
}
