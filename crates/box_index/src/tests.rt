//! Boxes that come, are found and go.

ghost use Rattle.std.specs.Prelude.{IfSome};
ghost use Rattle.box_index.specs.Boxes.{IsBox};

use crate::{BoxIndex, Entry};
use std::alloc::Global;
use std::process::Abort;
use std::test::Fail;
use topo_base::{Box4, Grid};

/// The box between two corners, where they are on the grid and in order.
fn between(min_x: i64, min_y: i64, max_x: i64, max_y: i64) -> Option<Box4>
    ensures { IfSome result (λ b. IsBox b) }
{
    if Grid::of(min_x, min_y).is_none() {
        return None;
    }
    if Grid::of(max_x, max_y).is_none() {
        return None;
    }
    if max_x < min_x {
        return None;
    }
    if max_y < min_y {
        return None;
    }
    Some(Box4 {
        min_x,
        min_y,
        max_x,
        max_y,
    })
}

fn insert(
    rt: &impl Abort,
    index: &mut BoxIndex,
    id: u32,
    low: (i64, i64),
    high: (i64, i64),
) -> Result<(), Fail> {
    let bounds = between(low.0, low.1, high.0, high.1).expect(rt, "no box");
    index.reserve(1)?;
    if index.len() < 100 {
        index.insert(Entry { id, bounds });
    }
    Ok(())
}

fn remove(
    rt: &impl Abort,
    index: &mut BoxIndex,
    id: u32,
    low: (i64, i64),
    high: (i64, i64),
) -> bool {
    let bounds = between(low.0, low.1, high.0, high.1).expect(rt, "no box");
    index.remove(&Entry { id, bounds })
}

/// The sum of the ids near an area.
fn ids_near(rt: &impl Abort, index: &BoxIndex, low: (i64, i64), high: (i64, i64)) -> u32 {
    let area = between(low.0, low.1, high.0, high.1).expect(rt, "no box");
    let mut sum = 0u32;
    let mut near = index.near(&area);
    while let Some(entry) = near.next() {
        sum = sum.saturating_add(entry.id);
    }
    sum
}

fn long_and_short(rt: &impl Abort, alloc: Global) -> Result<BoxIndex, Fail> {
    let mut index = BoxIndex::new(alloc);
    insert(rt, &mut index, 1, (0, 0), (1, 1))?;
    insert(rt, &mut index, 2, (1, 1), (3, 2))?;
    insert(rt, &mut index, 4, (-40, 1), (40, 1))?;
    insert(rt, &mut index, 8, (7, -5), (7, -5))?;
    Ok(index)
}

#[test]
fn boxes_that_touch_are_near(rt: HostRuntime) -> Result<(), Fail> {
    let index = long_and_short(&rt, rt.alloc())?;
    assert_eq!(rt; ids_near(&rt, &index, (1, 0), (1, 1)), 7);
    assert_eq!(rt; ids_near(&rt, &index, (4, -9), (7, 1)), 12);
    Ok(())
}

#[test]
fn an_entry_goes_with_its_own_box(rt: HostRuntime) -> Result<(), Fail> {
    let mut index = long_and_short(&rt, rt.alloc())?;
    assert_eq!(rt; remove(&rt, &mut index, 2, (1, 1), (3, 3)), false);
    assert_eq!(rt; remove(&rt, &mut index, 2, (1, 1), (3, 2)), true);
    assert_eq!(rt; ids_near(&rt, &index, (-50, -50), (50, 50)), 13);
    Ok(())
}
