//! That calls succeed, that a snapshot stays as it was, and that another thread can read it.

use crate::{Held, SharedRows};
use std::alloc::Global;
use std::process::Abort;
use std::test::Fail;
use std::thread;
use std::thread::Threads;
use topo_base::Memory;

fn add(rows: &mut SharedRows<Held<u32>>, number: u32) -> Result<(), Memory> {
    let row = Held::new(rows.alloc(), number)?;
    if rows.len() < 1_000_000 {
        rows.reserve(1)?;
        rows.push(row);
    }
    Ok(())
}

/// At each place its own number.
fn numbers(alloc: Global, count: u32) -> Result<SharedRows<Held<u32>>, Memory> {
    let mut rows = SharedRows::new(alloc);
    for number in 0..count {
        add(&mut rows, number)?;
    }
    Ok(rows)
}

/// Puts a number where a row was, or takes the row out.
fn change(rows: &mut SharedRows<Held<u32>>, place: u32, number: Option<u32>) -> Result<(), Memory> {
    rows.reserve_at(place)?;
    if place < rows.len() {
        let _ = rows.take(place);
        if let Some(number) = number {
            rows.set(place, Held::new(rows.alloc(), number)?);
        }
    }
    Ok(())
}

/// How many places have their own number.
fn own_numbers(rows: &SharedRows<Held<u32>>) -> u32 {
    let mut count = 0u32;
    for place in 0..rows.len() {
        if rows.get(place).map(|row| *row.row()) == Some(place) {
            count = count.saturating_add(1);
        }
    }
    count
}

/// Each place is written while a snapshot is out.
fn snapshot_stays(rt: &impl Abort, alloc: Global, count: u32) -> Result<(), Fail> {
    let mut rows = numbers(alloc, count)?;
    rows.seal()?;
    let before = rows.snapshot()?;
    for place in 0..count {
        change(&mut rows, place, Some(count))?;
    }
    add(&mut rows, 7)?;
    assert_eq!(rt; own_numbers(&before), count, "at {count}");
    assert_eq!(rt; own_numbers(&rows), 0, "at {count}");
    Ok(())
}

#[test]
fn snapshots_stay(rt: HostRuntime) -> Result<(), Fail> {
    // about the ends of leaves and branches
    for count in [0, 1, 127, 128, 129, 8191, 8193] {
        snapshot_stays(&rt, rt.alloc(), count)?;
    }
    Ok(())
}

#[test]
fn another_thread_reads(rt: HostRuntime) -> Result<(), Fail> {
    let mut rows = numbers(rt.alloc(), 500)?;
    rows.seal()?;
    let snapshot = rows.snapshot()?;
    let (seen, written) = thread::join(
        &rt,
        move || own_numbers(&snapshot),
        move || change(&mut rows, 9, None),
    );
    written?;
    assert_eq!(&rt; seen, 500);
    Ok(())
}
