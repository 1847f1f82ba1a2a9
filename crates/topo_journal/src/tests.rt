//! Journals over disks that stop or fail at each call, read back by the plain reader.

ghost use Rattle.std.specs.Prelude.{◌≡◌, ◌⊎◌, ◌<◌, ◌+◌, ◌^◌, ◌++◌, [], ◌∷◌, List, ℕ, true, false, length, OnOk};
ghost use Rattle.topo_journal.specs.Bytes.{Legal, AreLegal, Stands, is_not_yet};
ghost use Rattle.topo_journal.specs.Kept.{IsFrame, body_in, history, start_of};

use crate::reopen::resume;
use crate::{Journal, Plain, begin, create, frame_of, read_plainly};
use std::alloc::Global;
use std::process::Abort;
use std::test::Fail;
use topo_base::Memory;
use topo_disk::{Call, Called, Disk, Failed, Fused, MemDisk};

// The bodies that bytes stand for, each of one byte: None where they are bad.
fn read_back(alloc: Global, bytes: &[u8]) -> Result<Option<Vec<u8>>, Memory> {
    let mut found = Vec::new(alloc);
    match read_plainly(alloc, bytes)? {
        Plain::NotYet => Ok(Some(found)),
        Plain::Bad(_) => Ok(None),
        Plain::History { bodies, gate: _ } => {
            for body in &bodies {
                let [byte] = body.as_slice() else {
                    return Ok(None);
                };
                found.push(*byte)?;
            }
            Ok(Some(found))
        }
    }
}

// The bodies whose append answered Ok, and those whose append failed with no Ok after it.
#[derive(Drop)]
struct Run {
    done: Vec<u8>,
    failed: Vec<u8>,
}

// Whether a disk that is left stands for what a run may leave.
fn is_left(alloc: Global, bytes: &[u8], run: &Run) -> Result<bool, Memory> {
    let Some(found) = read_back(alloc, bytes)? else {
        return Ok(false);
    };
    if found.as_slice() == run.done.as_slice() {
        return Ok(true);
    }
    for failed in &run.failed {
        let mut more = run.done.to_vec(alloc)?;
        more.push(*failed)?;
        if found.as_slice() == more.as_slice() {
            return Ok(true);
        }
    }
    Ok(false)
}

fn try_append<D: Disk>(
    rt: &impl Abort,
    alloc: Global,
    journal: &mut Journal<D>,
    body: u8,
) -> Result<bool, Memory> {
    let framed = frame_of(alloc, &[body])?;
    let gate = journal.gate();
    assert!(rt; gate < 1000);
    assert!(rt; framed.len() < 100);
    Ok(journal.append(&framed).is_ok())
}

// Makes a journal and appends four bodies, going on after a failure.
fn run_script<D: Disk + Drop>(rt: &impl Abort, alloc: Global, disk: D) -> Result<(D, Run), Memory>
    requires { D.tells → is_not_yet (D.seen disk) ≡ true }
{
    let mut run = Run {
        done: Vec::new(alloc),
        failed: Vec::new(alloc),
    };
    let begun = match begin(disk) {
        Ok(begun) => begun,
        Err((_, disk)) => return Ok((disk, run)),
    };
    let mut journal = match create(begun) {
        Ok(journal) => journal,
        Err((_, disk)) => return Ok((disk, run)),
    };
    for body in 1..5u8 {
        if try_append(rt, alloc, &mut journal, body)? {
            run.done.push(body)?;
            run.failed.clear();
        } else {
            run.failed.push(body)?;
        }
    }
    Ok((journal.into_disk(), run))
}

#[test]
fn a_disk_that_stops_after_any_call_leaves_what_was_acknowledged(
    rt: HostRuntime,
) -> Result<(), Fail> {
    let alloc = rt.alloc();
    for calls in 0..27 {
        let fused = Fused::of(MemDisk::plain(alloc, Vec::new(alloc)), calls);
        let (fused, run) = run_script(&rt, alloc, fused)?;
        let disk = fused.into_inner();
        assert!(rt; is_left(alloc, disk.bytes(), &run)?, "after {calls} calls");
        assert_eq!(rt; run.done.len() == 4, calls >= 24, "after {calls} calls");
    }
    Ok(())
}

#[test]
fn one_failing_call_loses_nothing_that_was_acknowledged(rt: HostRuntime) -> Result<(), Fail> {
    let alloc = rt.alloc();
    for call in 1..30u64 {
        let disk = MemDisk::of(alloc, Vec::new(alloc), [call].to_vec(alloc)?);
        let (disk, run) = run_script(&rt, alloc, disk)?;
        assert!(rt; is_left(alloc, disk.bytes(), &run)?, "call {call}");
        assert_eq!(rt;
            disk.faults(),
            if call <= 24 { 1 } else { 0 },
            "call {call}"
        );
        assert_eq!(rt;
            run.done.len(),
            if call <= 8 {
                0
            } else if call <= 24 {
                3
            } else {
                4
            },
            "call {call}"
        );
    }
    Ok(())
}

// Two entries one after the other, with what a crash since the journal's start may leave.
fn append_both<D: Disk>(journal: &mut Journal<D>, first: &[u8], second: &[u8]) -> Result<(), Failed>
    requires first { IsFrame first.now }
    requires second { IsFrame second.now }
    requires room { journal.old.gate + length first.now + length second.now + 1 < 2 ^ 64 }
    requires sure { journal.old.doubt ≡ false }
    ensures entered { D.tells → OnOk result (history journal.new.gate (D.seen journal.new.disk)
        ≡ history journal.old.gate (D.seen journal.old.disk) ++ body_in first.now ∷ [] ++ body_in second.now ∷ []) }
    ensures since { D.tells → OnOk result ((legal : Legal) → let before = history journal.old.gate (D.seen journal.old.disk) in
        AreLegal legal (before ++ body_in first.now ∷ []) → AreLegal legal (before ++ body_in first.now ∷ [] ++ body_in second.now ∷ []) → (c : List ℕ)
        → D.left_since journal.new.disk (start_of D.pending D.moment journal.new.called.was journal.new.synced.was) c
        → D.left_since journal.old.disk (start_of D.pending D.moment journal.old.called.was journal.old.synced.was) c
        ⊎ (Stands legal c before ⊎ Stands legal c (before ++ body_in first.now ∷ [])
        ⊎ Stands legal c (before ++ body_in first.now ∷ [] ++ body_in second.now ∷ []))) }
{
    journal.append(first)?;
    journal.append(second)
}

#[test]
fn two_entries_follow_one_another(rt: HostRuntime) -> Result<(), Fail> {
    let alloc = rt.alloc();
    let begun = begin(MemDisk::plain(alloc, Vec::new(alloc))).map_err(|_| "begin")?;
    let mut journal = create(begun).map_err(|_| "create")?;
    let first = frame_of(alloc, b"lot 7")?;
    let second = frame_of(alloc, b"")?;
    assert!(rt; first.len() < 100 && second.len() < 100);
    assert!(rt; append_both(&mut journal, &first, &second).is_ok());
    let disk = journal.into_disk();
    let Plain::History { bodies, gate } = read_plainly(alloc, disk.bytes())? else {
        return Err("bad".into());
    };
    assert_eq!(rt; gate, 22);
    assert_eq!(rt; bodies.len(), 2);
    assert_eq!(rt; bodies[0].as_slice(), b"lot 7".as_slice());
    assert!(rt; bodies[1].is_empty());
    Ok(())
}

fn letter(called: &Called) -> u8 {
    match &called.call {
        Call::Size => b's',
        Call::Read { .. } => b'r',
        Call::Write { .. } => b'w',
        Call::Sync => b'y',
    }
}

#[test]
fn the_disk_calls_are_these(rt: HostRuntime) -> Result<(), Fail> {
    let alloc = rt.alloc();
    // The fourth call of the second append fails; the third append closes the gate first.
    let disk = MemDisk::of(alloc, Vec::new(alloc), [16].to_vec(alloc)?);
    let (disk, run) = run_script(&rt, alloc, disk)?;
    let letters: Vec<u8> = disk.calls().iter().map(letter).collect(alloc)?;
    // begin, create, four appends
    assert_eq!(rt;
        letters.as_slice(),
        b"yswywywywywywywywywywywywy".as_slice()
    );
    assert_eq!(rt; run.done.as_slice(), [1, 3, 4].as_slice());
    let want = [
        1, 84, 79, 80, 79, 74, 1, 1, 0, 0, 0, 1, 1, 1, 0, 0, 0, 1, 3, 1, 0, 0, 0, 1, 4, 0,
    ];
    assert_eq!(rt; disk.bytes(), want.as_slice());
    Ok(())
}

#[test]
fn what_a_stopped_disk_leaves_goes_on(rt: HostRuntime) -> Result<(), Fail> {
    let alloc = rt.alloc();
    for calls in 8..27 {
        let fused = Fused::of(MemDisk::plain(alloc, Vec::new(alloc)), calls);
        let (fused, _) = run_script(&rt, alloc, fused)?;
        let disk = fused.into_inner();
        let mut want = read_back(alloc, disk.bytes())?.ok_or("bad")?;
        let begun = begin(disk).map_err(|_| "a plain disk failed")?;
        let mut journal = resume(alloc, begun).map_err(|_| "no journal")?;
        assert!(rt; try_append(&rt, alloc, &mut journal, 9)?);
        want.push(9)?;
        let disk = journal.into_disk();
        let found = read_back(alloc, disk.bytes())?.ok_or("bad")?;
        assert_eq!(rt; found.as_slice(), want.as_slice(), "after {calls} calls");
    }
    Ok(())
}

#[test]
fn headers_and_gates_read_as_told(rt: HostRuntime) -> Result<(), Fail> {
    let alloc = rt.alloc();
    let whole: [u8; 14] = [1, 84, 79, 80, 79, 74, 1, 1, 0, 0, 0, 1, 5, 0];
    // the offset changed, the byte, and the first bad gate
    let rows: [(usize, u8, Option<usize>); 9] = [
        (0, 1, None),
        (0, 0, Some(0)),
        (3, 0, Some(0)),
        (6, 2, Some(0)),
        (6, 9, None),
        (7, 0, None),
        (7, 2, None),
        (11, 2, Some(7)),
        (13, 1, Some(13)),
    ];
    for (at, byte, bad) in rows {
        let mut bytes = whole;
        assert!(rt; at < 14);
        bytes[at] = byte;
        let found = match read_plainly(alloc, &bytes)? {
            Plain::Bad(offset) => Some(offset),
            _ => None,
        };
        assert_eq!(rt; found, bad, "byte {byte} at {at}");
    }
    Ok(())
}
