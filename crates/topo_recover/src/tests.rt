//! Disks with known bytes: what they recover to, and what each call that fails is answered.

ghost use Rattle.std.specs.Prelude.{◌≡◌, ◌<◌};

use crate::{RecoverEnd, recover};
use std::alloc::Global;
use std::marker::Brand;
use std::process::Abort;
use std::sync::ledger::{Blank, Ledger};
use std::test::Fail;
use topo_base::{Limits, Memory, Steps};
use topo_disk::MemDisk;

// an open header of format 1
const HEADER: [u8; 7] = [1, 0x54, 0x4f, 0x50, 0x4f, 0x4a, 1];

// an open gate and the frame of `addisonode - 0 0` of editor 1
const ENTRY: [u8; 27] = [
    1, 0, 0, 0, 0x16, 0, 0, 0, 1, 1, 0, 0, 0, 0, 0, 0, 0, 0, 0, 0, 0, 0, 0, 0, 0, 0, 0,
];

// What a recovery answers: the length of the history, the offset of a bad gate, or that the disk failed.
#[derive(Clone, Copy, Debug, PartialEq, Eq)]
enum Answer {
    Front(u64),
    Bad(u64),
    Fault,
}

fn answer_on<L: Ledger>(
    alloc: Global,
    bytes: Vec<u8>,
    fails: Vec<u64>,
    blank: Blank,
) -> Result<Answer, Memory>
    requires name { blank.name ≡ L.name }
    requires parts { blank.parts ≡ L.parts }
    requires some { 0 < blank.parts }
{
    let mut steps = Steps::<L>::new(blank);
    let disk = MemDisk::of(alloc, bytes, fails);
    match recover(alloc, disk, Limits::standard(), &mut steps) {
        Ok(desk) => Ok(Answer::Front(desk.history().len())),
        Err((RecoverEnd::NoJournal { offset }, _)) => Ok(Answer::Bad(offset)),
        Err((RecoverEnd::DiskFault, _)) => Ok(Answer::Fault),
        Err((RecoverEnd::Memory, _)) => Err(Memory),
    }
}

// What a disk answers that has these bytes, one part behind another.
fn answer_to(alloc: Global, parts: &[&[u8]]) -> Result<Answer, Memory> {
    let mut bytes = Vec::new(alloc);
    for part in parts {
        bytes.extend_from_slice(part)?;
    }
    answer_on::<Brand>(alloc, bytes, Vec::new(alloc), Blank::new(1))
}

#[test]
fn one_entry_is_read(rt: HostRuntime) -> Result<(), Fail> {
    let answer = answer_to(rt.alloc(), &[&HEADER, &ENTRY, &[0]])?;
    assert_eq!(rt; answer, Answer::Front(1));
    Ok(())
}

#[test]
fn what_stands_behind_the_closed_gate_is_ignored(rt: HostRuntime) -> Result<(), Fail> {
    let answer = answer_to(rt.alloc(), &[&HEADER, &ENTRY, &[0, 0, 0, 0, 0x16, 0, 0, 0]])?;
    assert_eq!(rt; answer, Answer::Front(1));
    Ok(())
}

#[test]
fn an_open_gate_without_a_frame_is_bad(rt: HostRuntime) -> Result<(), Fail> {
    let answer = answer_to(rt.alloc(), &[&HEADER, &ENTRY, &[1]])?;
    assert_eq!(rt; answer, Answer::Bad(34));
    Ok(())
}

#[test]
fn an_entry_that_is_refused_is_bad(rt: HostRuntime) -> Result<(), Fail> {
    let answer = answer_to(rt.alloc(), &[&HEADER, &ENTRY, &ENTRY, &[0]])?;
    assert_eq!(rt; answer, Answer::Bad(34));
    Ok(())
}

#[test]
fn other_letters_are_no_journal(rt: HostRuntime) -> Result<(), Fail> {
    let answer = answer_to(rt.alloc(), &[&[1, 0x54, 0x4f, 0x50, 0x4f, 0x4b, 1, 0]])?;
    assert_eq!(rt; answer, Answer::Bad(0));
    Ok(())
}

#[test]
fn format_two_is_no_journal(rt: HostRuntime) -> Result<(), Fail> {
    let answer = answer_to(rt.alloc(), &[&[1, 0x54, 0x4f, 0x50, 0x4f, 0x4a, 2, 0]])?;
    assert_eq!(rt; answer, Answer::Bad(0));
    Ok(())
}

// The bytes that a disk has after its recovery.
fn left_by<L: Ledger>(alloc: Global, bytes: Vec<u8>, blank: Blank) -> Result<Vec<u8>, Memory>
    requires name { blank.name ≡ L.name }
    requires parts { blank.parts ≡ L.parts }
    requires some { 0 < blank.parts }
{
    let mut steps = Steps::<L>::new(blank);
    let disk = match recover(
        alloc,
        MemDisk::plain(alloc, bytes),
        Limits::standard(),
        &mut steps,
    ) {
        Ok(desk) => desk.into_disk(),
        Err((_, disk)) => disk,
    };
    Ok(disk.bytes().to_vec(alloc)?)
}

#[test]
fn a_disk_that_is_not_yet_a_journal_becomes_one(rt: HostRuntime) -> Result<(), Fail> {
    let alloc = rt.alloc();
    let new = [1, 0x54, 0x4f, 0x50, 0x4f, 0x4a, 1, 0];
    let closed = [0, 0x54, 0x4f, 0x50, 0x4f, 0x4a, 1, 0];
    for size in [0, 1, 8] {
        let bytes = closed[..size].to_vec(alloc)?;
        let left = left_by::<Brand>(alloc, bytes, Blank::new(1))?;
        assert_eq!(rt; left.as_slice(), new.as_slice());
    }
    Ok(())
}

// Whether each call of a disk with these bytes that fails, of so many, is answered so.
fn is_told(alloc: Global, parts: &[&[u8]], calls: u64) -> Result<bool, Memory> {
    for fails in 0..calls {
        let mut bytes = Vec::new(alloc);
        for part in parts {
            bytes.extend_from_slice(part)?;
        }
        let mut failing = Vec::new(alloc);
        failing.push(fails + 1)?;
        let answer = answer_on::<Brand>(alloc, bytes, failing, Blank::new(1))?;
        if answer != Answer::Fault {
            return Ok(false);
        }
    }
    Ok(true)
}

#[test]
fn each_failing_call_is_told(rt: HostRuntime) -> Result<(), Fail> {
    // a sync, the size, the header gate, the name, two gates, a length and a body
    assert!(rt; is_told(rt.alloc(), &[&HEADER, &ENTRY, &[0]], 8)?);
    // a sync, the size, the size again, and three writes with a sync each
    assert!(rt; is_told(rt.alloc(), &[], 9)?);
    Ok(())
}
