use crate::solo::solo;
use crate::words::journal_word;
use std::alloc::Global;
use std::process::Abort;
use std::test::Fail;
use topo_disk::MemDisk;
use topo_io::{MemSink, MemSource};

const TWO: &str = "addisonode 0 0 0\naddisonode 0 0 0\naddisonode 0 1 1\n";

const TWO_DUE: &str =
    "done node 1 at 1\nrefused PointBlocked at 1\ndone node 2 at 2\nnext 3 1 1 1 1\nnode 1 0 0 0\nnode 2 0 1 1\nface 0 -\n";

fn words_of(alloc: Global, verb: &str) -> Result<Vec<String>, Fail> {
    let mut words = Vec::new(alloc);
    words.push(String::from_str(alloc, verb)?)?;
    words.push(String::from_str(alloc, "plots")?)?;
    Ok(words)
}

/// Runs a form on a disk with ample memory: this is to be written, and this to be the status.
fn answers(
    rt: &impl Abort,
    alloc: Global,
    verb: &str,
    script: &str,
    disk: MemDisk,
    due: &str,
    want: u8,
) -> Result<MemDisk, Fail> {
    let mut source = MemSource::plain(alloc, script.as_bytes().to_vec(alloc)?);
    let mut sink = MemSink::plain(alloc);
    let words = words_of(alloc, verb)?;
    let served = solo(alloc, &words, &mut source, &mut sink, disk);
    assert_eq!(rt; sink.bytes(), due.as_bytes());
    assert_eq!(rt; served.status.number(), want);
    Ok(served.disk)
}

/// What one script made is there for the next, and each form shows it.
#[test]
fn a_journal_is_kept(rt: HostRuntime) -> Result<(), Fail> {
    let alloc = rt.alloc();
    let disk = MemDisk::plain(alloc, Vec::new(alloc));
    let disk = answers(&rt, alloc, "apply", TWO, disk, TWO_DUE, 1)?;
    let entries = "entry 1 editor 1 addisonode 0 0 0\nentry 2 editor 1 addisonode 0 1 1\n";
    let disk = answers(&rt, alloc, "history", "", disk, entries, 0)?;
    let disk = answers(&rt, alloc, "features", "", disk, "", 0)?;
    let _ = answers(&rt, alloc, "help", "", disk, "fault words\n", 2)?;
    Ok(())
}

/// The tenth call of the disk fails, in the second append: the edit after it is done in its place.
#[test]
fn a_disk_fault_is_answered(rt: HostRuntime) -> Result<(), Fail> {
    let alloc = rt.alloc();
    let fails = vec![in alloc; 17_u64]?;
    let disk = MemDisk::of(alloc, Vec::new(alloc), fails);
    let script = "addisonode 0 0 0\naddisonode 0 1 1\naddisonode 0 2 2\n";
    let due =
        "done node 1 at 1\ndiskfault\ndone node 2 at 2\nnext 3 1 1 1 1\nnode 1 0 0 0\nnode 2 0 2 2\nface 0 -\n";
    let _ = answers(&rt, alloc, "apply", script, disk, due, 7)?;
    Ok(())
}

/// The sink fails at once: nothing is written, and the first edit is kept.
#[test]
fn a_sink_fault_ends_a_run(rt: HostRuntime) -> Result<(), Fail> {
    let alloc = rt.alloc();
    let mut source = MemSource::plain(alloc, TWO.as_bytes().to_vec(alloc)?);
    let mut sink = MemSink::of(alloc, vec![in alloc; 1_u64]?);
    let words = words_of(alloc, "apply")?;
    let disk = MemDisk::plain(alloc, Vec::new(alloc));
    let served = solo(alloc, &words, &mut source, &mut sink, disk);
    assert_eq!(rt; served.status.number(), 6);
    assert_eq!(rt; sink.bytes().len(), 0);
    let tables = "next 2 1 1 1 1\nnode 1 0 0 0\nface 0 -\n";
    let _ = answers(&rt, alloc, "tables", "", served.disk, tables, 0)?;
    Ok(())
}

/// The name of a journal is the second word of a form, and no word of other words.
#[test]
fn a_journal_is_named(rt: HostRuntime) -> Result<(), Fail> {
    let alloc = rt.alloc();
    let words = words_of(alloc, "apply")?;
    assert!(rt; matches!(journal_word(&words), Some(word) if word.as_str() == "plots"));
    let words = words_of(alloc, "run")?;
    assert!(rt; journal_word(&words).is_none());
    Ok(())
}
