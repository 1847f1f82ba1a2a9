// A script is run on the desk of a journal.
ghost use Rattle.std.specs.Prelude.{◌≡◌, ◌≤◌, ◌++◌, codes, false, IsTrue, if◌then◌else◌};
ghost use Rattle.std.specs.List.{list_all};
ghost use Rattle.script_model.specs.NamedRange.{is_script_line};
ghost use Rattle.drawing.specs.Replay.{replay};
ghost use Rattle.script_model.specs.Texts.{tables_text};
ghost use Rattle.topo_recover.specs.Recovered.{IsKept};
ghost use Rattle.topo.specs.Endings.{Applied, RunsOn, RunsScript, standard};
ghost use Rattle.topo.specs.Output.{Prints};
ghost use Rattle.topo.specs.Running.{EndsRun};

use crate::end::{end_unread, end_with, end_with_line};
use crate::run::{Run, Stop};
use crate::served::Served;
use crate::status::Status;
use script_reader::{ScriptEnd, ScriptLine, read_script};
use std::alloc::Global;
use std::sync::ledger::Ledger;
use table_print::tables_text;
use topo_base::{Limits, Steps};
use topo_desk::Desk;
use topo_disk::Disk;
use topo_io::{ReadEnd, Sink, Source, read_all, write_all};
use topo_recover::recover;

/// The most bytes of a source.
const MAX_SOURCE: u64 = 1 << 24;

/// Writes the tables, and ends with the status.
fn end_with_tables<K: Sink, D: Disk>(
    alloc: Global,
    run: &Run<D>,
    sink: &mut K,
    status: u8,
) -> Status
    requires { status ≤ 9 }
    ensures { Prints (record { written = K.written sink.old; faults = K.faults sink.old })
        (record { written = K.written sink.new; faults = K.faults sink.new })
        (tables_text (replay run.now.history)) status result }
{
    let Ok(text) = tables_text(alloc, run.tables()) else {
        return Status::of(8);
    };
    match write_all(sink, text.as_bytes()) {
        Ok(()) => Status::of(status),
        Err(_) => Status::of(6),
    }
}

/// Writes that an edit wanted memory, and then the tables.
fn end_short<K: Sink, D: Disk>(alloc: Global, run: &Run<D>, sink: &mut K) -> Status
    ensures { Prints (record { written = K.written sink.old; faults = K.faults sink.old })
        (record { written = K.written sink.new; faults = K.faults sink.new })
        (codes "memory\n" ++ tables_text (replay run.now.history)) 8 result }
{
    match write_all(sink, b"memory\n") {
        Ok(()) => end_with_tables(alloc, run, sink, 8),
        Err(_) => Status::of(6),
    }
}

/// The status of a run in which every edit was answered.
fn whole_status(all_done: bool, has_failed: bool) -> u8
    ensures { result ≡ (if has_failed then 7 else (if all_done then 0 else 1)) }
{
    if has_failed {
        7
    } else if all_done {
        0
    } else {
        1
    }
}

/// Runs the lines, and writes what is due behind their replies.
fn end_run<K: Sink, D: Disk, L: Ledger>(
    alloc: Global,
    run: &mut Run<D>,
    script: Vec<ScriptLine>,
    sink: &mut K,
    steps: &mut Steps<L>,
) -> Status
    requires { IsTrue (list_all is_script_line script.items) }
    ensures { EndsRun run.old script.items run.new
        (record { written = K.written sink.old; faults = K.faults sink.old })
        (record { written = K.written sink.new; faults = K.faults sink.new }) result }
{
    match run.serve_all(alloc, script, sink, steps) {
        Ok(()) => {
            let status = whole_status(run.all_done(), run.has_failed());
            end_with_tables(alloc, run, sink, status)
        }
        Err(Stop::NoMemory) => end_short(alloc, run, sink),
        Err(Stop::NoText) => Status::of(8),
        Err(Stop::Fault) => Status::of(6),
    }
}

/// Runs a script on a desk.
fn end_with_script<K: Sink, D: Disk, L: Ledger>(
    alloc: Global,
    desk: Desk<D>,
    script: Vec<ScriptLine>,
    sink: &mut K,
    steps: &mut Steps<L>,
) -> Served<D>
    requires bounds { desk.board.bounds ≡ standard }
    requires sure { desk.journal.doubt ≡ false }
    requires good { IsTrue (list_all is_script_line script.items) }
    ensures { RunsScript desk.board.history script.items (record { written = K.written sink.old; faults = K.faults sink.old })
        (record { written = K.written sink.new; faults = K.faults sink.new })
        (record { tells = D.tells; seen = D.seen desk.journal.disk; may_leave = D.may_leave desk.journal.disk; faults = D.faults desk.journal.disk })
        (record { tells = D.tells; seen = D.seen result.disk; may_leave = D.may_leave result.disk; faults = D.faults result.disk }) result.status }
{
    let mut run = Run::new(alloc, desk);
    let status = end_run(alloc, &mut run, script, sink, steps);
    Served {
        status,
        disk: run.into_disk(),
    }
}

/// Recovers the desk of a disk, and runs a script on it.
fn run_script<K: Sink, D: Disk, L: Ledger>(
    alloc: Global,
    script: Vec<ScriptLine>,
    sink: &mut K,
    disk: D,
    steps: &mut Steps<L>,
) -> Served<D>
    requires { IsTrue (list_all is_script_line script.items) }
    ensures { RunsOn script.items (D.tells → IsKept D.pending D.moment D.seen D.may_leave D.left_since standard disk result.disk)
        (record { written = K.written sink.old; faults = K.faults sink.old })
        (record { written = K.written sink.new; faults = K.faults sink.new })
        (record { tells = D.tells; seen = D.seen disk; may_leave = D.may_leave disk; faults = D.faults disk })
        (record { tells = D.tells; seen = D.seen result.disk; may_leave = D.may_leave result.disk; faults = D.faults result.disk }) result.status }
{
    match recover(alloc, disk, Limits::standard(), steps) {
        Ok(desk) => end_with_script(alloc, desk, script, sink, steps),
        Err((end, disk)) => Served::of(end_unread(alloc, sink, end), disk),
    }
}

/// Reads a script from the source, and runs it on the desk of the disk. The disk is untouched until the script is known
/// to be good.
pub fn apply<S: Source, K: Sink, D: Disk, L: Ledger>(
    alloc: Global,
    source: &mut S,
    sink: &mut K,
    disk: D,
    steps: &mut Steps<L>,
) -> Served<D>
    ensures { Applied (result.disk ≡ disk) (D.tells → IsKept D.pending D.moment D.seen D.may_leave D.left_since standard disk result.disk)
        (record { left = S.left source.old; faults = S.faults source.old })
        (record { left = S.left source.new; faults = S.faults source.new })
        (record { written = K.written sink.old; faults = K.faults sink.old })
        (record { written = K.written sink.new; faults = K.faults sink.new })
        (record { tells = D.tells; seen = D.seen disk; may_leave = D.may_leave disk; faults = D.faults disk })
        (record { tells = D.tells; seen = D.seen result.disk; may_leave = D.may_leave result.disk; faults = D.faults result.disk }) result.status }
{
    let bytes = match read_all(alloc, source, MAX_SOURCE) {
        Ok(bytes) => bytes,
        Err(ReadEnd::Fault) => return Served::of(end_with(sink, b"fault source\n", 5), disk),
        Err(ReadEnd::TooLong) => return Served::of(end_with(sink, b"fault long\n", 9), disk),
        Err(ReadEnd::Memory) => return Served::of(Status::of(8), disk),
    };
    match read_script(alloc, &bytes) {
        Ok(script) => {
            // The text isn't needed any more, and the run may want its memory.
            drop(bytes);
            run_script(alloc, script, sink, disk, steps)
        }
        Err(ScriptEnd::Memory) => Served::of(Status::of(8), disk),
        Err(ScriptEnd::BadLine { line }) => Served::of(end_with_line(alloc, sink, line), disk),
    }
}
