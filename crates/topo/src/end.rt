ghost use Rattle.std.specs.Prelude.{◌≡◌, ◌≤◌, ◌++◌, OnOk};
ghost use Rattle.topo.specs.Endings.{EndsUnread};
ghost use Rattle.topo.specs.Output.{Says, Tells, fault_line, journal_line};

use crate::status::Status;
use std::alloc::Global;
use topo_base::{Memory, Text};
use topo_io::{Sink, push_count, write_all};
use topo_recover::RecoverEnd;

/// Writes a text, and ends with the status, or with 6.
pub fn end_with<K: Sink>(sink: &mut K, text: &[u8], status: u8) -> Status
    requires { status ≤ 9 }
    ensures { Says (record { written = K.written sink.old; faults = K.faults sink.old })
        (record { written = K.written sink.new; faults = K.faults sink.new }) text.now status result }
{
    match write_all(sink, text) {
        Ok(()) => Status::of(status),
        Err(_) => Status::of(6),
    }
}

fn push_fault(text: &mut Text, line: u64) -> Result<(), Memory>
    ensures { OnOk result (text.new ≡ text.old ++ fault_line line) }
{
    text.push_bytes(b"fault line ")?;
    push_count(text, line)?;
    text.push(b'\n')
}

/// Names the first bad line, and ends with 3.
pub fn end_with_line<K: Sink>(alloc: Global, sink: &mut K, line: u64) -> Status
    ensures { Tells (record { written = K.written sink.old; faults = K.faults sink.old })
        (record { written = K.written sink.new; faults = K.faults sink.new }) (fault_line line) 3 result }
{
    let mut text = Text::new(alloc);
    let Ok(()) = push_fault(&mut text, line) else {
        return Status::of(8);
    };
    end_with(sink, text.as_bytes(), 3)
}

fn push_bad_gate(text: &mut Text, offset: u64) -> Result<(), Memory>
    ensures { OnOk result (text.new ≡ text.old ++ journal_line offset) }
{
    text.push_bytes(b"fault journal ")?;
    push_count(text, offset)?;
    text.push(b'\n')
}

/// Names the first bad gate of a journal, and ends with 4.
fn end_with_gate<K: Sink>(alloc: Global, sink: &mut K, offset: u64) -> Status
    ensures { Tells (record { written = K.written sink.old; faults = K.faults sink.old })
        (record { written = K.written sink.new; faults = K.faults sink.new }) (journal_line offset) 4 result }
{
    let mut text = Text::new(alloc);
    let Ok(()) = push_bad_gate(&mut text, offset) else {
        return Status::of(8);
    };
    end_with(sink, text.as_bytes(), 4)
}

/// Says why a disk gave no desk, and ends.
pub fn end_unread<K: Sink>(alloc: Global, sink: &mut K, end: RecoverEnd) -> Status
    ensures { EndsUnread end (record { written = K.written sink.old; faults = K.faults sink.old })
        (record { written = K.written sink.new; faults = K.faults sink.new }) result }
{
    match end {
        RecoverEnd::NoJournal { offset } => end_with_gate(alloc, sink, offset),
        RecoverEnd::DiskFault => end_with(sink, b"fault disk\n", 7),
        RecoverEnd::Memory => Status::of(8),
    }
}
