// A dump is read, and reported on.
ghost use Rattle.std.specs.Prelude.{◌≡◌};
ghost use Rattle.table_dump.specs.ReportText.{report_text as text_of_report};
ghost use Rattle.topo.specs.Endings.{Checked, ReportsOn};
ghost use Rattle.topo.specs.Output.{Prints, report_status};

use crate::end::{end_with, end_with_line};
use crate::status::Status;
use std::alloc::Global;
use table_dump::{DumpEnd, read_tables, report_text};
use topo_io::{ReadEnd, Sink, Source, read_all, write_all};
use validate_topology::{RawTables, Report, report};

/// The most bytes of a source.
const MAX_SOURCE: u64 = 1 << 24;

/// The status of a report: 0 where it has no lines, and else 1.
fn status_of(report: &Report) -> u8
    ensures { result ≡ report_status report.now }
{
    match report.lines() {
        [] => 0,
        _ => 1,
    }
}

/// Writes a report.
fn end_with_lines<K: Sink>(alloc: Global, report: &Report, sink: &mut K) -> Status
    ensures { Prints (record { written = K.written sink.old; faults = K.faults sink.old })
        (record { written = K.written sink.new; faults = K.faults sink.new })
        (text_of_report report.now) (report_status report.now) result }
{
    let Ok(text) = report_text(alloc, report) else {
        return Status::of(8);
    };
    match write_all(sink, text.as_bytes()) {
        Ok(()) => Status::of(status_of(report)),
        Err(_) => Status::of(6),
    }
}

/// Writes the report on some tables.
fn end_with_report<K: Sink>(alloc: Global, raw: &RawTables, sink: &mut K) -> Status
    ensures { ReportsOn raw.now (record { written = K.written sink.old; faults = K.faults sink.old })
        (record { written = K.written sink.new; faults = K.faults sink.new }) result }
{
    match report(alloc, raw) {
        Ok(report) => end_with_lines(alloc, &report, sink),
        Err(_) => Status::of(8),
    }
}

/// Reads a dump from the source, and writes the report on its tables, with status 0 where it has no lines and else 1,
/// or the number of its first bad line, with status 3.
pub fn check<S: Source, K: Sink>(alloc: Global, source: &mut S, sink: &mut K) -> Status
    ensures { Checked (record { left = S.left source.old; faults = S.faults source.old })
        (record { left = S.left source.new; faults = S.faults source.new })
        (record { written = K.written sink.old; faults = K.faults sink.old })
        (record { written = K.written sink.new; faults = K.faults sink.new }) result }
{
    let bytes = match read_all(alloc, source, MAX_SOURCE) {
        Ok(bytes) => bytes,
        Err(ReadEnd::Fault) => return end_with(sink, b"fault source\n", 5),
        Err(ReadEnd::TooLong) => return end_with(sink, b"fault long\n", 9),
        Err(ReadEnd::Memory) => return Status::of(8),
    };
    match read_tables(alloc, &bytes) {
        Ok(raw) => {
            // The text isn't needed any more, and the report may want its memory.
            drop(bytes);
            end_with_report(alloc, &raw, sink)
        }
        Err(DumpEnd::Memory) => Status::of(8),
        Err(DumpEnd::BadLine { line }) => end_with_line(alloc, sink, line),
    }
}
