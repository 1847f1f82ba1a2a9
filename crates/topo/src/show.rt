// What a journal holds is shown.
ghost use Rattle.std.specs.Prelude.{◌≡◌, IsTrue, IfOk};
ghost use Rattle.history_model.specs.Legal.{is_legal};
ghost use Rattle.topo_recover.specs.Recovered.{IsKept};
ghost use Rattle.topo.specs.Endings.{Showed, shown_text, standard};
ghost use Rattle.topo.specs.Output.{Prints};

use crate::end::end_unread;
use crate::served::Served;
use crate::status::Status;
use crate::words::Shown;
use std::alloc::Global;
use std::sync::ledger::Ledger;
use table_print::{features_text, history_text, tables_text};
use topo_base::{Limits, Memory, Steps, Text};
use topo_desk::Desk;
use topo_disk::Disk;
use topo_io::{Sink, write_all};
use topo_recover::recover;

/// The text that is to be shown.
fn text_of<D: Disk>(alloc: Global, shown: Shown, desk: &Desk<D>) -> Result<Text, Memory>
    ensures { IfOk result (λ t. t ≡ shown_text shown desk.now.board.history) }
{
    match shown {
        Shown::Tables => tables_text(alloc, desk.tables()),
        Shown::Features => features_text(alloc, desk.tables()),
        Shown::History => history_text(alloc, desk.history()),
    }
}

/// Writes what is to be shown of a desk.
fn end_with_shown<K: Sink, D: Disk>(
    alloc: Global,
    shown: Shown,
    desk: &Desk<D>,
    sink: &mut K,
) -> Status
    ensures prints { Prints (record { written = K.written sink.old; faults = K.faults sink.old })
        (record { written = K.written sink.new; faults = K.faults sink.new })
        (shown_text shown desk.now.board.history) 0 result }
    ensures legal { IsTrue (is_legal desk.now.board.bounds.max_id desk.now.board.bounds.max_journal desk.now.board.history) }
{
    let _ = desk.history();
    let Ok(text) = text_of(alloc, shown, desk) else {
        return Status::of(8);
    };
    match write_all(sink, text.as_bytes()) {
        Ok(()) => Status::of(0),
        Err(_) => Status::of(6),
    }
}

/// Recovers the desk of a disk, and writes what is to be shown of it.
pub fn show<K: Sink, D: Disk, L: Ledger>(
    alloc: Global,
    shown: Shown,
    sink: &mut K,
    disk: D,
    steps: &mut Steps<L>,
) -> Served<D>
    ensures { Showed shown (D.tells → IsKept D.pending D.moment D.seen D.may_leave D.left_since standard disk result.disk)
        (record { written = K.written sink.old; faults = K.faults sink.old })
        (record { written = K.written sink.new; faults = K.faults sink.new })
        (record { tells = D.tells; seen = D.seen disk; may_leave = D.may_leave disk; faults = D.faults disk })
        (record { tells = D.tells; seen = D.seen result.disk; may_leave = D.may_leave result.disk; faults = D.faults result.disk }) result.status }
{
    match recover(alloc, disk, Limits::standard(), steps) {
        Ok(desk) => {
            let status = end_with_shown(alloc, shown, &desk, sink);
            Served::of(status, desk.into_disk())
        }
        Err((end, disk)) => Served::of(end_unread(alloc, sink, end), disk),
    }
}
