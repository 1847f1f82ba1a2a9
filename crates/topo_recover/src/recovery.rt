ghost use Rattle.std.specs.Prelude.{◌≡◌, ◌<◌, ◌≤◌, ◌^◌, ℕ, List, [], length, false, IfOk, IfErr};
ghost use Rattle.topo_io.specs.Causes.{Rose};
ghost use Rattle.history_model.specs.Answers.{Bounds};
ghost use Rattle.history_model.specs.Journal.{StandsFor, IsBadAt, IsNoJournalYet};
ghost use Rattle.topo_journal.specs.Kept.{start_of};
ghost use Rattle.topo_desk.specs.Boarded.{bounds_of};
ghost use Rattle.topo_recover.specs.declared.end.RecoverEnd.TheVariants.{NoJournal, DiskFault};
ghost use Rattle.topo_recover.specs.Recovered.{IsKept, StandsSince, IsUnwritten};
ghost use Rattle.topo_recover.specs.Reached.{IsReadTo};

use crate::end::RecoverEnd;
use crate::entries::enter_all;
use crate::header::{Header, read_header};
use std::alloc::Global;
use std::sync::ledger::Ledger;
use topo_base::{Limits, Steps};
use topo_desk::{Board, Desk};
use topo_disk::Disk;
use topo_journal::{Begun, adopt, begin, create};

/// The desk of the history for which the disk's bytes stand. A disk that isn't a journal yet gets its header, and its
/// history is empty. NoJournal comes exactly where the bytes stand for no legal history. The disk comes back with every
/// other answer.
pub fn recover<D: Disk, L: Ledger>(
    alloc: Global,
    disk: D,
    limits: Limits,
    steps: &mut Steps<L>,
) -> Result<Desk<D>, (RecoverEnd, D)>
    requires { limits.max_journal < 2 ^ 32 }

    // The history is the one that was read; nothing is in doubt, and nothing failed.
    ensures history { D.tells → IfOk result (λ desk. StandsFor (bounds_of limits) (D.seen disk) desk.board.history) }
    ensures bounds { IfOk result (λ desk. desk.board.bounds ≡ bounds_of limits) }
    ensures sure { IfOk result (λ desk. desk.journal.doubt ≡ false) }
    ensures calm { IfOk result (λ desk. D.faults desk.journal.disk ≡ D.faults disk) }

    // NoJournal, exactly, and then the bytes stay as they were.
    ensures bad { D.tells → IfErr result (λ e. (offset : ℕ) → e.0 ≡ NoJournal offset → IsBadAt (bounds_of limits) (D.seen disk) offset) }
    ensures stays { D.tells → IfErr result (λ e. (offset : ℕ) → IsBadAt (bounds_of limits) (D.seen disk) offset → D.seen e.1 ≡ D.seen disk) }

    // DiskFault, only where the disk's count of faults rose.
    ensures fault { IfErr result (λ e. e.0 ≡ DiskFault → Rose (D.faults disk) (D.faults e.1)) }
    ensures calm_err { IfErr result (λ e. (e.0 ≡ DiskFault → ⊥) → D.faults e.1 ≡ D.faults disk) }

    // What a read gives and a crash leaves stands for the history, whatever is answered: at each moment of the call where
    // nothing was pending, else from the end of its first sync on.
    ensures kept { D.tells → IfOk result (λ desk. IsKept D.pending D.moment D.seen D.may_leave D.left_since (bounds_of limits) disk desk.journal.disk) }
    ensures kept_err { D.tells → IfErr result (λ e. IsKept D.pending D.moment D.seen D.may_leave D.left_since (bounds_of limits) disk e.1) }
{
    let mut begun = match begin(disk) {
        Ok(begun) => begun,
        Err((_, disk)) => return Err((RecoverEnd::DiskFault, disk)),
    };
    let Ok(size) = begun.size() else {
        return Err((RecoverEnd::DiskFault, begun.into_disk()));
    };
    match read_header(&mut begun, size) {
        Ok(Header::NotYet) => make(alloc, begun, limits),
        Ok(Header::Open) => resume(alloc, begun, size, limits, steps),
        Ok(Header::Bad) => Err((RecoverEnd::NoJournal { offset: 0 }, begun.into_disk())),
        Err(_) => Err((RecoverEnd::DiskFault, begun.into_disk())),
    }
}

// The desk of a disk that becomes a journal with no entry.
fn make<D: Disk>(alloc: Global, begun: Begun<D>, limits: Limits) -> Result<Desk<D>, (RecoverEnd, D)>
    requires not_yet { D.tells → IsNoJournalYet (D.seen begun.disk) }
    requires small { limits.max_journal < 2 ^ 32 }
    requires later { D.tells → D.moment begun.called.was ≤ start_of D.pending D.moment begun.called.was begun.synced.was }
    ensures history { IfOk result (λ desk. desk.board.history ≡ []) }
    ensures bounds { IfOk result (λ desk. desk.board.bounds ≡ bounds_of limits) }
    ensures sure { IfOk result (λ desk. desk.journal.doubt ≡ false) }
    ensures calm { IfOk result (λ desk. D.faults desk.journal.disk ≡ D.faults begun.disk) }
    ensures fault { IfErr result (λ e. (e.0 ≡ DiskFault) × Rose (D.faults begun.disk) (D.faults e.1)) }
    ensures kept { D.tells → (m : Bounds) → IfOk result (λ desk. StandsSince D.moment D.seen D.left_since m begun.called.was desk.journal.disk (start_of D.pending D.moment begun.called.was begun.synced.was) []) }
    ensures kept_err { D.tells → (m : Bounds) → IfErr result (λ e. StandsSince D.moment D.seen D.left_since m begun.called.was e.1 (start_of D.pending D.moment begun.called.was begun.synced.was) []) }
{
    match create(begun) {
        Ok(journal) => Ok(Desk::of(Board::empty(alloc, limits), journal)),
        Err((_, disk)) => Err((RecoverEnd::DiskFault, disk)),
    }
}

// The desk of a journal, whose header has been read.
fn resume<D: Disk, L: Ledger>(
    alloc: Global,
    begun: Begun<D>,
    size: u64,
    limits: Limits,
    steps: &mut Steps<L>,
) -> Result<Desk<D>, (RecoverEnd, D)>
    requires long { 7 < size }
    requires size { D.tells → size ≡ length (D.seen begun.disk) }
    requires small { limits.max_journal < 2 ^ 32 }
    requires read { D.tells → IsReadTo (bounds_of limits) (D.seen begun.disk) 7 [] }
    ensures history { D.tells → IfOk result (λ desk. StandsFor (bounds_of limits) (D.seen begun.disk) desk.board.history) }
    ensures bounds { IfOk result (λ desk. desk.board.bounds ≡ bounds_of limits) }
    ensures sure { IfOk result (λ desk. desk.journal.doubt ≡ false) }
    ensures calm { IfOk result (λ desk. D.faults desk.journal.disk ≡ D.faults begun.disk) }
    ensures bad { D.tells → IfErr result (λ e. (offset : ℕ) → e.0 ≡ NoJournal offset → IsBadAt (bounds_of limits) (D.seen begun.disk) offset) }
    ensures fault { IfErr result (λ e. e.0 ≡ DiskFault → Rose (D.faults begun.disk) (D.faults e.1)) }
    ensures calm_err { IfErr result (λ e. (e.0 ≡ DiskFault → ⊥) → D.faults e.1 ≡ D.faults begun.disk) }
    ensures unwritten { D.tells → IfOk result (λ desk. IsUnwritten D.moment D.seen D.left_since desk.journal.disk (D.seen begun.disk) (start_of D.pending D.moment begun.called.was begun.synced.was)) }
    ensures unwritten_err { D.tells → IfErr result (λ e. IsUnwritten D.moment D.seen D.left_since e.1 (D.seen begun.disk) (start_of D.pending D.moment begun.called.was begun.synced.was)) }
{
    let mut begun = begun;
    let mut board = Board::empty(alloc, limits);
    match enter_all(alloc, &mut begun, size, &mut board, steps) {
        Ok(gate) => Ok(Desk::of(board, adopt(begun, gate))),
        Err(end) => Err((end, begun.into_disk())),
    }
}
