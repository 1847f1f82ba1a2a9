ghost use Rattle.std.specs.Prelude.{◌≡◌, ◌≢◌, ◌<◌, ◌≤◌, ◌==◌, if◌then◌else◌, ◌+◌, ◌^◌, ◌∷◌, [], ◌++◌, ℕ, List, length, take, drop, slice_index, IsTrue, IfOk, IfErr, IfSome, Ok, None};
ghost use Rattle.topo_base.specs.declared.edit.Entry.{Entry};
ghost use Rattle.topo_io.specs.Causes.{HasCause};
ghost use Rattle.drawing.specs.InRange.{is_spelled};
ghost use Rattle.history_model.specs.Legal.{journal_length};
ghost use Rattle.history_model.specs.Spelling.{number_bytes, entry_bytes};
ghost use Rattle.history_model.specs.Journal.{IsFramed, IsBadAt};
ghost use Rattle.history_model.specs.Run.{is_done};
ghost use Rattle.topo_desk.specs.Verdict.{verdict};
ghost use Rattle.topo_recover.specs.declared.end.RecoverEnd.TheVariants.{NoJournal};
ghost use Rattle.topo_recover.specs.Reached.{IsReadTo, HasEnded};

use crate::end::RecoverEnd;
use crate::reads::{is_open, read_number};
use entry_codec::{CodecEnd, decode};
use std::alloc::Global;
use std::sync::ledger::Ledger;
use topo_base::{Answer, Entry, Memory, Steps};
use topo_desk::Board;
use topo_disk::{Disk, Failed};
use topo_journal::Begun;

// the length of the longest spelling, in bytes
const LONGEST: u64 = 65_553;

// The length of the body behind the open gate at this offset, or None where no entry with a gate behind it fits.
fn read_length<D: Disk>(begun: &mut Begun<D>, gate: u64, size: u64) -> Result<Option<u64>, Failed>
    requires within { gate < size }
    requires size { D.tells → size ≡ length (D.seen begun.old.disk) }
    ensures fits { IfOk result (λ o. IfSome o (λ n. gate + 5 + n < size)) }
    ensures short { IfOk result (λ o. IfSome o (λ n. n < 2 ^ 32)) }
    ensures number { D.tells → IfOk result (λ o. IfSome o (λ n. number_bytes n ≡ take 4 (drop (gate + 1) (D.seen begun.old.disk)))) }
    ensures none { D.tells → result ≡ Ok None → (x : Entry) (next : List ℕ) → IsFramed (drop gate (D.seen begun.old.disk)) x next → length (entry_bytes x) < 2 ^ 32 → ⊥ }
    ensures seen { D.tells → D.seen begun.new.disk ≡ D.seen begun.old.disk }
    ensures start { (begun.new.called.was ≡ begun.old.called.was) × (begun.new.synced.was ≡ begun.old.synced.was) }
    ensures cause { HasCause (D.faults begun.old.disk) (D.faults begun.new.disk) result }
{
    let left = size - gate;
    if left < 6 {
        return Ok(None);
    }
    let long = read_number(begun, gate + 1)? as u64;
    if long < left - 5 && long <= LONGEST {
        Ok(Some(long))
    } else {
        Ok(None)
    }
}

// The entry whose spelling is all of these bytes.
fn entry_in(alloc: Global, body: &[u8]) -> Result<Option<Entry>, Memory>
    ensures some { IfOk result (λ o. IfSome o (λ x. IsTrue (is_spelled x) × (entry_bytes x ≡ body.now))) }
    ensures none { result ≡ Ok None → (x : Entry) → IsTrue (is_spelled x) → entry_bytes x ≡ body.now → ⊥ }
{
    match decode(alloc, body) {
        Ok((entry, used)) => {
            if used == body.len() {
                Ok(Some(entry))
            } else {
                Ok(None)
            }
        }
        Err(CodecEnd::NoEntry) => Ok(None),
        Err(CodecEnd::Memory) => Err(Memory),
    }
}

// Enters an entry, and says whether it was done.
fn try_entry<L: Ledger>(
    alloc: Global,
    board: &mut Board,
    entry: Entry,
    steps: &mut Steps<L>,
) -> Result<bool, Memory>
    requires { IsTrue (is_spelled entry) }
    ensures done { IfOk result (λ done. done ≡ is_done (verdict board.old.bounds board.old.history entry)) }
    ensures history { IfOk result (λ done. board.new.history ≡ (if done then board.old.history ++ entry ∷ [] else board.old.history)) }
    ensures bounds { board.new.bounds ≡ board.old.bounds }
{
    match board.edit(alloc, entry.editor, entry.edit, steps)? {
        Answer::Done { ids: _, front: _ } => Ok(true),
        _ => Ok(false),
    }
}

// Enters the entry behind the open gate at this offset, and gives the offset of the next gate.
fn enter<D: Disk, L: Ledger>(
    alloc: Global,
    begun: &mut Begun<D>,
    gate: u64,
    size: u64,
    board: &mut Board,
    steps: &mut Steps<L>,
) -> Result<u64, RecoverEnd>
    requires within { gate < size }
    requires size { D.tells → size ≡ length (D.seen begun.old.disk) }
    requires opened { D.tells → slice_index (D.seen begun.old.disk) gate ≡ 1 }
    requires small { board.old.bounds.max_journal < 2 ^ 32 }
    requires place { gate + 1 ≡ journal_length board.old.history }
    requires read { D.tells → IsReadTo board.old.bounds (D.seen begun.old.disk) gate board.old.history }
    ensures within { IfOk result (λ next. (gate < next) × (next < size)) }
    ensures place { IfOk result (λ next. next + 1 ≡ journal_length board.new.history) }
    ensures read { D.tells → IfOk result (λ next. IsReadTo board.old.bounds (D.seen begun.old.disk) next board.new.history) }
    ensures bounds { board.new.bounds ≡ board.old.bounds }
    ensures bad { D.tells → IfErr result (λ e. (offset : ℕ) → e ≡ NoJournal offset → IsBadAt board.old.bounds (D.seen begun.old.disk) offset) }
    ensures seen { D.tells → D.seen begun.new.disk ≡ D.seen begun.old.disk }
    ensures start { (begun.new.called.was ≡ begun.old.called.was) × (begun.new.synced.was ≡ begun.old.synced.was) }
    ensures faults { HasEnded (D.faults begun.old.disk) (D.faults begun.new.disk) result }
{
    let bad = RecoverEnd::NoJournal { offset: gate };
    let Some(long) = read_length(begun, gate, size)? else {
        return Err(bad);
    };
    let mut body = vec![in alloc; 0; long as usize]?;
    begun.read_at(gate + 5, &mut body)?;
    let Some(entry) = entry_in(alloc, &body)? else {
        return Err(bad);
    };
    if !try_entry(alloc, board, entry, steps)? {
        return Err(bad);
    }
    Ok(gate + 5 + long)
}

// Enters all entries from the first gate on, and gives the offset of the closed gate behind them.
pub(crate) fn enter_all<D: Disk, L: Ledger>(
    alloc: Global,
    begun: &mut Begun<D>,
    size: u64,
    board: &mut Board,
    steps: &mut Steps<L>,
) -> Result<u64, RecoverEnd>
    requires long { 7 < size }
    requires size { D.tells → size ≡ length (D.seen begun.old.disk) }
    requires small { board.old.bounds.max_journal < 2 ^ 32 }
    requires empty { board.old.history ≡ [] }
    requires read { D.tells → IsReadTo board.old.bounds (D.seen begun.old.disk) 7 [] }
    ensures place { IfOk result (λ gate. gate + 1 ≡ journal_length board.new.history) }
    ensures within { IfOk result (λ gate. gate < size) }
    ensures read { D.tells → IfOk result (λ gate. IsReadTo board.old.bounds (D.seen begun.old.disk) gate board.new.history) }
    ensures shut { D.tells → IfOk result (λ gate. slice_index (D.seen begun.old.disk) gate ≢ 1) }
    ensures bounds { board.new.bounds ≡ board.old.bounds }
    ensures bad { D.tells → IfErr result (λ e. (offset : ℕ) → e ≡ NoJournal offset → IsBadAt board.old.bounds (D.seen begun.old.disk) offset) }
    ensures seen { D.tells → D.seen begun.new.disk ≡ D.seen begun.old.disk }
    ensures start { (begun.new.called.was ≡ begun.old.called.was) × (begun.new.synced.was ≡ begun.old.synced.was) }
    ensures faults { HasEnded (D.faults begun.old.disk) (D.faults begun.new.disk) result }
{
    let mut gate = 7;
    while is_open(begun, gate)? {
        match enter(alloc, begun, gate, size, board, steps) {
            Ok(next) => gate = next,
            Err(end) => return Err(end),
        }
    }
    Ok(gate)
}
