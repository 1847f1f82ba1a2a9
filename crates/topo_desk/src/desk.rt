ghost use Rattle.std.specs.Prelude.{◌≡◌, ◌⊎◌, ◌+◌, ◌<◌, ◌^◌, ◌∷◌, [], ◌++◌, length, List, ℕ, true, false, IsTrue, Ok, OnOk, IfOk, OnErr};
ghost use Rattle.std.proofs.Props.{props};
ghost use Rattle.read_set.specs.Planned.{IsEditor};
ghost use Rattle.topo_base.specs.declared.answer.Answer.TheVariants.{DiskFault};
ghost use Rattle.topo_disk.specs.Disk.{LeavesOnly};
ghost use Rattle.topo_io.specs.Causes.{Rose};
ghost use Rattle.topo_journal.specs.Kept.{AreBytes, Each, history, doubted};
ghost use Rattle.topo_journal.specs.Entries.{spellings};
ghost use Rattle.drawing.specs.Accepted.{keeps_limits};
ghost use Rattle.history_model.specs.Legal.{is_legal, journal_length};
ghost use Rattle.drawing.specs.Replay.{replay};
ghost use Rattle.history_model.specs.Run.{is_done};
ghost use Rattle.drawing.specs.Tables.{tables_of};
ghost use Rattle.topo_desk.specs.Verdict.{IsTried, history_after};
ghost use Rattle.topo_desk.specs.Left.{StandsOrDoubts};
ghost use Rattle.topo_desk.specs.Doubt.{may_be_in_doubt};
ghost use Rattle.topo_desk.specs.Prepared.{IsPrepared};

use crate::board::Board;
use crate::prepared::Prepared;
use read_set::PlanEnd;
use std::alloc::Global;
use std::sync::ledger::Ledger;
use topo_base::{Answer, Edit, History, Memory, Steps};
use topo_disk::Disk;
use topo_journal::Journal;
use topo_tables::Tables;

/// A board and the journal that keeps its history on a disk. Where the disk tells what it holds, the journal has the
/// spellings of the board's history, and what it is in doubt of spells an entry with which that is legal.
#[derive(Drop)]
pub struct Desk<D: Disk> {
    board: Board,
    journal: Journal<D>,
    pub ghost small: { board.bounds.max_journal < 2 ^ 32 },
    pub ghost gate: { journal.gate + 1 ≡ journal_length board.history },
    pub ghost stands: { D.tells → history journal.gate (D.seen journal.disk) ≡ spellings board.history } by { Prim.hlevel props },
    pub ghost doubted: { D.tells → journal.doubt ≡ true → may_be_in_doubt board.bounds board.history (doubted journal.gate (D.seen journal.disk)) ≡ true } by { Prim.hlevel props },
}

impl<D: Disk> Desk<D> {
    /// The desk of a board and a journal that stand for one history.
    pub fn of(board: Board, journal: Journal<D>) -> Desk<D>
        requires small { board.bounds.max_journal < 2 ^ 32 }
        requires gate { journal.gate + 1 ≡ journal_length board.history }
        requires sure { journal.doubt ≡ false }
        requires stands { D.tells → history journal.gate (D.seen journal.disk) ≡ spellings board.history }
        ensures { (result.board ≡ board) × (result.journal ≡ journal) }
    {
        Desk { board, journal }
    }

    /// The tables of the history's drawing.
    pub fn tables(&self) -> &Tables
        ensures { result.now.rows ≡ tables_of (replay self.now.board.history) }
    {
        self.board.tables()
    }

    /// The history, which is legal by the desk's limits.
    pub fn history(&self) -> &History
        ensures entries { result.now.entries ≡ self.now.board.history }
        ensures legal { IsTrue (is_legal self.now.board.bounds.max_id self.now.board.bounds.max_journal self.now.board.history) }
    {
        self.board.history()
    }

    /// Tries an edit of this editor. Done comes once the entry is on the disk and in the history. DiskFault comes only
    /// where the disk's count of faults rose, in the place of Done. Whatever isn't Done leaves the history as it was.
    /// Memory is wanted before the first call of the disk alone.
    pub fn edit<L: Ledger>(
        &mut self,
        alloc: Global,
        editor: u32,
        edit: Edit,
        steps: &mut Steps<L>,
    ) -> Result<Answer, Memory>
        requires editor { IsEditor editor }
        requires limits { IsTrue (keeps_limits edit) }
        ensures answer { IfOk result (λ a. IsTried self.old.board.bounds self.old.board.history (record { editor = editor; edit = edit }) a) }
        ensures history { IfOk result (λ a. self.new.board.history ≡ history_after self.old.board.history (record { editor = editor; edit = edit }) a) }
        ensures bounds { self.new.board.bounds ≡ self.old.board.bounds }
        ensures memory { OnErr result (self.new.board.history ≡ self.old.board.history) }
        ensures fault { result ≡ Ok DiskFault → Rose (D.faults self.old.journal.disk) (D.faults self.new.journal.disk) }
        ensures calm { (result ≡ Ok DiskFault → ⊥) → D.faults self.new.journal.disk ≡ D.faults self.old.journal.disk }
        ensures doubt { self.new.journal.doubt ≡ true → (result ≡ Ok DiskFault) ⊎ (self.old.journal.doubt ≡ true) }
        ensures sure { IfOk result (λ a. IsTrue (is_done a) → self.new.journal.doubt ≡ false) }

        // A crash at any moment of the call leaves the history, or it and one legal entry.
        ensures any_moment { D.tells → LeavesOnly D.moment D.left_since self.old.journal.disk self.new.journal.disk
            (λ c. AreBytes c → StandsOrDoubts self.old.board.bounds self.old.board.history true c) }
    {
        self.board.see_legal();
        match self.board.prepare(alloc, editor, edit, steps) {
            Ok(prepared) => Ok(self.enter(prepared, steps)),
            Err(PlanEnd::Refused { rule, front }) => Ok(Answer::Refused { rule, front }),
            Err(PlanEnd::Memory) => Err(Memory),
        }
    }

    // Enters an edit that was prepared, once its entry is on the disk.
    fn enter<L: Ledger>(&mut self, prepared: Prepared, steps: &mut Steps<L>) -> Answer
        requires { IsPrepared self.old.board prepared.entry prepared.writes prepared.ids prepared.frame.items }
        ensures answer { IsTried self.old.board.bounds self.old.board.history prepared.entry result }
        ensures history { self.new.board.history ≡ history_after self.old.board.history prepared.entry result }
        ensures bounds { self.new.board.bounds ≡ self.old.board.bounds }
        ensures fault { result ≡ DiskFault → Rose (D.faults self.old.journal.disk) (D.faults self.new.journal.disk) }
        ensures calm { (result ≡ DiskFault → ⊥) → D.faults self.new.journal.disk ≡ D.faults self.old.journal.disk }
        ensures doubt { self.new.journal.doubt ≡ true → result ≡ DiskFault }
        ensures sure { IsTrue (is_done result) → self.new.journal.doubt ≡ false }
        ensures any_moment { D.tells → LeavesOnly D.moment D.left_since self.old.journal.disk self.new.journal.disk
            (λ c. AreBytes c → StandsOrDoubts self.old.board.bounds self.old.board.history true c) }
    {
        self.board.see_legal();
        match self.journal.append(prepared.frame()) {
            Ok(()) => self.board.settle(prepared, steps),
            Err(_) => Answer::DiskFault,
        }
    }

    /// The disk. What a read gives, and each thing that a crash now may leave, stands for the history, or, where an
    /// entry is in doubt, for it and that one.
    pub fn into_disk(self) -> D
        ensures disk { result ≡ self.journal.disk }
        ensures left { D.tells → Each (StandsOrDoubts self.board.bounds self.board.history self.journal.doubt) (D.seen result) (D.may_leave result) }
    {
        self.board.see_legal();
        self.journal.into_disk()
    }
}
