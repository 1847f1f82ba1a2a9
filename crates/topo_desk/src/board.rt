ghost use Rattle.std.specs.Prelude.{◌≡◌, ℕ, ◌+◌, ◌<◌, ◌∷◌, [], ◌++◌, length, IsTrue, IfOk, IfErr, OnOk, OnErr};
ghost use Rattle.std.specs.List.{list_all};
ghost use Rattle.read_set.specs.Planned.{IsEditor};
ghost use Rattle.read_set.specs.Plans.{IsPlanFor};
ghost use Rattle.topo_base.specs.declared.answer.Answer.TheVariants.{Done};
ghost use Rattle.drawing.specs.InRange.{is_spelled};
ghost use Rattle.drawing.specs.Accepted.{keeps_limits};
ghost use Rattle.history_model.specs.Legal.{is_legal};
ghost use Rattle.drawing.specs.Replay.{replay};
ghost use Rattle.drawing.specs.Tables.{tables_of};
ghost use Rattle.topo_tables.specs.Room.{HasRoom};
ghost use Rattle.topo_desk.specs.Boarded.{bounds_of};
ghost use Rattle.topo_desk.specs.Prepared.{IsReadied, IsPrepared, IsUnready};
ghost use Rattle.topo_desk.specs.Verdict.{verdict, history_after};

use crate::new_ids::any_beyond;
use crate::planning::plan_on;
use crate::prepared::Prepared;
use read_set::{Edited, PlanEnd};
use std::alloc::Global;
use std::marker::Model;
use std::sync::ledger::Ledger;
use topo_base::{Answer, Edit, History, Limits, Memory, Rule, Steps};
use topo_tables::{Tables, Writes};

/// Tables, and the legal history that they stand for. Contracts see the history, how far it may
/// grow, and for what there is room.
#[derive(Drop)]
pub struct Board {
    tables: Tables,
    history: History,
    limits: Limits,
    journal_bytes: u64,
}

impl Model for Board {
    ghost use Rattle.topo_desk.specs.Boarded.{Boarded, IsBoard, bounds_of};

    ghost Value = { Boarded };

    ghost view = { λ b. record { history = b.history.entries; bounds = bounds_of b.limits; row_room = b.tables.room; entry_room = b.history.room } };

    ghost invariant = { λ b. IsBoard b.tables.rows b.history.entries (bounds_of b.limits) b.journal_bytes };
}

impl Board {
    /// Nothing drawn, and no entry. Takes no memory.
    pub fn empty(alloc: Global, limits: Limits) -> Board
        ensures history { result.history ≡ [] }
        ensures bounds { result.bounds ≡ bounds_of limits }
    {
        Board {
            tables: Tables::empty(alloc),
            history: History::new(alloc),
            limits,
            journal_bytes: 8,
        }
    }

    /// The tables of the history's drawing.
    pub fn tables(&self) -> &Tables
        ensures { result.now.rows ≡ tables_of (replay self.now.history) }
    {
        &self.tables
    }

    /// The history, which is legal.
    pub fn history(&self) -> &History
        ensures entries { result.now.entries ≡ self.now.history }
        ensures legal { IsTrue (is_legal self.now.bounds.max_id self.now.bounds.max_journal self.now.history) }
    {
        &self.history
    }

    /// The length of the history.
    pub fn front(&self) -> u64
        ensures { result ≡ length self.now.history }
    {
        self.history.len()
    }

    /// The history is legal, and its entries can be spelled.
    pub(crate) fn see_legal(&self)
        ensures legal { IsTrue (is_legal self.now.bounds.max_id self.now.bounds.max_journal self.now.history) }
        ensures spelled { IsTrue (list_all is_spelled self.now.history) }
    {
        let _ = &self.history;
    }

    // What there is to write for an edit, where no rule of its function refuses it.
    fn plan<L: Ledger>(
        &self,
        alloc: Global,
        edit: &Edit,
        steps: &mut Steps<L>,
    ) -> Result<Edited, PlanEnd>
        ensures planned { IfOk result (λ d. IsPlanFor (replay self.now.history) edit.now d.writes d.ids) }
        ensures refused { (editor : ℕ) → IfErr result (IsUnready (verdict self.now.bounds self.now.history (record { editor = editor; edit = edit.now }))) }
    {
        let history = &self.history;
        plan_on(alloc, &self.tables, history.len(), edit, steps)
    }

    // An edit that may be entered, where its ids and the journal stay within their limits.
    fn screen(
        &self,
        alloc: Global,
        editor: u32,
        edit: Edit,
        edited: Edited,
    ) -> Result<Prepared, PlanEnd>
        requires editor { IsEditor editor }
        requires limits { IsTrue (keeps_limits edit) }
        requires planned { IsPlanFor (replay self.now.history) edit edited.writes edited.ids }
        ensures entry { IfOk result (λ p. p.entry ≡ record { editor = editor; edit = edit }) }
        ensures readied { IfOk result (λ p. IsReadied self.now p.entry p.writes p.ids p.frame.items) }
        ensures refused { IfErr result (IsUnready (verdict self.now.bounds self.now.history (record { editor = editor; edit = edit }))) }
    {
        let front = self.history.len();
        if any_beyond(edited.writes.as_slice(), self.limits.max_id) {
            return Err(PlanEnd::Refused {
                rule: Rule::IdsSpent,
                front,
            });
        }
        let prepared = Prepared::of(alloc, editor, edit, edited)?;
        if self.limits.max_journal - self.journal_bytes < prepared.frame_len() {
            return Err(PlanEnd::Refused {
                rule: Rule::HistoryFull,
                front,
            });
        }
        Ok(prepared)
    }

    // Makes room for these writes and for one entry. The history stays as it is in any case.
    fn make_room(&mut self, writes: &Writes) -> Result<(), Memory>
        ensures history { self.new.history ≡ self.old.history }
        ensures bounds { self.new.bounds ≡ self.old.bounds }
        ensures room { OnOk result (HasRoom self.new.row_room writes.now × (0 < self.new.entry_room)) }
    {
        self.tables.reserve(writes)?;
        self.history.reserve()
    }

    /// Takes all that an edit needs to be entered, where it would be done. The history stays as it is in any case.
    pub(crate) fn prepare<L: Ledger>(
        &mut self,
        alloc: Global,
        editor: u32,
        edit: Edit,
        steps: &mut Steps<L>,
    ) -> Result<Prepared, PlanEnd>
        requires editor { IsEditor editor }
        requires limits { IsTrue (keeps_limits edit) }
        ensures entry { IfOk result (λ p. p.entry ≡ record { editor = editor; edit = edit }) }
        ensures prepared { IfOk result (λ p. IsPrepared self.new p.entry p.writes p.ids p.frame.items) }
        ensures refused { IfErr result (IsUnready (verdict self.old.bounds self.old.history (record { editor = editor; edit = edit }))) }
        ensures history { self.new.history ≡ self.old.history }
        ensures bounds { self.new.bounds ≡ self.old.bounds }
    {
        let edited = self.plan(alloc, &edit, steps)?;
        let prepared = self.screen(alloc, editor, edit, edited)?;
        self.make_room(&prepared.writes)?;
        Ok(prepared)
    }

    /// Enters an edit that was prepared. Takes no memory.
    pub(crate) fn settle<L: Ledger>(&mut self, prepared: Prepared, steps: &mut Steps<L>) -> Answer
        requires { IsPrepared self.old prepared.entry prepared.writes prepared.ids prepared.frame.items }
        ensures answer { result ≡ Done prepared.ids (length self.old.history + 1) }
        ensures verdict { result ≡ verdict self.old.bounds self.old.history prepared.entry }
        ensures history { self.new.history ≡ self.old.history ++ prepared.entry ∷ [] }
        ensures bounds { self.new.bounds ≡ self.old.bounds }
    {
        self.journal_bytes += prepared.frame_len();
        let Prepared {
            entry,
            writes,
            ids,
            frame: _,
        } = prepared;
        self.tables.write_all(writes, steps);
        self.history.push(entry);
        let front = self.history.len();
        Answer::Done { ids, front }
    }

    /// Tries an edit of this editor, and enters it where it is done. Whatever else is answered leaves the history as it
    /// was.
    pub fn edit<L: Ledger>(
        &mut self,
        alloc: Global,
        editor: u32,
        edit: Edit,
        steps: &mut Steps<L>,
    ) -> Result<Answer, Memory>
        requires editor { IsEditor editor }
        requires limits { IsTrue (keeps_limits edit) }
        ensures answer { IfOk result (λ a. a ≡ verdict self.old.bounds self.old.history (record { editor = editor; edit = edit })) }
        ensures history { IfOk result (λ a. self.new.history ≡ history_after self.old.history (record { editor = editor; edit = edit }) a) }
        ensures bounds { self.new.bounds ≡ self.old.bounds }
        ensures memory { OnErr result (self.new.history ≡ self.old.history) }
    {
        match self.prepare(alloc, editor, edit, steps) {
            Ok(prepared) => Ok(self.settle(prepared, steps)),
            Err(PlanEnd::Refused { rule, front }) => Ok(Answer::Refused { rule, front }),
            Err(PlanEnd::Memory) => Err(Memory),
        }
    }
}
