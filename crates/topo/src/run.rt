ghost use Rattle.std.specs.Prelude.{◌≡◌, IsTrue, IfOk, OnOk, OnErr};
ghost use Rattle.std.specs.List.{list_all};
ghost use Rattle.topo_journal.specs.Kept.{Each};
ghost use Rattle.script_model.specs.NamedRange.{is_script_line};
ghost use Rattle.drawing.specs.Replay.{replay};
ghost use Rattle.drawing.specs.Tables.{tables_of};
ghost use Rattle.drawing.specs.Accepted.{keeps_limits};
ghost use Rattle.history_model.specs.Legal.{is_legal};
ghost use Rattle.topo_desk.specs.Left.{StandsOrDoubts};
ghost use Rattle.topo_desk.specs.Verdict.{IsTried, history_after};
ghost use Rattle.topo.specs.Run.{edit_at, entry, IsLineTried, grown, is_disk_fault};
ghost use Rattle.topo.specs.Running.{IsBegun, standing_of, noted, IsAlike, IsServed, IsSame, IsBound, IsRest, Replies, Serves, ServesAll};

use crate::copies::copy_of;
use edit_words::reply_text;
use script_reader::{Bindings, LineEdit, ResolveEnd, ScriptLine};
use std::alloc::Global;
use std::marker::Model;
use std::sync::ledger::Ledger;
use topo_base::{Answer, Edit, Ids, Memory, Steps};
use topo_desk::Desk;
use topo_disk::Disk;
use topo_io::{Sink, write_all};
use topo_tables::Tables;

/// The one editor of a script.
const EDITOR: u32 = 1;

/// A desk on which a script is run: what its names are bound to, whether all lines were done, and whether the disk
/// failed in one. Contracts see the history, and the disk's count of faults and whether an entry is in doubt.
#[derive(Drop)]
pub struct Run<D: Disk> {
    desk: Desk<D>,
    names: Bindings,
    all_done: bool,
    failed: bool,
}

impl<D: Disk> Model for Run<D> {
    ghost use Rattle.topo.specs.Running.{Running};

    ghost Value = { Running };

    ghost view = { λ r. record {
      history = r.desk.board.history;
      bounds = r.desk.board.bounds;
      bindings = r.names;
      all_done = r.all_done;
      failed = r.failed;
      in_doubt = r.desk.journal.doubt;
      faults = D.faults r.desk.journal.disk;
    } };
}

/// Why a run stops before its end.
#[derive(Clone, Copy, Debug, PartialEq, Eq)]
pub enum Stop {
    /// A line wanted memory.
    NoMemory,
    /// A reply's text wanted memory.
    NoText,
    /// The sink failed.
    Fault,
}

impl<D: Disk> Run<D> {
    /// A run on this desk, whose history is legal, with no name bound and no line answered.
    pub fn new(alloc: Global, desk: Desk<D>) -> Run<D>
        ensures begun { IsBegun desk.board.history desk.board.bounds desk.journal.doubt (D.faults desk.journal.disk) result }
        ensures legal { IsTrue (is_legal desk.board.bounds.max_id desk.board.bounds.max_journal desk.board.history) }
    {
        let _ = desk.history();
        Run {
            desk,
            names: Bindings::new(alloc),
            all_done: true,
            failed: false,
        }
    }

    pub fn tables(&self) -> &Tables
        ensures { result.now.rows ≡ tables_of (replay self.now.history) }
    {
        self.desk.tables()
    }

    /// Whether each line so far was answered that it is done.
    pub fn all_done(&self) -> bool
        ensures { result ≡ self.now.all_done }
    {
        self.all_done
    }

    /// Whether the disk failed in a line.
    pub fn has_failed(&self) -> bool
        ensures { result ≡ self.now.failed }
    {
        self.failed
    }

    /// The edit that a line gives, or None where a name that it uses isn't bound.
    fn edit_of(&self, alloc: Global, line: &ScriptLine) -> Result<Option<Edit>, Memory>
        ensures { IfOk result (λ edit. edit ≡ edit_at (standing_of self.now) line.now) }
    {
        match line.edit() {
            LineEdit::Plain(edit) => Ok(Some(copy_of(alloc, edit)?)),
            LineEdit::Named(named) => match self.names.resolve(alloc, named) {
                Ok(edit) => Ok(Some(edit)),
                Err(ResolveEnd::Unbound) => Ok(None),
                Err(ResolveEnd::Memory) => Err(Memory),
            },
        }
    }

    /// Tries an edit on the desk.
    fn enter<L: Ledger>(
        &mut self,
        alloc: Global,
        edit: Edit,
        steps: &mut Steps<L>,
    ) -> Result<Answer, Memory>
        requires { IsTrue (keeps_limits edit) }
        ensures tried { IfOk result (λ a. IsTried self.old.bounds self.old.history (entry edit) a) }
        ensures history { IfOk result (λ a. self.new.history ≡ history_after self.old.history (entry edit) a) }
        ensures alike { IfOk result (λ a. IsAlike self.old (is_disk_fault a) self.new) }
        ensures err { OnErr result (IsSame self.old self.new) }
    {
        self.desk.edit(alloc, EDITOR, edit, steps)
    }

    /// Tries the edit of a line, where each name that it uses is bound. Its names are still to be bound.
    fn try_edit<L: Ledger>(
        &mut self,
        alloc: Global,
        line: &ScriptLine,
        steps: &mut Steps<L>,
    ) -> Result<Answer, Memory>
        requires { IsTrue (is_script_line line.now) }
        ensures tried { IfOk result (λ a. IsLineTried self.old.bounds (standing_of self.old) line.now a) }
        ensures history { IfOk result (λ a. self.new.history ≡ grown self.old.history (edit_at (standing_of self.old) line.now) a) }
        ensures alike { IfOk result (λ a. IsAlike self.old (is_disk_fault a) self.new) }
        ensures err { OnErr result (IsSame self.old self.new) }
    {
        match self.edit_of(alloc, line)? {
            Some(edit) => self.enter(alloc, edit, steps),
            None => Ok(Answer::Unbound),
        }
    }

    /// Notes whether a line was done, and whether the disk failed in it.
    fn note(&mut self, answer: &Answer)
        ensures { self.new ≡ noted self.old answer.now }
    {
        match answer {
            Answer::Done { .. } => {}
            Answer::DiskFault => {
                self.all_done = false;
                self.failed = true;
            }
            _ => self.all_done = false,
        }
    }

    /// Tries a line. Its names are still to be bound.
    fn try_line<L: Ledger>(
        &mut self,
        alloc: Global,
        line: &ScriptLine,
        steps: &mut Steps<L>,
    ) -> Result<Answer, Memory>
        requires { IsTrue (is_script_line line.now) }
        ensures served { IfOk result (λ a. IsServed self.old line.now a self.new × (self.new.bindings ≡ self.old.bindings)) }
        ensures err { OnErr result (IsSame self.old self.new) }
    {
        let answer = self.try_edit(alloc, line, steps)?;
        self.note(&answer);
        Ok(answer)
    }

    /// Binds the names of a line to the ids of its answer.
    fn bind(&mut self, line: &ScriptLine, answer: &Answer) -> Result<(), Memory>
        ensures ok { OnOk result (IsBound self.old line.now answer.now self.new) }
        ensures rest { IsRest self.old self.new }
    {
        match answer {
            Answer::Done { ids, .. } => self.names.bind(line.names(), ids),
            _ => self.names.bind(line.names(), &Ids::new()),
        }
    }

    /// Tries a line, and writes its reply.
    fn reply_to<K: Sink, L: Ledger>(
        &mut self,
        alloc: Global,
        line: &ScriptLine,
        sink: &mut K,
        steps: &mut Steps<L>,
    ) -> Result<Answer, Stop>
        requires { IsTrue (is_script_line line.now) }
        ensures { Replies self.old line.now self.new
            (record { written = K.written sink.old; faults = K.faults sink.old })
            (record { written = K.written sink.new; faults = K.faults sink.new }) result }
    {
        let Ok(answer) = self.try_line(alloc, line, steps) else {
            return Err(Stop::NoMemory);
        };
        let Ok(text) = reply_text(alloc, &answer) else {
            return Err(Stop::NoText);
        };
        match write_all(sink, text.as_bytes()) {
            Ok(()) => Ok(answer),
            Err(_) => Err(Stop::Fault),
        }
    }

    /// Tries a line, writes its reply, and then binds its names. False where these wanted memory: then no line more can
    /// be tried.
    fn serve<K: Sink, L: Ledger>(
        &mut self,
        alloc: Global,
        line: &ScriptLine,
        sink: &mut K,
        steps: &mut Steps<L>,
    ) -> Result<bool, Stop>
        requires { IsTrue (is_script_line line.now) }
        ensures { Serves self.old line.now self.new
            (record { written = K.written sink.old; faults = K.faults sink.old })
            (record { written = K.written sink.new; faults = K.faults sink.new }) result }
    {
        match self.reply_to(alloc, line, sink, steps) {
            Ok(answer) => Ok(self.bind(line, &answer).is_ok()),
            Err(stop) => Err(stop),
        }
    }

    /// Tries the lines in order, and then lets go of them. Each reply is written before the next line is begun.
    pub fn serve_all<K: Sink, L: Ledger>(
        &mut self,
        alloc: Global,
        lines: Vec<ScriptLine>,
        sink: &mut K,
        steps: &mut Steps<L>,
    ) -> Result<(), Stop>
        requires { IsTrue (list_all is_script_line lines.items) }
        ensures { ServesAll self.old lines.items self.new
            (record { written = K.written sink.old; faults = K.faults sink.old })
            (record { written = K.written sink.new; faults = K.faults sink.new }) result }
    {
        for (at, line) in lines.iter().enumerate() {
            match self.serve(alloc, line, sink, steps) {
                Ok(true) => {}
                Ok(false) => {
                    if at + 1 < lines.len() {
                        return Err(Stop::NoMemory);
                    }
                    return Ok(());
                }
                Err(stop) => return Err(stop),
            }
        }
        Ok(())
    }

    /// The disk, as the desk leaves it.
    pub fn into_disk(self) -> D
        ensures faults { D.faults result ≡ self.faults }
        ensures left { D.tells → Each (StandsOrDoubts self.bounds self.history self.in_doubt) (D.seen result) (D.may_leave result) }
    {
        self.desk.into_disk()
    }
}
