ghost use Rattle.std.specs.Prelude.{◌≡◌, ℕ, ◌+◌, ◌-◌, ◌%◌, ◌^◌, ◌<◌, ◌≤◌, List, [], ◌∷◌, ◌++◌, length, drop, max, map, All, Any, IfOk, IfErr, Some, None, vec_len, vec_capacity};
ghost use Rattle.topo_base.specs.declared.edit.Entry.{Entry};
ghost use Rattle.commit_lock.specs.declared.view.Stage.TheVariants.{Idle, Waits, Holds};
ghost use Rattle.commit_lock.specs.History.{IsPrefix, longer, own_entries, gained};
ghost use Rattle.commit_lock.specs.Views.{view_of, new_lines};
ghost use Rattle.commit_lock.specs.Steps.{HasTurn};
ghost use Rattle.commit_lock.specs.Beginning.{origin, origin_of, maker_of};
ghost use Rattle.commit_lock.specs.Passes.{new_passes, with_seen, pass_after_turn, with_entry, note_of, IsGrownBy, Gathers, pass_view};

use crate::rule::{
    CountEntry, DrawTicket, IssuePass, JoinNote, JoinPass, Key, LoadFront, LoadServing, LockRule,
    ServeNext, SplitNote,
};
use crate::view::View;
use crate::{Chronicle, Note, Pass, Turn};
use atomic_table::{Refused, Seat, Shared, Table};
use std::alloc::Global;
use std::marker::Model;
use std::snapshot::Snapshot;
use std::sync::Wait;
use topo_base::Memory;

// The words of the table: how many tickets were drawn, and the ticket whose turn it is, both modulo 2^64.
const TICKET: usize = 0;

const SERVING: usize = 1;

// How many entries the history has gained since the lock was made.
const FRONT: usize = 2;

/// A ticket lock round a value with a history. Its passes take turns with the value, in the order of their tickets.
///
/// Contracts see which lock it is (`id`) and how it began (`from`): the value's setting, its opening history and the
/// number of passes. Each call has the condition that the pass, turn or note that it takes is one of this lock's.
/// The lock can't be dropped: it ends in `close`.
pub struct TurnLock<T: Chronicle> {
    table: Table<Option<T>, View, Key<T>, LockRule, Global>,
}

impl<T: Chronicle> Model for TurnLock<T> {
    ghost use Rattle.std.specs.Prelude.{◌≡◌, ◌≤◌};
    ghost use Rattle.commit_lock.specs.Passes.{LockValue};
    ghost use Rattle.commit_lock.specs.Beginning.{origin_of};

    ghost Value = { LockValue };

    ghost view = { λ l. record { id = l.table.shared.table_id; from = origin_of T.entries T.setting l.table.shared.key } };

    ghost invariant = { λ l. (l.table.shared.table_id.words ≡ 3) × (l.table.shared.table_id.slots ≡ 1) × (1 ≤ l.table.shared.key.passes) };
}

// Gives out the passes, with the numbers from 1. The seat has the lines of all of them, and is left with none.
fn issue<T: Chronicle>(
    shared: &Shared<Option<T>, View, Key<T>, LockRule>,
    mut seat: Seat<Option<T>, View>,
    editors: u32,
    mut passes: Vec<Pass>,
) -> Vec<Pass>
    requires words { (shared.now.table_id.words ≡ 3) × (seat.table_id ≡ shared.now.table_id) }
    requires room { (passes.items ≡ []) × (editors ≤ vec_capacity passes) }
    requires maker { let o = origin_of T.entries T.setting shared.now.key in (o.passes ≡ editors) × (seat.me ≡ (maker_of T.faults o shared.now.key, [])) }
    ensures { result.items ≡ new_passes shared.now.table_id (origin_of T.entries T.setting shared.now.key) (T.faults shared.now.key.value.value) 1 editors }
{
    for _ in 0..editors {
        let one = shared.split_seat::<IssuePass>(&mut seat);
        passes.push_reserved(Pass {
            badge: one.into_badge(),
        });
    }
    passes
}

// Takes the lines of all passes into one seat.
fn gather<T: Chronicle>(
    shared: &Shared<Option<T>, View, Key<T>, LockRule>,
    mut passes: Vec<Pass>,
) -> Seat<Option<T>, View>
    requires words { shared.now.table_id.words ≡ 3 }
    requires some { 0 < length passes.items }
    requires own { All (λ p. p.lock ≡ shared.now.table_id) passes.items }
    ensures table { result.table_id ≡ shared.now.table_id }
    ensures slots { result.me.1 ≡ [] }
    ensures lines { Gathers passes.items result.me.0 }
{
    let Some(first) = passes.pop() else {
        unreachable!()
    };
    let Pass { badge } = first;
    let mut seat = badge.into_seat::<Option<T>>();
    'joins: while let Some(pass) = passes.pop() {
        let Pass { badge } = pass;
        shared.join_seat::<JoinPass>(&mut seat, badge.into_seat::<Option<T>>());
    }
    passes.destroy_empty();
    seat
}

impl<T: Chronicle> TurnLock<T> {
    /// A lock round the value, with a pass for each of 1 to 64 editors, numbered from 1 in the order of the vector.
    /// Each pass knows the value's setting, has seen its history and its count, and has no own entries and no own faults.
    ///
    /// The value comes back where memory ran out.
    pub fn make(
        alloc: Global,
        value: T,
        editors: u32,
    ) -> Result<(TurnLock<T>, Vec<Pass>), (Memory, T)>
        requires some { 1 ≤ editors }
        requires few { editors ≤ 64 }
        ensures lock { IfOk result (λ r. r.0.from ≡ origin T.entries T.setting value editors) }
        ensures passes { IfOk result (λ r. r.1.items ≡ new_passes r.0.id r.0.from (T.faults value) 1 editors) }
        ensures err { IfErr result (λ r. r.1 ≡ value) }
    {
        let Ok(passes) = Vec::with_capacity(alloc, editors as usize) else {
            return Err((Memory, value));
        };
        let Ok(mut slots) = Vec::with_capacity(alloc, 1) else {
            passes.destroy_empty();
            return Err((Memory, value));
        };
        let key = Key {
            value: Snapshot::of(&value),
            passes: u64::from(editors),
        };
        slots.push_reserved(Some(value));
        match Table::new(alloc, &[0, 0, 0], slots, &key) {
            Ok((table, seat)) => {
                let passes = issue(&table.shared, seat, editors, passes);
                Ok((TurnLock { table }, passes))
            }
            Err(Refused { mut slots }) => {
                passes.destroy_empty();
                let Some(Some(value)) = slots.pop() else {
                    unreachable!()
                };
                slots.destroy_empty();
                Err((Memory, value))
            }
        }
    }

    // Waits until the ticket is served. It sleeps while the serving word stays, and the end of each turn wakes all.
    fn wait_turn<R: Wait>(&self, rt: &R, seat: &mut Seat<Option<T>, View>, ticket: u64)
        requires { (seat.old.table_id ≡ self.now.id) × ((t : ℕ) × (x : _) × (t % 2 ^ 64 ≡ ticket) × (seat.old.me ≡ (pass_view (Waits t) x, []))) }
        ensures { (seat.new.table_id ≡ seat.old.table_id) × ((t : ℕ) × HasTurn T.entries T.faults T.setting seat.old.me.0 t seat.new.me) }
    {
        for _ in rt.forever() {
            let serving = self.table.shared.load::<LoadServing>(seat, SERVING);
            if serving == ticket {
                return;
            }
            self.table
                .shared
                .park(rt, SERVING, (serving & 0xffff_ffff) as u32);
        }
        unreachable!()
    }

    /// Draws a ticket, waits for its turn and takes the value out. This is the only call that may wait, and nothing
    /// says for how long. It takes no memory.
    ///
    /// What the pass had seen begins the value's history, the value's count is no less than what it had seen, and its
    /// setting is the pass's.
    pub fn take<R: Wait>(&self, rt: &R, pass: Pass) -> (Turn<T>, T)
        requires { pass.lock ≡ self.now.id }
        ensures turn { result.0 ≡ with_seen pass (T.entries result.1) (T.faults result.1) }
        ensures grown { IsPrefix pass.seen (T.entries result.1) }
        ensures count { pass.count ≤ T.faults result.1 }
        ensures setting { T.setting result.1 ≡ pass.from.setting }
    {
        let Pass { badge } = pass;
        let mut seat = badge.into_seat::<Option<T>>();
        let ticket = self
            .table
            .shared
            .fetch_add::<DrawTicket>(&mut seat, TICKET, 1);
        self.wait_turn(rt, &mut seat, ticket);
        match self.table.shared.exchange(&mut seat, 0, None) {
            Some(value) => (Turn { seat }, value),
            None => unreachable!(),
        }
    }

    // Puts the value into the slot that the seat holds.
    fn fill(&self, seat: &mut Seat<Option<T>, View>, value: T)
        requires { (seat.old.table_id ≡ self.now.id) × (seat.old.me.1 ≡ (0, None) ∷ []) }
        ensures { (seat.new.table_id ≡ seat.old.table_id) × (seat.new.me ≡ (seat.old.me.0, (0, Some value) ∷ [])) }
    {
        let old = self.table.shared.exchange(seat, 0, Some(value));
        let None = old else { unreachable!() };
    }

    // Ends the turn.
    fn end(&self, mut seat: Seat<Option<T>, View>) -> Pass
        requires { (seat.table_id ≡ self.now.id) × ((t : ℕ) × (x : _) × (y : T) × (seat.me ≡ (pass_view (Holds t) x, (0, Some y) ∷ [])) × (x.lock ≡ self.now.id) × (T.entries y ≡ x.seen) × (T.setting y ≡ x.from.setting) × (x.count ≤ T.faults y)) }
        ensures { (t : ℕ) (x : _) (y : T) → seat.me ≡ (pass_view (Holds t) x, (0, Some y) ∷ []) → x.lock ≡ self.now.id → result ≡ pass_after_turn x (T.faults y) }
    {
        self.table
            .shared
            .fetch_add::<ServeNext>(&mut seat, SERVING, 1);
        self.table.shared.wake_all(SERVING);
        Pass {
            badge: seat.into_badge(),
        }
    }

    /// Ends the turn. The value comes back with the same history and setting, and with no lower count.
    ///
    /// The pass has seen the value's history and count. Its own faults have grown by as much as the count did since `take`.
    pub fn give(&self, turn: Turn<T>, value: T) -> Pass
        requires lock { turn.lock ≡ self.now.id }
        requires list { T.entries value ≡ turn.seen }
        requires setting { T.setting value ≡ turn.from.setting }
        requires count { turn.count ≤ T.faults value }
        ensures { result ≡ pass_after_turn turn (T.faults value) }
    {
        let Turn { mut seat } = turn;
        self.fill(&mut seat, value);
        self.end(seat)
    }

    /// Ends the turn as `give` does, where the history has grown by one entry whose editor is the pass's number. With
    /// it fewer than 2^64 entries came since the lock was made.
    ///
    /// The pass's own entries have that one more, at its place: the length of the history, which ends with it.
    pub fn give_grown(&self, turn: Turn<T>, value: T) -> Pass
        requires lock { turn.lock ≡ self.now.id }
        requires list { IsGrownBy turn.number turn.seen (T.entries value) }
        requires room { length (T.entries value) < length turn.from.opening + 2 ^ 64 }
        requires setting { T.setting value ≡ turn.from.setting }
        requires count { turn.count ≤ T.faults value }
        ensures { (e : Entry) → T.entries value ≡ turn.seen ++ e ∷ [] → result ≡ pass_after_turn (with_entry turn e) (T.faults value) }
    {
        let Turn { mut seat } = turn;
        self.fill(&mut seat, value);
        self.table
            .shared
            .fetch_add::<CountEntry>(&mut seat, FRONT, 1);
        self.end(seat)
    }

    /// Copies what the pass has seen. The pass stays as it is.
    pub fn note(&self, pass: Pass) -> (Note, Pass)
        requires { pass.lock ≡ self.now.id }
        ensures note { result.0 ≡ note_of pass }
        ensures pass { result.1 ≡ pass }
    {
        let Pass { badge } = pass;
        let mut seat = badge.into_seat::<Option<T>>();
        let note = self.table.shared.split_seat::<SplitNote>(&mut seat);
        (
            Note {
                badge: note.into_badge(),
            },
            Pass {
                badge: seat.into_badge(),
            },
        )
    }

    /// The pass has seen the longer history and the greater count of its own and the note's; both histories begin the
    /// longer one. Its own entries and own faults stay.
    pub fn learn(&self, pass: Pass, note: Note) -> Pass
        requires pass { pass.lock ≡ self.now.id }
        requires note { note.lock ≡ self.now.id }
        ensures known { result ≡ with_seen pass (longer pass.seen note.seen) (max pass.count note.count) }
        ensures own { IsPrefix pass.seen result.seen }
        ensures told { IsPrefix note.seen result.seen }
    {
        let Pass { badge } = pass;
        let Note { badge: told } = note;
        let mut seat = badge.into_seat::<Option<T>>();
        self.table
            .shared
            .join_seat::<JoinNote>(&mut seat, told.into_seat::<Option<T>>());
        self.table.shared.load::<LoadFront>(&mut seat, FRONT);
        Pass {
            badge: seat.into_badge(),
        }
    }

    /// Ends the lock and gives the value, once all passes are back, in any order.
    ///
    /// Each pass's own entries are exactly the entries of its number that the history has gained since the lock was
    /// made, at their places, and each gained entry is of a pass's number. What each pass had seen begins the history,
    /// the count is no less than what each had seen, and the setting is the one that the lock began with.
    pub fn close(self, passes: Vec<Pass>) -> T
        requires own { All (λ p. p.lock ≡ self.id) passes.items }
        requires all { (k : ℕ) → 1 ≤ k → k ≤ self.from.passes → Any (λ p. p.number ≡ k) passes.items }
        ensures grown { IsPrefix self.from.opening (T.entries result) }
        ensures own { All (λ p. p.own ≡ own_entries p.number (length self.from.opening + 1) (gained self.from.opening (T.entries result))) passes.items }
        ensures numbers { All (λ e. Any (λ p. p.number ≡ e.editor) passes.items) (gained self.from.opening (T.entries result)) }
        ensures seen { All (λ p. IsPrefix p.seen (T.entries result)) passes.items }
        ensures count { All (λ p. p.count ≤ T.faults result) passes.items }
        ensures setting { T.setting result ≡ self.from.setting }
    {
        let TurnLock { table } = self;
        let seat = gather(&table.shared, passes);
        let mut closed = table.close_with(seat);
        let slot = closed.take(0);
        closed.free();
        match slot {
            Some(value) => value,
            None => unreachable!(),
        }
    }
}
