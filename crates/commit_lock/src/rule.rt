// The rule of the lock's table, and what each step on it tells.

use crate::Chronicle;
use crate::view::View;
use atomic_table::{Join, Play, Split, TableRule};
use std::snapshot::Snapshot;

/// What is fixed when the table is made: the value as it was then, and how many passes there are.
#[derive(Drop)]
pub struct Key<T> {
    pub value: Snapshot<T>,
    pub passes: u64,
}

pub struct LockRule;

impl<T: Chronicle> TableRule<Option<T>, View, Key<T>> for LockRule {
    ghost use Rattle.commit_lock.specs.TableRule.{IsConsistent};
    ghost use Rattle.commit_lock.specs.Beginning.{origin_of, maker_of};

    ghost holds = { λ key. IsConsistent T.entries T.faults T.setting (origin_of T.entries T.setting key) };

    ghost first = { λ key. maker_of T.faults (origin_of T.entries T.setting key) key };
}

/// `fetch_add` on the ticket word.
pub struct DrawTicket;

impl<T: Chronicle> Play<Option<T>, View> for DrawTicket {
    ghost use Rattle.commit_lock.specs.Steps.{DrawsTicket};

    ghost then = { DrawsTicket };
}

/// `load` of the serving word.
pub struct LoadServing;

impl<T: Chronicle> Play<Option<T>, View> for LoadServing {
    ghost use Rattle.commit_lock.specs.Steps.{LoadsServing};

    ghost then = { LoadsServing T.entries T.faults T.setting };
}

/// `fetch_add` on the front word.
pub struct CountEntry;

impl<T: Chronicle> Play<Option<T>, View> for CountEntry {
    ghost use Rattle.commit_lock.specs.Steps.{AddsEntry};

    ghost then = { AddsEntry T.entries };
}

/// `fetch_add` on the serving word.
pub struct ServeNext;

impl<T: Chronicle> Play<Option<T>, View> for ServeNext {
    ghost use Rattle.commit_lock.specs.Steps.{EndsTurn};

    ghost then = { EndsTurn T.faults };
}

/// `load` of the front word.
pub struct LoadFront;

impl<T: Chronicle> Play<Option<T>, View> for LoadFront {
    ghost use Rattle.commit_lock.specs.Steps.{SeesLonger};

    ghost then = { SeesLonger };
}

/// `split_seat` for a new pass.
pub struct IssuePass;

impl Split<View> for IssuePass {
    ghost use Rattle.commit_lock.specs.Views.{rest_view, issued_view};

    ghost left = { rest_view };

    ghost right = { issued_view };
}

/// `split_seat` for a note. The pass stays as it is.
pub struct SplitNote;

impl Split<View> for SplitNote {
    ghost use Rattle.commit_lock.specs.Views.{noted_view};

    ghost left = { λ v. v };

    ghost right = { noted_view };
}

/// `join_seat` of a note into a pass.
pub struct JoinNote;

impl Join<View> for JoinNote {
    ghost use Rattle.commit_lock.specs.Views.{told_view, spent_view};

    ghost both = { told_view };

    ghost spent = { spent_view };
}

/// `join_seat` of a pass into the seat that closes the lock.
pub struct JoinPass;

impl Join<View> for JoinPass {
    ghost use Rattle.commit_lock.specs.Views.{joined_view, spent_view};

    ghost both = { joined_view };

    ghost spent = { spent_view };
}
