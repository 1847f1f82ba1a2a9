use crate::view::View;
use atomic_table::{Badge, Seat};
use std::marker::Model;

/// An editor's token at a lock. It has no bytes, and may go to another thread.
///
/// Contracts see its `lock`, how that began (`from`), its `number`, which counts from 1, its `own` entries with their
/// places in the history, the history that it has `seen`, the `count` of faults that it has seen, and its own `faults`.
/// It can't be copied, and each call takes it and gives it back. A pass that is dropped can't come back, and then its
/// lock can't be closed.
#[derive(Drop)]
pub struct Pass {
    pub(crate) badge: Badge<View>,
}

impl Model for Pass {
    ghost use Rattle.std.specs.Prelude.{◌≡◌, [], ◌∷◌};
    ghost use Rattle.commit_lock.specs.Passes.{PassValue, pass_value, only_view, pass_view};
    ghost use Rattle.commit_lock.specs.declared.view.Stage.TheVariants.{Idle};

    ghost Value = { PassValue };

    ghost view = { λ p. pass_value p.badge.table_id (only_view p.badge.views) };

    ghost invariant = { λ p. p.badge.views ≡ pass_view Idle (pass_value p.badge.table_id (only_view p.badge.views)) ∷ [] };
}

/// A pass that has its turn, while the caller has the value. Its history and count are those with which the value was taken.
///
/// It can't be dropped: it ends when the value is given back.
pub struct Turn<T> {
    pub(crate) seat: Seat<Option<T>, View>,
}

impl<T> Model for Turn<T> {
    ghost use Rattle.std.specs.Prelude.{◌≡◌, ℕ, [], ◌∷◌, None};
    ghost use Rattle.commit_lock.specs.Passes.{PassValue, pass_value, pass_view};
    ghost use Rattle.commit_lock.specs.declared.view.Stage.TheVariants.{Holds};

    ghost Value = { PassValue };

    ghost view = { λ p. pass_value p.seat.table_id p.seat.me.0 };

    ghost invariant = { λ p. (t : ℕ) × (p.seat.me ≡ (pass_view (Holds t) (pass_value p.seat.table_id p.seat.me.0), (0, None) ∷ [])) };
}

/// What a pass had seen, history and count, to be told to another pass of the same lock. It has no bytes.
#[derive(Drop)]
pub struct Note {
    pub(crate) badge: Badge<View>,
}

impl Model for Note {
    ghost use Rattle.std.specs.Prelude.{◌≡◌, [], ◌∷◌};
    ghost use Rattle.commit_lock.specs.Passes.{NoteValue, note_value, only_view, note_view};

    ghost Value = { NoteValue };

    ghost view = { λ p. note_value p.badge.table_id (only_view p.badge.views) };

    ghost invariant = { λ p. p.badge.views ≡ note_view (note_value p.badge.table_id (only_view p.badge.views)) ∷ [] };
}
