ghost use Rattle.std.specs.Prelude.{◌≡◌, ◌<◌, ◌∷◌, [], ◌++◌, length, OnOk};
ghost use Rattle.std.specs.Option.{option_copied};
ghost use Rattle.topo_base.specs.Stored.{entry_at};

use crate::{Entry, Memory};
use std::alloc::Global;
use std::marker::Model;

/// The accepted edits in order. Contracts see the list of the entries, and for how many more there is room.
#[derive(Drop)]
pub struct History {
    kept: Vec<Entry>,
}

impl Model for History {
    ghost use Rattle.std.specs.Prelude.{◌-◌, vec_len, vec_capacity};
    ghost use Rattle.topo_base.specs.Stored.{Stored};

    ghost Value = { Stored };

    ghost view = { λ h. record { entries = h.kept.items; room = vec_capacity h.kept - vec_len h.kept } };
}

impl History {
    /// No entry. Takes no memory.
    pub fn new(alloc: Global) -> History
        ensures { result.entries ≡ [] }
    {
        History {
            kept: Vec::new(alloc),
        }
    }

    /// Makes room for one entry more. The entries stay as they are in any case.
    pub fn reserve(&mut self) -> Result<(), Memory>
        ensures entries { self.new.entries ≡ self.old.entries }
        ensures room { OnOk result (0 < self.new.room) }
    {
        self.kept.reserve(1)?;
        Ok(())
    }

    /// Puts an entry last, for which there is room. Takes no memory.
    pub fn push(&mut self, entry: Entry)
        requires { 0 < self.old.room }
        ensures { self.new.entries ≡ self.old.entries ++ entry ∷ [] }
    {
        self.kept.push(entry).unwrap();
    }

    /// How many entries there are.
    pub fn len(&self) -> u64
        ensures { result ≡ length self.now.entries }
    {
        self.kept.len() as u64
    }

    /// The entries in order.
    pub fn entries(&self) -> &[Entry]
        ensures { result.now ≡ self.now.entries }
    {
        &self.kept
    }

    /// The entry of this number, counted from 1, or None where no entry has it.
    pub fn entry(&self, place: u64) -> Option<&Entry>
        ensures { option_copied result ≡ entry_at self.now.entries place }
    {
        match place.checked_sub(1) {
            Some(index) => self.kept.get(index as usize),
            None => None,
        }
    }
}
