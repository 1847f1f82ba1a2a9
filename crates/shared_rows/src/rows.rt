ghost use Rattle.std.specs.Prelude.{◌≡◌, ℕ, ◌+◌, ◌<◌, ◌≤◌, ◌^◌, ◌∷◌, [], ◌++◌, length, slice_set, Some, None, IfOk, OnOk, nat_eq};
ghost use Rattle.std.specs.Option.{option_copied};
ghost use Rattle.shared_rows.specs.Places.{slot_at};
ghost use Rattle.shared_rows.specs.Slotted.{IsOpen, IsSealed};

use crate::branch::Branch;
use crate::leaf::Leaf;
use crate::share::Share;
use crate::table::Table;
use std::alloc::Global;
use std::marker::Model;
use topo_base::Memory;

/// Rows at the places 0, 1, 2, .., of which some may be empty, as a persistent array: a snapshot has
/// the same rows, and later writes leave it as it is. Contracts see what stands at each place, and
/// which places are open for writing.
#[derive(Drop)]
pub struct SharedRows<R: Share + Drop> {
    table: Table<R, Branch<Branch<Leaf<R>>>>,
}

impl<R: Share + Drop> Model for SharedRows<R> {
    ghost use Rattle.shared_rows.specs.Slotted.{Slotted};

    ghost Value = { Slotted R };

    ghost view = { λ s. s.table };
}

impl<R: Share + Drop> SharedRows<R> {
    /// No rows. Takes no memory.
    pub fn new(alloc: Global) -> SharedRows<R>
        ensures { result.slots ≡ [] }
    {
        SharedRows {
            table: Table::new(alloc),
        }
    }

    /// Where rows take their memory.
    pub fn alloc(&self) -> Global {
        self.table.alloc()
    }

    /// How many places there are, empty ones too.
    pub fn len(&self) -> u32
        ensures { result ≡ length self.now.slots }
    {
        self.table.len()
    }

    /// Whether there is no place.
    pub fn is_empty(&self) -> bool
        ensures { result ≡ nat_eq (length self.now.slots) 0 }
    {
        self.table.len() == 0
    }

    /// The row at a place, if there is one.
    pub fn get(&self, place: u32) -> Option<&R>
        ensures { option_copied result ≡ slot_at self.now.slots place }
    {
        self.table.get(place)
    }

    /// The same rows. What is sealed is shared with the snapshot: it costs one counted pointer where
    /// all is sealed. What is open is copied, and open in the snapshot too.
    pub fn snapshot(&self) -> Result<SharedRows<R>, Memory>
        ensures slots { IfOk result (λ s. s.slots ≡ self.now.slots) }
        ensures opened { IfOk result (λ s. s.opened ≡ self.now.opened) }
    {
        Ok(SharedRows {
            table: self.table.snapshot()?,
        })
    }

    /// Lets snapshots share all rows. After Ok no place is open; if memory runs out, some may be.
    pub fn seal(&mut self) -> Result<(), Memory>
        ensures slots { self.new.slots ≡ self.old.slots }
        ensures closed { (k : ℕ) → IsOpen self.new k → IsOpen self.old k }
        ensures ok { OnOk result (IsSealed self.new) }
    {
        self.table.seal()
    }

    /// Opens a place for writes, also one behind the last. What a snapshot shares on the way to it is
    /// copied. Other places stay open.
    pub fn reserve_at(&mut self, place: u32) -> Result<(), Memory>
        ensures slots { self.new.slots ≡ self.old.slots }
        ensures kept { (k : ℕ) → IsOpen self.old k → IsOpen self.new k }
        ensures ok { OnOk result (IsOpen self.new place) }
    {
        self.table.reserve_at(place)
    }

    /// Opens so many places behind the last.
    pub fn reserve(&mut self, count: u32) -> Result<(), Memory>
        requires { length self.old.slots + count < 2 ^ 32 }
        ensures slots { self.new.slots ≡ self.old.slots }
        ensures kept { (k : ℕ) → IsOpen self.old k → IsOpen self.new k }
        ensures ok { OnOk result ((k : ℕ) → length self.old.slots ≤ k → k < length self.old.slots + count → IsOpen self.new k) }
    {
        self.table.reserve(count)
    }

    /// Puts a row at the place behind the last, which is open. Takes no memory.
    pub fn push(&mut self, row: R)
        requires opened { IsOpen self.old (length self.old.slots) }
        requires small { length self.old.slots + 1 < 2 ^ 32 }
        ensures slots { self.new.slots ≡ self.old.slots ++ Some row ∷ [] }
        ensures opened { self.new.opened ≡ self.old.opened }
    {
        self.table.push(row);
    }

    /// Puts a row at an open place. Takes no memory.
    pub fn set(&mut self, place: u32, row: R)
        requires within { place < length self.old.slots }
        requires opened { IsOpen self.old place }
        ensures slots { self.new.slots ≡ slice_set self.old.slots place (Some row) }
        ensures opened { self.new.opened ≡ self.old.opened }
    {
        self.table.set(place, row);
    }

    /// Takes the row from an open place, and leaves it empty. Takes no memory.
    pub fn take(&mut self, place: u32) -> Option<R>
        requires within { place < length self.old.slots }
        requires opened { IsOpen self.old place }
        ensures taken { result ≡ slot_at self.old.slots place }
        ensures slots { self.new.slots ≡ slice_set self.old.slots place None }
        ensures opened { self.new.opened ≡ self.old.opened }
    {
        self.table.take(place)
    }
}
