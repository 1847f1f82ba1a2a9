ghost use Rattle.std.specs.Prelude.{◌≡◌, ℕ, ◌+◌, ◌<◌, ◌≤◌, ◌^◌, ◌∷◌, [], ◌++◌, length, slice_set, Some, None, IfOk, OnOk};
ghost use Rattle.std.specs.Option.{option_copied};
ghost use Rattle.shared_rows.specs.Places.{slot_at};
ghost use Rattle.shared_rows.specs.Slotted.{IsOpen, IsSealed};

use crate::child::Child;
use crate::node::Node;
use std::alloc::Global;
use std::marker::{Model, PhantomData};
use topo_base::Memory;

/// Rows over a root of any height. Contracts see what stands at each place, and which places are open
/// for writing.
#[derive(Drop)]
pub(crate) struct Table<R: Drop, N: Node<Row = R>> {
    root: Child<N>,
    len: u32,
    alloc: Global,
    rows: PhantomData<R>,
}

impl<R: Drop, N: Node<Row = R>> Model for Table<R, N> {
    ghost use Rattle.std.specs.Prelude.{◌^◌};
    ghost use Rattle.shared_rows.specs.Children.{row_in, open_in};
    ghost use Rattle.shared_rows.specs.Slotted.{Slotted, tabulate};

    ghost Value = { Slotted R };

    ghost view = { λ t. record { slots = tabulate (row_in N.row_at t.root) t.len; opened = tabulate (open_in N.is_open t.root) (2 ^ 32) } };
}

impl<R: Drop, N: Node<Row = R>> Table<R, N> {
    pub(crate) fn new(alloc: Global) -> Self
        ensures { result.slots ≡ [] }
    {
        Table {
            root: Child::empty(),
            len: 0,
            alloc,
            rows: PhantomData,
        }
    }

    pub(crate) fn alloc(&self) -> Global {
        self.alloc
    }

    pub(crate) fn len(&self) -> u32
        ensures { result ≡ length self.now.slots }
    {
        self.len
    }

    pub(crate) fn get(&self, place: u32) -> Option<&R>
        ensures { option_copied result ≡ slot_at self.now.slots place }
    {
        if place < self.len {
            self.root.get(place as usize)
        } else {
            None
        }
    }

    pub(crate) fn snapshot(&self) -> Result<Self, Memory>
        ensures slots { IfOk result (λ t. t.slots ≡ self.now.slots) }
        ensures opened { IfOk result (λ t. t.opened ≡ self.now.opened) }
    {
        Ok(Table {
            root: self.root.copy(self.alloc)?,
            len: self.len,
            alloc: self.alloc,
            rows: PhantomData,
        })
    }

    pub(crate) fn seal(&mut self) -> Result<(), Memory>
        ensures slots { self.new.slots ≡ self.old.slots }
        ensures closed { (k : ℕ) → IsOpen self.new k → IsOpen self.old k }
        ensures ok { OnOk result (IsSealed self.new) }
    {
        self.root.seal(self.alloc)
    }

    pub(crate) fn reserve_at(&mut self, place: u32) -> Result<(), Memory>
        ensures slots { self.new.slots ≡ self.old.slots }
        ensures kept { (k : ℕ) → IsOpen self.old k → IsOpen self.new k }
        ensures ok { OnOk result (IsOpen self.new place) }
    {
        self.root.open(self.alloc, place as usize)
    }

    pub(crate) fn reserve(&mut self, count: u32) -> Result<(), Memory>
        requires { length self.old.slots + count < 2 ^ 32 }
        ensures slots { self.new.slots ≡ self.old.slots }
        ensures kept { (k : ℕ) → IsOpen self.old k → IsOpen self.new k }
        ensures ok { OnOk result ((k : ℕ) → length self.old.slots ≤ k → k < length self.old.slots + count → IsOpen self.new k) }
    {
        let end = self.len() + count;
        for place in self.len()..end {
            self.reserve_at(place)?;
        }
        Ok(())
    }

    pub(crate) fn push(&mut self, row: R)
        requires opened { IsOpen self.old (length self.old.slots) }
        requires small { length self.old.slots + 1 < 2 ^ 32 }
        ensures slots { self.new.slots ≡ self.old.slots ++ Some row ∷ [] }
        ensures opened { self.new.opened ≡ self.old.opened }
    {
        self.root.put(self.len as usize, row);
        self.len += 1;
    }

    pub(crate) fn set(&mut self, place: u32, row: R)
        requires within { place < length self.old.slots }
        requires opened { IsOpen self.old place }
        ensures slots { self.new.slots ≡ slice_set self.old.slots place (Some row) }
        ensures opened { self.new.opened ≡ self.old.opened }
    {
        self.root.put(place as usize, row);
    }

    pub(crate) fn take(&mut self, place: u32) -> Option<R>
        requires within { place < length self.old.slots }
        requires opened { IsOpen self.old place }
        ensures taken { result ≡ slot_at self.old.slots place }
        ensures slots { self.new.slots ≡ slice_set self.old.slots place None }
        ensures opened { self.new.opened ≡ self.old.opened }
    {
        self.root.take(place as usize)
    }
}
