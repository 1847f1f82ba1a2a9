ghost use Rattle.std.specs.Prelude.{◌≡◌, ℕ, ◌<◌, IfOk, OnOk, IsTrue, length, None, slice_get, nat_lt};
ghost use Rattle.std.proofs.Common.{lit<};
ghost use Rattle.std.specs.Option.{option_copied};
ghost use Rattle.shared_rows.specs.Places.{slot_at};

use crate::node::Node;
use crate::share::Share;
use std::alloc::Global;
use topo_base::Memory;

/// The rows at 128 places.
#[derive(Drop)]
pub(crate) struct Leaf<R: Drop> {
    slots: Vec<Option<R>>,
}

fn copy_slot<R: Share>(alloc: Global, slot: &Option<R>) -> Result<Option<R>, Memory>
    ensures { IfOk result (λ s. s ≡ slot.now) }
{
    match slot {
        None => Ok(None),
        Some(row) => Ok(Some(row.share(alloc)?)),
    }
}

fn copy_slots<R: Share + Drop>(alloc: Global, slots: &[Option<R>]) -> Result<Vec<Option<R>>, Memory>
    ensures { IfOk result (λ v. v.items ≡ slots.now) }
{
    let mut copy = Vec::with_capacity(alloc, slots.len())?;
    for slot in slots {
        copy.push(copy_slot(alloc, slot)?)?;
    }
    Ok(copy)
}

/// Makes slots up to a place.
fn add_slots<R: Drop>(slots: &mut Vec<Option<R>>, place: usize) -> Result<(), Memory>
    ensures rows { (k : ℕ) → slot_at slots.new.items k ≡ slot_at slots.old.items k }
    ensures kept { (k : ℕ) → k < length slots.old.items → k < length slots.new.items }
    ensures ok { OnOk result (place < length slots.new.items) }
{
    while slots.len() <= place {
        slots.push(None)?;
    }
    Ok(())
}

impl<R: Share + Drop> Node for Leaf<R> {
    type Row = R;

    ghost capacity = { 128 };

    ghost row_at = { λ leaf k. slot_at leaf.slots.items k };

    ghost is_open = { λ leaf k. nat_lt k (length leaf.slots.items) };

    fn capacity() -> usize {
        128
    }

    fn empty(alloc: Global) -> Self {
        Leaf {
            slots: Vec::new(alloc),
        }
    }

    fn get(&self, place: usize) -> Option<&R> {
        match self.slots.get(place) {
            Some(Some(row)) => Some(row),
            _ => None,
        }
    }

    fn open(&mut self, _: Global, place: usize) -> Result<(), Memory> {
        add_slots(&mut self.slots, place)
    }

    fn put(&mut self, place: usize, row: R) {
        self.slots[place] = Some(row);
    }

    fn take(&mut self, place: usize) -> Option<R> {
        self.slots[place].take()
    }

    fn seal_below(&mut self, _: Global) -> Result<(), Memory> {
        Ok(())
    }

    fn copy(&self, alloc: Global) -> Result<Self, Memory> {
        Ok(Leaf {
            slots: copy_slots(alloc, &self.slots)?,
        })
    }

    ghost is_positive = { lit< tt };
}
