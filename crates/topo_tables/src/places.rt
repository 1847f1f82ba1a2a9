ghost use Rattle.std.specs.Prelude.{◌≡◌, ◌+◌, ◌<◌, ◌≤◌, ◌^◌, ◌∷◌, [], ◌++◌, IsTrue, OnOk, IfOk};
ghost use Rattle.std.specs.Option.{option_copied};
ghost use Rattle.drawing.specs.Rows.{row_at, has_row, without_row, with_change};
ghost use Rattle.drawing.specs.Places.{rows_of, at_place};

use crate::row::{Change, Row};
use std::alloc::Global;
use std::marker::Model;
use topo_base::Memory;

/// Rows at the places of their ids: the row with id n stands at place n - 1, and a row that has
/// gone leaves its place empty. Contracts see the rows ascending by id, the next id, and for how many
/// rows more there is room.
#[derive(Drop)]
pub struct Places<R: Row + Drop> {
    slots: Vec<Option<R>>,
}

impl<R: Row + Drop> Model for Places<R> {
    ghost use Rattle.std.specs.Prelude.{◌+◌, ◌-◌, length, vec_len, vec_capacity};
    ghost use Rattle.drawing.specs.Places.{rows_of};
    ghost use Rattle.topo_tables.specs.Placed.{Placed, ArePlaces};

    ghost Value = { Placed R };

    ghost view = { λ p. record {
      rows = rows_of p.slots.items;
      next_id = length p.slots.items + 1;
      room = vec_capacity p.slots - vec_len p.slots;
    } };

    ghost invariant = { λ p. ArePlaces R.number p.slots.items };
}

/// What stands at a place.
fn slot_at<R>(slots: &[Option<R>], place: usize) -> Option<&R>
    ensures { option_copied result ≡ at_place slots.now place }
{
    match slots.get(place) {
        Some(Some(row)) => Some(row),
        _ => None,
    }
}

fn copy_slot<R: Row>(alloc: Global, slot: &Option<R>) -> Result<Option<R>, Memory>
    ensures { IfOk result (λ s. s ≡ slot.now) }
{
    match slot {
        None => Ok(None),
        Some(row) => Ok(Some(row.copy(alloc)?)),
    }
}

fn copy_slots<R: Row + Drop>(alloc: Global, slots: &[Option<R>]) -> Result<Vec<Option<R>>, Memory>
    ensures { IfOk result (λ v. v.items ≡ slots.now) }
{
    let mut copy = Vec::with_capacity(alloc, slots.len())?;
    for slot in slots {
        copy.push(copy_slot(alloc, slot)?)?;
    }
    Ok(copy)
}

impl<R: Row + Drop> Places<R> {
    /// No rows. Takes no memory.
    pub fn new(alloc: Global) -> Places<R>
        ensures rows { result.rows ≡ [] }
        ensures next_id { result.next_id ≡ 1 }
    {
        Places {
            slots: Vec::new(alloc),
        }
    }

    /// The rows at their places.
    pub fn slots(&self) -> &[Option<R>]
        ensures { rows_of result.now ≡ self.now.rows }
    {
        &self.slots
    }

    /// The row of this id, if it is there.
    pub fn get(&self, id: u32) -> Option<&R>
        ensures { option_copied result ≡ row_at R.number self.now.rows id }
    {
        let slots = &self.slots;
        if id == 0 {
            None
        } else {
            slot_at(slots, id as usize - 1)
        }
    }

    /// Whether there is a row of this id.
    pub fn has(&self, id: u32) -> bool
        ensures { result ≡ has_row R.number self.now.rows id }
    {
        self.get(id).is_some()
    }

    /// The id of the next row.
    pub fn next_id(&self) -> u32
        ensures { result ≡ self.now.next_id }
    {
        self.slots.len() as u32 + 1
    }

    /// Makes room for so many rows more. The rows stay as they are in any case.
    pub fn reserve(&mut self, count: usize) -> Result<(), Memory>
        ensures rows { self.new.rows ≡ self.old.rows }
        ensures next_id { self.new.next_id ≡ self.old.next_id }
        ensures kept { self.old.room ≤ self.new.room }
        ensures ok { OnOk result (count ≤ self.new.room) }
    {
        self.slots.reserve(count)?;
        Ok(())
    }

    /// Puts a row behind the others, for which there is room. Takes no memory.
    pub fn push(&mut self, row: R)
        requires next { R.number row ≡ self.old.next_id }
        requires small { self.old.next_id + 1 < 2 ^ 32 }
        requires room { 0 < self.old.room }
        ensures rows { self.new.rows ≡ self.old.rows ++ row ∷ [] }
        ensures next_id { self.new.next_id ≡ self.old.next_id + 1 }
        ensures room { self.old.room ≤ self.new.room + 1 }
    {
        self.slots.push(Some(row)).unwrap();
    }

    /// Drops the row of this id.
    pub fn clear(&mut self, id: u32)
        requires { IsTrue (has_row R.number self.old.rows id) }
        ensures rows { self.new.rows ≡ without_row R.number self.old.rows id }
        ensures next_id { self.new.next_id ≡ self.old.next_id }
        ensures room { self.old.room ≤ self.new.room }
    {
        self.slots[id as usize - 1] = None;
    }

    /// Changes the row of this id.
    pub fn change<C: Change<R>>(&mut self, id: u32, change: C)
        requires { IsTrue (has_row R.number self.old.rows id) }
        ensures rows { self.new.rows ≡ with_change R.number self.old.rows id (C.changed change) }
        ensures next_id { self.new.next_id ≡ self.old.next_id }
        ensures room { self.old.room ≤ self.new.room }
    {
        match &mut self.slots[id as usize - 1] {
            Some(row) => change.make(row),
            None => unreachable!(),
        }
    }

    /// The same rows and the same next id.
    pub fn copy(&self, alloc: Global) -> Result<Places<R>, Memory>
        ensures rows { IfOk result (λ p. p.rows ≡ self.now.rows) }
        ensures next_id { IfOk result (λ p. p.next_id ≡ self.now.next_id) }
    {
        Ok(Places {
            slots: copy_slots(alloc, &self.slots)?,
        })
    }
}
