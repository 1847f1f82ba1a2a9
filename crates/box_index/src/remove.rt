// Taking an entry out of a loose grid.
ghost use Rattle.std.specs.Prelude.{◌≡◌, ◌≢◌, ◌↔◌, ◌-◌, ◌<◌, ◌≤◌, ◌^◌, ◌∷◌, ℕ, cond, None, Some, IsSome, IsTrue, MatchOption, nat_eq};
ghost use Rattle.std.specs.Option.{unwrap_or};
ghost use Rattle.std.specs.List.{All, Contains, IsDistinct};
ghost use Rattle.std.specs.List.Sorted.{IsPermutation};
ghost use Rattle.std.specs.HashMap.{spare};
ghost use Rattle.std.specs.Map.{keys_of, lookup, values_of};
ghost use Rattle.box_index.specs.declared.entry.Entry.{Entry as Kept};
ghost use Rattle.box_index.specs.Boxes.{IsBox};
ghost use Rattle.box_index.specs.Cells.{home, place as place_in};
ghost use Rattle.box_index.specs.LooseGrid.{IsLooseGrid, count_of, entry_at, kept};

use crate::cells::{home as home_of, level_of, place};
use crate::entry::{Entry, is_same_entry};
use crate::loose_grid::LooseGrid;
use std::collections::HashMap;

/// Takes out what stands at a place, and puts what stands at the last one there.
fn close_gap(entries: &mut HashMap<u128, Entry>, gap: u128, last: u128, taken: &Entry)
    requires gap { lookup (nat_eq gap) entries.old.entries ≡ Some taken.now }
    requires last { IsSome (lookup (nat_eq last) entries.old.entries) }
    ensures updates { (q : ℕ) → lookup (nat_eq q) entries.new.entries ≡ cond (nat_eq last q) None (cond (nat_eq gap q) (lookup (nat_eq last) entries.old.entries) (lookup (nat_eq q) entries.old.entries)) }
    ensures kept { IsPermutation (values_of entries.old.entries) (taken.now ∷ values_of entries.new.entries) }
    ensures unique { IsDistinct nat_eq (keys_of entries.new.entries) }
    ensures spare { spare entries.old ≤ spare entries.new }
{
    let moved = entries.remove(&last).unwrap();
    if gap == last {
        return;
    }
    if let Some(entry) = entries.get_mut(&gap) {
        *entry = moved;
    }
}

/// Counts one entry less of a cell.
fn count_down(counts: &mut HashMap<u128, u32>, cell: u128, count: u32)
    requires count { lookup (nat_eq cell) counts.old.entries ≡ Some count }
    requires some { 0 < count }
    ensures updates { (c : ℕ) → unwrap_or (lookup (nat_eq c) counts.new.entries) 0 ≡ cond (nat_eq cell c) (count - 1) (unwrap_or (lookup (nat_eq c) counts.old.entries) 0) }
    ensures spare { spare counts.old ≤ spare counts.new }
{
    if count == 1 {
        let _ = counts.remove(&cell);
        return;
    }
    if let Some(number) = counts.get_mut(&cell) {
        *number = count - 1;
    }
}

impl LooseGrid {
    /// At which place of its cell, which has so many, the entry stands, if it does.
    fn number_of(&self, entry: &Entry, cell: u128, count: u32) -> Option<u32>
        requires small { cell < 2 ^ 91 }
        requires cell { cell ≡ home entry.now.bounds }
        requires count { count ≡ count_of self.now cell }
        requires grid { IsLooseGrid self.now }
        ensures { MatchOption result (All (λ (e : Kept). e ≢ entry.now) (kept self.now)) (λ n. (n < count) × (entry_at self.now (place_in cell n) ≡ Some entry.now)) }
    {
        for number in 0..count {
            if is_same_entry(self.entry_at(place(cell, number)), entry) {
                return Some(number);
            }
        }
        None
    }

    /// Takes out an entry that stands at this place of its cell, which has so many.
    fn take_out(&mut self, cell: u128, number: u32, count: u32, taken: &Entry)
        requires small { cell < 2 ^ 91 }
        requires bounds { IsBox taken.now.bounds }
        requires cell { cell ≡ home taken.now.bounds }
        requires count { count ≡ count_of self.old cell }
        requires number { number < count }
        requires taken { entry_at self.old (place_in cell number) ≡ Some taken.now }
        ensures kept { IsPermutation (kept self.old) (taken.now ∷ kept self.new) }
        ensures room { self.old.room ≤ self.new.room }
    {
        let level = level_of(&taken.bounds);
        let gap = place(cell, number);
        let last = place(cell, count - 1);
        close_gap(&mut self.entries, gap, last, taken);
        count_down(&mut self.counts, cell, count);
        self.levels[level as usize] -= 1;
    }

    /// Takes the entry out once, where it is kept, and says whether it was.
    pub(crate) fn remove(&mut self, entry: &Entry) -> bool
        requires { IsBox entry.now.bounds }
        ensures found { IsTrue result ↔ Contains (kept self.old) entry.now }
        ensures kept { IsPermutation (kept self.old) (cond result (entry.now ∷ kept self.new) (kept self.new)) }
        ensures room { self.old.room ≤ self.new.room }
    {
        let cell = home_of(&entry.bounds);
        let count = self.count_of(cell);
        match self.number_of(entry, cell, count) {
            None => false,
            Some(number) => {
                self.take_out(cell, number, count, entry);
                true
            }
        }
    }
}
