ghost use Rattle.std.specs.Prelude.{◌≡◌, ◌↔◌, ◌+◌, ◌<◌, ◌≤◌, ◌^◌, ◌∷◌, [], IsTrue, OnOk, cond, length};
ghost use Rattle.std.specs.List.{Contains};
ghost use Rattle.std.specs.List.Sorted.{IsPermutation};
ghost use Rattle.box_index.specs.Boxes.{IsBox, entries_near};

use crate::entry::Entry;
use crate::loose_grid::LooseGrid;
use crate::near::Near;
use std::alloc::Global;
use std::marker::Model;
use topo_base::{Box4, Memory};

/// Entries, each an id and its box, that are found by their boxes. Contracts see the list of the
/// entries, in an order that isn't promised, and for how many more there is room. An entry that is
/// inserted twice is kept twice.
///
/// Who keeps an index beside rows lets a function say which entries a row has (none or one, say), and
/// keeps `AreEntriesOf entries_of rows index.entries` as an invariant: the entries of the rows are, in
/// some order, those of the index. `proofs/Callers.antt` carries it:
///
/// - `rows_pushed`: a row comes last, and its entries are inserted;
/// - `rows_dropped`: a row goes, and its entries are removed, which are there by `is_indexed`;
/// - `rows_changed`: a row changes, its old entries are removed and then its new ones are inserted;
/// - `rows_kept`: a row changes, and its entries stay.
///
/// What is asked of all rows is then asked of the entries near an area: `any_row_near` says so of a
/// test that no row meets off the area, and `rows_near` gives the entries near it row by row.
#[derive(Drop)]
pub struct BoxIndex {
    grid: LooseGrid,
}

impl Model for BoxIndex {
    ghost use Rattle.box_index.specs.Boxes.{Indexed};
    ghost use Rattle.box_index.specs.LooseGrid.{kept};

    ghost Value = { Indexed };

    ghost view = { λ b. record { entries = kept b.grid; room = b.grid.room } };
}

impl BoxIndex {
    /// No entry. Takes no memory.
    pub fn new(alloc: Global) -> BoxIndex
        ensures { result.entries ≡ [] }
    {
        BoxIndex {
            grid: LooseGrid::new(alloc),
        }
    }

    /// How many entries there are.
    pub fn len(&self) -> usize
        ensures { result ≡ length self.now.entries }
    {
        self.grid.len()
    }

    /// Makes room for so many entries more: after Ok their inserts take no memory. The entries stay
    /// what they are in any case, in another order maybe.
    pub fn reserve(&mut self, count: usize) -> Result<(), Memory>
        ensures entries { IsPermutation self.old.entries self.new.entries }
        ensures room { self.old.room ≤ self.new.room }
        ensures ok { OnOk result (count ≤ self.new.room) }
    {
        self.grid.reserve(count)
    }

    /// Keeps an entry more, for which there is room. Takes no memory.
    pub fn insert(&mut self, entry: Entry)
        requires bounds { IsBox entry.bounds }
        requires room { 0 < self.old.room }
        requires small { length self.old.entries + 1 < 2 ^ 32 }
        ensures entries { IsPermutation (entry ∷ self.old.entries) self.new.entries }
        ensures room { self.old.room ≤ self.new.room + 1 }
    {
        self.grid.insert(entry);
    }

    /// Takes out one entry with this id and this box. False exactly where there is none, and then the
    /// entries stay. Takes no memory.
    pub fn remove(&mut self, entry: &Entry) -> bool
        requires { IsBox entry.now.bounds }
        ensures found { IsTrue result ↔ Contains self.old.entries entry.now }
        ensures entries { IsPermutation self.old.entries (cond result (entry.now ∷ self.new.entries) self.new.entries) }
        ensures room { self.old.room ≤ self.new.room }
    {
        self.grid.remove(entry)
    }

    /// The entries whose boxes meet the area, one by one, each as often as it is kept. Takes no memory.
    pub fn near(&self, area: &Box4) -> Near<'_>
        requires { IsBox area.now }
        ensures { result ≡ entries_near area.now self.now.entries }
    {
        Near::of(&self.grid, area)
    }
}
