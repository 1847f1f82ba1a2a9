ghost use Rattle.std.specs.Prelude.{◌≡◌, ◌+◌, ◌<◌, ◌≤◌, ◌^◌, ◌∷◌, [], ◌↔◌, length, IsTrue, IsSome, OnOk, Some, slice_index};
ghost use Rattle.std.specs.Option.{option_copied};
ghost use Rattle.std.specs.List.Sorted.{IsPermutation};
ghost use Rattle.box_index.specs.declared.entry.Entry.{Entry as Kept};
ghost use Rattle.box_index.specs.Boxes.{IsBox};
ghost use Rattle.box_index.specs.LooseGrid.{IsLooseGrid, count_of, entry_at, kept};

use crate::cells::{LEVELS, cells_near, home, level_of, place};
use crate::entry::Entry;
use std::alloc::Global;
use std::collections::HashMap;
use std::collections::hash_map::Values;
use std::marker::Model;
use topo_base::{Box4, Memory};

/// A loose grid: each entry stands in the cell that has the lower corner of its box, at the level whose
/// cells are least but no narrower than the box's longer side. So a box reaches at most into the next
/// cell. The entries of a cell stand at its places from 0 on. Contracts see the entries by their places,
/// how many a cell and a level has, and for how many more there is room.
#[derive(Drop)]
pub(crate) struct LooseGrid {
    pub(crate) entries: HashMap<u128, Entry>,
    pub(crate) counts: HashMap<u128, u32>,
    pub(crate) levels: [u32; 42],
}

impl Model for LooseGrid {
    ghost use Rattle.std.specs.Prelude.{min};
    ghost use Rattle.std.specs.HashMap.{spare};
    ghost use Rattle.box_index.specs.LooseGrid.{CellTable, IsLooseGrid, cell_table};

    ghost Value = { CellTable };

    ghost view = { λ b. cell_table b.entries.entries b.counts.entries b.levels (min (spare b.entries) (spare b.counts)) };

    ghost invariant = { λ b. IsLooseGrid (cell_table b.entries.entries b.counts.entries b.levels (min (spare b.entries) (spare b.counts))) };
}

impl LooseGrid {
    /// Nothing. Takes no memory.
    pub(crate) fn new(alloc: Global) -> LooseGrid
        ensures { kept result ≡ [] }
    {
        LooseGrid {
            entries: HashMap::new(alloc),
            counts: HashMap::new(alloc),
            levels: [0; 42],
        }
    }

    /// How many entries are kept.
    pub(crate) fn len(&self) -> usize
        ensures { result ≡ length (kept self.now) }
    {
        let entries = &self.entries;
        entries.len()
    }

    /// How many entries the cell has.
    pub(crate) fn count_of(&self, cell: u128) -> u32
        ensures value { result ≡ count_of self.now cell }
        ensures small { result ≤ length (kept self.now) }
        ensures grid { IsLooseGrid self.now }
    {
        let counts = &self.counts;
        counts.get(&cell).copied().unwrap_or(0)
    }

    /// What is kept at the place, which is filled.
    pub(crate) fn entry_at(&self, place: u128) -> &Entry
        requires { IsSome (entry_at self.now place) }
        ensures { option_copied (Some result) ≡ entry_at self.now place }
    {
        let entries = &self.entries;
        entries.get(&place).unwrap()
    }

    /// Whether an entry is kept at the level.
    pub(crate) fn has_level(&self, level: u32) -> bool
        requires { level < 42 }
        ensures test { IsTrue result ↔ (0 < slice_index self.now.levels level) }
        ensures grid { IsLooseGrid self.now }
    {
        self.levels[level as usize] > 0
    }

    /// All that is kept.
    pub(crate) fn values(&self) -> Values<'_, u128, Entry>
        ensures { result ≡ kept self.now }
    {
        let entries = &self.entries;
        entries.values()
    }

    /// Whether it is less work to look at each cell near the area than at each entry.
    pub(crate) fn has_few_cells(&self, area: &Box4) -> bool
        requires { IsBox area.now }
    {
        let mut cells = 0u64;
        for level in 0..LEVELS {
            if self.has_level(level) {
                cells = cells.saturating_add(cells_near(area, level));
            }
        }
        cells.saturating_mul(4) <= self.entries.len() as u64
    }

    /// Makes room for so many entries more. What is kept stays in any case.
    pub(crate) fn reserve(&mut self, count: usize) -> Result<(), Memory>
        ensures kept { IsPermutation (kept self.old) (kept self.new) }
        ensures room { self.old.room ≤ self.new.room }
        ensures ok { OnOk result (count ≤ self.new.room) }
    {
        self.entries.reserve(count)?;
        self.counts.reserve(count)?;
        Ok(())
    }

    /// Keeps an entry more, for which there is room. Takes no memory.
    pub(crate) fn insert(&mut self, entry: Entry)
        requires bounds { IsBox entry.bounds }
        requires room { 0 < self.old.room }
        requires small { length (kept self.old) + 1 < 2 ^ 32 }
        ensures kept { IsPermutation (entry ∷ kept self.old) (kept self.new) }
        ensures room { self.old.room ≤ self.new.room + 1 }
    {
        let cell = home(&entry.bounds);
        let number = self.count_of(cell);
        let put: Result<_, _> = self.entries.insert(place(cell, number), entry);
        put.unwrap();
        let counted: Result<_, _> = self.counts.insert(cell, number + 1);
        counted.unwrap();
        self.levels[level_of(&entry.bounds) as usize] += 1;
    }
}
