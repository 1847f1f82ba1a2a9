// A walk over the cells in which a box may be kept that meets an area.
ghost use Rattle.std.specs.Prelude.{◌≡◌, ◌+◌, ◌<◌, ◌≤◌, ◌^◌, ◌∷◌, [], ℕ, IsTrue, MatchOption, Some, slice_index};
ghost use Rattle.std.specs.List.Sorted.{IsPermutation};
ghost use Rattle.topo_base.specs.declared.rows.Box4.{Box4 as Bounds};
ghost use Rattle.box_index.specs.declared.entry.Entry.{Entry as Kept};
ghost use Rattle.box_index.specs.Boxes.{IsBox, meets};
ghost use Rattle.box_index.specs.Cells.{level_of};
ghost use Rattle.box_index.specs.LooseGrid.{IsLooseGrid, IsPast, entry_at, nearby};
ghost use Rattle.box_index.specs.Walk.{IsWalk, at, left};

use crate::boxes::meets;
use crate::cells::{LEVELS, cell, first_column, first_row, last_column, last_row, place};
use crate::entry::Entry;
use crate::loose_grid::LooseGrid;
use topo_base::Box4;

/// A place in a cell of the grid: what stands before it has been passed, or does not meet the area.
#[derive(Drop)]
pub(crate) struct Walk<'a> {
    grid: &'a LooseGrid,
    area: Box4,
    level: u32,
    column: u64,
    row: u64,
    number: u32,
    count: u32,
}

/// The first level from here on at which an entry is kept, or the number of levels.
fn used_level(grid: &LooseGrid, from: u32) -> u32
    requires { from ≤ 42 }
    ensures low { from ≤ result }
    ensures high { result ≤ 42 }
    ensures unused { (k : ℕ) → from ≤ k → k < result → slice_index grid.now.levels k ≡ 0 }
    ensures grid { IsLooseGrid grid.now }
{
    let _ = grid.count_of(0);
    for level in from..LEVELS {
        if grid.has_level(level) {
            return level;
        }
    }
    LEVELS
}

impl<'a> Walk<'a> {
    /// The first place of a cell.
    fn at_cell(grid: &'a LooseGrid, area: &Box4, level: u32, column: u64, row: u64) -> Walk<'a>
        requires area { IsBox area.now }
        requires level { level ≤ 42 }
        requires column { column < 2 ^ 42 }
        requires row { row < 2 ^ 42 }
        ensures walk { IsWalk result }
        ensures grid { result.grid.now ≡ grid.now }
        ensures area { result.area ≡ area.now }
        ensures level { result.level ≡ level }
        ensures column { result.column ≡ column }
        ensures row { result.row ≡ row }
        ensures number { result.number ≡ 0 }
    {
        let count = grid.count_of(cell(level, column, row));
        Walk {
            grid,
            area: *area,
            level,
            column,
            row,
            number: 0,
            count,
        }
    }

    /// The first place, from this level on, at which an entry may stand that meets the area.
    fn at_level(grid: &'a LooseGrid, area: &Box4, from: u32) -> Walk<'a>
        requires area { IsBox area.now }
        requires from { from ≤ 42 }
        ensures walk { IsWalk result }
        ensures grid { result.grid.now ≡ grid.now }
        ensures area { result.area ≡ area.now }
        ensures level { from ≤ result.level }
        ensures past { (r : ℕ) (e : Kept) → entry_at grid.now r ≡ Some e → IsTrue (meets e.bounds area.now) → from ≤ level_of e.bounds → at result ≤ r }
    {
        let level = used_level(grid, from);
        Walk::at_cell(
            grid,
            area,
            level,
            first_column(area, level),
            first_row(area, level),
        )
    }

    /// What is kept at this place.
    fn entry_here(&self) -> Entry
        requires walk { IsWalk self.now }
        requires number { self.now.number < self.now.count }
        ensures { entry_at self.now.grid.now (at self.now) ≡ Some result }
    {
        let here = place(cell(self.level, self.column, self.row), self.number);
        *self.grid.entry_at(here)
    }

    /// The next place of this cell.
    fn past_place(&self) -> Walk<'a>
        requires walk { IsWalk self.now }
        requires number { self.now.number < self.now.count }
        ensures walk { IsWalk result }
        ensures grid { result.grid.now ≡ self.now.grid.now }
        ensures area { result.area ≡ self.now.area }
        ensures further { at result ≡ at self.now + 1 }
    {
        Walk {
            grid: self.grid,
            area: self.area,
            level: self.level,
            column: self.column,
            row: self.row,
            number: self.number + 1,
            count: self.count,
        }
    }

    /// The first place behind this cell at which an entry may stand that meets the area.
    fn past_cell(&self) -> Walk<'a>
        requires walk { IsWalk self.now }
        requires level { self.now.level < 42 }
        requires done { self.now.number ≡ self.now.count }
        ensures walk { IsWalk result }
        ensures grid { result.grid.now ≡ self.now.grid.now }
        ensures area { result.area ≡ self.now.area }
        ensures further { at self.now < at result }
        ensures past { IsPast self.now.grid.now self.now.area (at self.now) (at result) }
    {
        if self.row < last_row(&self.area, self.level) {
            return Walk::at_cell(self.grid, &self.area, self.level, self.column, self.row + 1);
        }
        if self.column < last_column(&self.area, self.level) {
            let row = first_row(&self.area, self.level);
            return Walk::at_cell(self.grid, &self.area, self.level, self.column + 1, row);
        }
        Walk::at_level(self.grid, &self.area, self.level + 1)
    }

    /// From the first place on.
    pub(crate) fn new(grid: &'a LooseGrid, area: &Box4) -> Walk<'a>
        requires { IsBox area.now }
        ensures walk { IsWalk result }
        ensures grid { result.grid.now ≡ grid.now }
        ensures area { result.area ≡ area.now }
        ensures left { left result ≡ nearby grid.now area.now }
    {
        Walk::at_level(grid, area, 0)
    }

    /// The next entry that meets the area.
    pub(crate) fn next(&mut self) -> Option<Entry>
        requires { IsWalk self.old }
        ensures walk { IsWalk self.new }
        ensures grid { self.new.grid.now ≡ self.old.grid.now }
        ensures area { self.new.area ≡ self.old.area }
        ensures found { MatchOption result (left self.old ≡ []) (λ e. IsPermutation (left self.old) (e ∷ left self.new)) }
    {
        'walk: while self.level < LEVELS {
            if self.number < self.count {
                let entry = self.entry_here();
                *self = self.past_place();
                if meets(&entry.bounds, &self.area) {
                    return Some(entry);
                }
            } else {
                *self = self.past_cell();
            }
        }
        None
    }
}
