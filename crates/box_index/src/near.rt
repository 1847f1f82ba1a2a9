// What is kept near an area, one by one.
ghost use Rattle.std.specs.Prelude.{◌≡◌, ◌<◌, ◌∷◌, [], IfSome, MatchOption, length};
ghost use Rattle.std.specs.List.Sorted.{IsPermutation};
ghost use Rattle.box_index.specs.Boxes.{IsBox};
ghost use Rattle.box_index.specs.LooseGrid.{nearby};
ghost use Rattle.box_index.specs.Near.{IsSearch, found_later, scanned};

use crate::boxes::meets;
use crate::entry::Entry;
use crate::loose_grid::LooseGrid;
use crate::walk::Walk;
use std::collections::hash_map::Values;
use std::marker::Model;
use topo_base::Box4;

/// All entries, for an area that has more cells than that.
#[derive(Drop)]
struct Scan<'a> {
    rest: Values<'a, u128, Entry>,
    area: Box4,
}

impl<'a> Scan<'a> {
    /// The next entry that meets the area.
    fn next(&mut self) -> Option<Entry>
        ensures area { self.new.area ≡ self.old.area }
        ensures found { MatchOption result (scanned self.old ≡ []) (λ e. IsPermutation (scanned self.old) (e ∷ scanned self.new)) }
    {
        while let Some(entry) = self.rest.next() {
            if meets(&entry.bounds, &self.area) {
                return Some(*entry);
            }
        }
        None
    }
}

/// A way through the entries.
#[derive(Drop)]
enum Search<'a> {
    Cells(Walk<'a>),
    All(Scan<'a>),
}

impl<'a> Search<'a> {
    /// The next entry that meets the area.
    fn next(&mut self) -> Option<Entry>
        requires { IsSearch self.old }
        ensures search { IsSearch self.new }
        ensures found { MatchOption result (found_later self.old ≡ []) (λ e. IsPermutation (found_later self.old) (e ∷ found_later self.new)) }
    {
        match self {
            Search::Cells(walk) => walk.next(),
            Search::All(scan) => scan.next(),
        }
    }
}

/// The way that is less work.
fn search_of<'a>(grid: &'a LooseGrid, area: &Box4) -> Search<'a>
    requires { IsBox area.now }
    ensures search { IsSearch result }
    ensures found { found_later result ≡ nearby grid.now area.now }
{
    if grid.has_few_cells(area) {
        return Search::Cells(Walk::new(grid, area));
    }
    Search::All(Scan {
        rest: grid.values(),
        area: *area,
    })
}

/// The entries near an area that are still to come. Contracts see the list of them, in an order that
/// isn't promised.
#[derive(Drop)]
pub struct Near<'a> {
    search: Search<'a>,
}

impl<'a> Model for Near<'a> {
    ghost use Rattle.std.specs.Prelude.{List};
    ghost use Rattle.box_index.specs.declared.entry.Entry.{Entry as Kept};
    ghost use Rattle.box_index.specs.Near.{IsSearch, found_later};

    ghost Value = { List Kept };

    ghost view = { λ n. found_later n.search };

    ghost invariant = { λ n. IsSearch n.search };
}

impl<'a> Near<'a> {
    /// The entries of the grid whose boxes meet the area.
    pub(crate) fn of(grid: &'a LooseGrid, area: &Box4) -> Near<'a>
        requires { IsBox area.now }
        ensures { result ≡ nearby grid.now area.now }
    {
        Near {
            search: search_of(grid, area),
        }
    }

    /// The next entry, or None where all have been given. Takes no memory.
    pub fn next(&mut self) -> Option<Entry>
        ensures found { MatchOption result (self.old ≡ []) (λ e. IsPermutation self.old (e ∷ self.new)) }
        ensures shorter { IfSome result (λ _. length self.new < length self.old) }
    {
        self.search.next()
    }
}
