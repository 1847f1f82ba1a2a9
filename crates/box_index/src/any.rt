// Whether an entry near an area meets a test.
ghost use Rattle.std.specs.Prelude.{◌≡◌, ◌+◌, ◌≤◌, ℕ, Bool, IsTrue};
ghost use Rattle.std.specs.List.{list_all, list_any, sum_by};
ghost use Rattle.box_index.specs.declared.entry.Entry.{Entry as Kept};
ghost use Rattle.box_index.specs.Boxes.{IsBox, entries_near};

use crate::entry::Entry;
use crate::index::BoxIndex;
use std::sync::ledger::Ledger;
use topo_base::{Box4, Steps};

/// A test of an entry, which counts its steps.
pub trait EntryTest {
    ghost fits: { Self → Kept → Bool };

    ghost holds: { Self → Kept → Bool };

    ghost most_steps: { Self → Kept → ℕ };

    /// Whether the entry meets the test, where the test fits it.
    fn holds<L: Ledger>(&self, entry: &Entry, steps: &mut Steps<L>) -> bool
        requires { IsTrue (fits self.now entry.now) }
        ensures test { result ≡ holds self.now entry.now }
        ensures counted { steps.new ≤ steps.old + most_steps self.now entry.now };
}

impl BoxIndex {
    /// Whether an entry whose box meets the area meets the test. Takes no memory.
    pub fn any_near<T: EntryTest, L: Ledger>(
        &self,
        area: &Box4,
        test: &T,
        steps: &mut Steps<L>,
    ) -> bool
        requires area { IsBox area.now }
        requires fits { IsTrue (list_all (T.fits test.now) (entries_near area.now self.now.entries)) }
        ensures test { result ≡ list_any (T.holds test.now) (entries_near area.now self.now.entries) }
        ensures counted { steps.new ≤ steps.old + sum_by (T.most_steps test.now) (entries_near area.now self.now.entries) }
    {
        let mut near = self.near(area);
        while let Some(entry) = near.next() {
            if test.holds(&entry, steps) {
                return true;
            }
        }
        false
    }
}
