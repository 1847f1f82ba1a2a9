ghost use Rattle.std.specs.Prelude.{◌≡◌, ◌+◌, ◌≤◌, ℕ, Bool, IsTrue};
ghost use Rattle.std.specs.List.{list_any, list_all, sum_by};
ghost use Rattle.drawing.specs.Places.{rows_of};

use std::sync::ledger::Ledger;
use topo_base::Steps;

/// A test of a row, which counts its steps.
pub trait RowTest<R> {
    ghost fits: { Self → R → Bool };

    ghost holds: { Self → R → Bool };

    ghost most_steps: { Self → R → ℕ };

    /// Whether the row meets the test, where the test fits it.
    fn holds<L: Ledger>(&self, row: &R, steps: &mut Steps<L>) -> bool
        requires { IsTrue (fits self.now row.now) }
        ensures test { result ≡ holds self.now row.now }
        ensures counted { steps.new ≤ steps.old + most_steps self.now row.now };
}

/// Whether a row at one of the places meets the test.
pub fn any_row<R, T: RowTest<R>, L: Ledger>(
    slots: &[Option<R>],
    test: &T,
    steps: &mut Steps<L>,
) -> bool
    requires { IsTrue (list_all (T.fits test.now) (rows_of slots.now)) }
    ensures test { result ≡ list_any (T.holds test.now) (rows_of slots.now) }
    ensures counted { steps.new ≤ steps.old + sum_by (T.most_steps test.now) (rows_of slots.now) }
{
    for slot in slots {
        if let Some(row) = slot {
            if test.holds(row, steps) {
                return true;
            }
        }
    }
    false
}
