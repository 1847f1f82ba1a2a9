// The rows that a query finds.
ghost use Rattle.std.specs.Prelude.{◌≡◌, Bool, filter, map, IfOk};
ghost use Rattle.std.specs.Borrow.{Bor};
ghost use Rattle.drawing.specs.Places.{rows_of};

use std::alloc::Global;
use std::marker::Model;
use topo_base::Memory;

/// Rows that a query has found, in the order of their ids. Contracts see the list of them.
#[derive(Drop)]
pub struct Found<'a, R> {
    rows: Vec<&'a R>,
}

impl<'a, R> Model for Found<'a, R> {
    ghost use Rattle.std.specs.Prelude.{List, map};
    ghost use Rattle.std.specs.Borrow.{Bor};

    ghost Value = { List R };

    ghost view = { λ found. map (λ (r : Bor R). r.now) found.rows.items };
}

impl<'a, R> Found<'a, R> {
    /// The rows.
    pub fn rows(&self) -> &[&'a R]
        ensures { map (λ (r : Bor R). r.now) result.now ≡ self.now }
    {
        &self.rows
    }
}

/// What rows are sought.
pub(crate) trait Sought<R> {
    ghost is_sought: { Self → R → Bool };

    /// Whether the row is one of them.
    fn is_sought(&self, row: &R) -> bool
        ensures { result ≡ is_sought self.now row.now };
}

/// The rows at these places that are sought.
pub(crate) fn rows_where<'a, R, S: Sought<R>>(
    alloc: Global,
    slots: &'a [Option<R>],
    sought: &S,
) -> Result<Found<'a, R>, Memory>
    ensures { IfOk result (λ found. found ≡ filter (S.is_sought sought.now) (rows_of slots.now)) }
{
    let mut rows = Vec::new(alloc);
    for slot in slots {
        if let Some(row) = slot {
            if sought.is_sought(row) {
                rows.push(row)?;
            }
        }
    }
    Ok(Found { rows })
}
