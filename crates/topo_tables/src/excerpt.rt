ghost use Rattle.std.specs.Prelude.{◌≡◌};

use crate::tables::Tables;
use std::marker::Model;

/// A copy of the tables, and the length of the history at which it was taken. An edit is planned on
/// it while the tables themselves may change. Contracts see the rows and the front.
#[derive(Drop)]
pub struct Excerpt {
    tables: Tables,
    front: u64,
}

impl Model for Excerpt {
    ghost use Rattle.topo_tables.specs.Taken.{Taken};

    ghost Value = { Taken };

    ghost view = { λ e. record { rows = e.tables.rows; front = e.front } };
}

impl Excerpt {
    /// What was copied, and the front at which it was.
    pub fn of(tables: Tables, front: u64) -> Excerpt
        ensures { result ≡ record { rows = tables.rows; front = front } }
    {
        Excerpt { tables, front }
    }

    /// The copy.
    pub fn tables(&self) -> &Tables
        ensures { result.now.rows ≡ self.now.rows }
    {
        &self.tables
    }

    /// The length of the history at which the copy was taken.
    pub fn front(&self) -> u64
        ensures { result ≡ self.now.front }
    {
        self.front
    }
}
