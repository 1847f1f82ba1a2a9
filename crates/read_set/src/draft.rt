ghost use Rattle.std.specs.Prelude.{◌≡◌, [], ◌∷◌, ◌++◌, IfOk, OnOk, IsTrue};
ghost use Rattle.std.specs.List.{list_all};
ghost use Rattle.drawing.specs.Writable.{CanWrite, CanWriteAll};
ghost use Rattle.drawing.specs.Writes.{all_written, written};
ghost use Rattle.read_set.specs.Drafted.{IsDraftOf};
ghost use Rattle.drawing.specs.Drawing.{Drawing};
ghost use Rattle.drawing.specs.Tables.{tables_of};

use crate::copies::copy_of;
use std::alloc::Global;
use std::marker::Model;
use std::sync::ledger::Ledger;
use topo_base::{Memory, RowWrite, Steps};
use topo_tables::{Tables, Writes};

/// A copy of tables on which an edit is tried out, and the row writes that were made
/// on it so far, in order. Contracts see the rows and the writes.
#[derive(Drop)]
pub struct Draft {
    tables: Tables,
    writes: Writes,
}

impl Model for Draft {
    ghost use Rattle.read_set.specs.Drafted.{Drafted};

    ghost Value = { Drafted };

    ghost view = { λ d. record { rows = d.tables.rows; writes = d.writes } };
}

/// A list with one write, for room.
fn alone(alloc: Global, one: RowWrite) -> Result<Writes, Memory>
    ensures { IfOk result (λ w. w ≡ one ∷ []) }
{
    let mut writes = Writes::new(alloc);
    writes.push(one)?;
    Ok(writes)
}

impl Draft {
    /// A draft on a copy of the tables, without writes.
    pub fn of(alloc: Global, tables: &Tables) -> Result<Draft, Memory>
        ensures copied { IfOk result (λ d. d ≡ record { rows = tables.now.rows; writes = [] }) }
        ensures drafted { (S : Drawing) → tables.now.rows ≡ tables_of S → IfOk result (λ d. IsDraftOf S d) }
    {
        Ok(Draft {
            tables: tables.copy(alloc)?,
            writes: Writes::new(alloc),
        })
    }

    /// The tables after the writes so far.
    pub fn tables(&self) -> &Tables
        ensures { result.now.rows ≡ self.now.rows }
    {
        &self.tables
    }

    fn make<L: Ledger>(
        &mut self,
        alloc: Global,
        one: RowWrite,
        steps: &mut Steps<L>,
    ) -> Result<(), Memory>
        requires can { CanWrite self.old.rows one }
        ensures { OnOk result (self.new ≡ record {
          rows = written self.old.rows.next_ids self.old.rows one;
          writes = self.old.writes ++ one ∷ [];
        }) }
    {
        let writes = alone(alloc, copy_of(alloc, &one)?)?;
        self.tables.reserve(&writes)?;
        self.writes.push(one)?;
        self.tables.write_all(writes, steps);
        Ok(())
    }

    fn make_all<L: Ledger>(
        &mut self,
        alloc: Global,
        writes: Writes,
        steps: &mut Steps<L>,
    ) -> Result<(), Memory>
        requires can { CanWriteAll self.old.rows.next_ids self.old.rows writes }
        ensures { OnOk result (self.new ≡ record {
          rows = all_written self.old.rows.next_ids self.old.rows writes;
          writes = self.old.writes ++ writes;
        }) }
    {
        for one in writes.into_vec() {
            self.make(alloc, one, steps)?;
        }
        Ok(())
    }

    /// Makes a write on the tables, and puts it behind the others. A draft of a drawing stays one.
    pub fn write<L: Ledger>(
        &mut self,
        alloc: Global,
        one: RowWrite,
        steps: &mut Steps<L>,
    ) -> Result<(), Memory>
        requires can { CanWrite self.old.rows one }
        ensures made { OnOk result (self.new ≡ record {
          rows = written self.old.rows.next_ids self.old.rows one;
          writes = self.old.writes ++ one ∷ [];
        }) }
        ensures drafted { (S : Drawing) → IsDraftOf S self.old → OnOk result (IsDraftOf S self.new) }
    {
        self.make(alloc, one, steps)
    }

    /// Makes writes in order, each of which may be made after those before it. A draft of a drawing
    /// stays one.
    pub fn write_all<L: Ledger>(
        &mut self,
        alloc: Global,
        writes: Writes,
        steps: &mut Steps<L>,
    ) -> Result<(), Memory>
        requires can { CanWriteAll self.old.rows.next_ids self.old.rows writes }
        ensures made { OnOk result (self.new ≡ record {
          rows = all_written self.old.rows.next_ids self.old.rows writes;
          writes = self.old.writes ++ writes;
        }) }
        ensures drafted { (S : Drawing) → IsDraftOf S self.old → OnOk result (IsDraftOf S self.new) }
    {
        self.make_all(alloc, writes, steps)
    }

    /// The writes in order.
    pub fn into_writes(self) -> Writes
        ensures { result ≡ self.writes }
    {
        self.writes
    }
}
