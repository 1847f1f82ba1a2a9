ghost use Rattle.std.specs.Prelude.{◌≡◌, ◌+◌, ◌*◌, ◌≤◌, length};
ghost use Rattle.drawing.specs.Writable.{CanWriteAll};
ghost use Rattle.drawing.specs.Writes.{all_written};
ghost use Rattle.topo_tables.specs.Room.{HasRoom};

use crate::tables::Tables;
use crate::writes::Writes;
use std::sync::ledger::Ledger;
use topo_base::Steps;

impl Tables {
    /// Makes the writes in order, for which room was reserved: each may be made after those before it.
    /// Takes at most 6 steps a write, and no memory.
    pub fn write_all<L: Ledger>(&mut self, writes: Writes, steps: &mut Steps<L>)
        requires can { CanWriteAll self.old.rows.next_ids self.old.rows writes }
        requires room { HasRoom self.old.room writes }
        ensures rows { self.new.rows ≡ all_written self.old.rows.next_ids self.old.rows writes }
        ensures steps { steps.new ≤ steps.old + 6 * length writes }
    {
        for one in writes.into_vec() {
            self.write(one, steps);
        }
    }
}
