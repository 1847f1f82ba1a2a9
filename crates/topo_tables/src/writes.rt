ghost use Rattle.std.specs.Prelude.{◌≡◌, [], ◌∷◌, ◌++◌, OnOk, OnErr};

use std::alloc::Global;
use std::marker::Model;
use topo_base::{Memory, RowWrite};

/// Row writes in order. Contracts see the list.
#[derive(Debug, Drop)]
pub struct Writes {
    list: Vec<RowWrite>,
}

impl Model for Writes {
    ghost use Rattle.std.specs.Prelude.{List};
    ghost use Rattle.topo_base.specs.declared.write.RowWrite.{RowWrite as WriteValue};

    ghost Value = { List WriteValue };

    ghost view = { λ w. w.list.items };
}

impl Writes {
    /// No writes. Takes no memory.
    pub fn new(alloc: Global) -> Writes
        ensures { result ≡ [] }
    {
        Writes {
            list: Vec::new(alloc),
        }
    }

    /// Puts a write behind the others.
    pub fn push(&mut self, one: RowWrite) -> Result<(), Memory>
        ensures ok { OnOk result (self.new ≡ self.old ++ one ∷ []) }
        ensures err { OnErr result (self.new ≡ self.old) }
    {
        self.list.push(one)?;
        Ok(())
    }

    /// Puts writes behind the others, in their order.
    pub fn append(&mut self, more: Writes) -> Result<(), Memory>
        ensures { OnOk result (self.new ≡ self.old ++ more) }
    {
        for one in more.into_vec() {
            self.push(one)?;
        }
        Ok(())
    }

    /// The writes in order.
    pub fn as_slice(&self) -> &[RowWrite]
        ensures { result.now ≡ self.now }
    {
        &self.list
    }

    /// The writes, to be made one after the other.
    pub fn into_vec(self) -> Vec<RowWrite>
        ensures { result.items ≡ self }
    {
        self.list
    }
}
