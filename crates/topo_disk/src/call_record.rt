ghost use Rattle.std.specs.Prelude.{◌≡◌, ◌⊎◌, ◌++◌, [], ◌∷◌, ◌==◌, ◌≤◌, length, true, false, IsTrue, IsErr, OnOk, OnErr};
ghost use Rattle.std.specs.List.{list_any};
ghost use Rattle.topo_io.specs.Causes.{next_count, Rose, HasCause};

use crate::call::{Call, Called};
use std::alloc::Global;
use topo_io::Failed;

/// The calls of a disk in memory so far, the numbers of those that are to fail (the first call is 1), and how many
/// failed. A call that finds no memory to be recorded fails too.
#[derive(Drop)]
pub struct CallRecord {
    calls: Vec<Called>,
    fails: Vec<u64>,
    faults: u64,
}

impl CallRecord {
    /// No call yet, and these are to fail.
    pub fn of(alloc: Global, fails: Vec<u64>) -> Self
        ensures calls { result.calls.items ≡ [] }
        ensures fails { result.fails ≡ fails }
        ensures faults { result.faults ≡ 0 }
    {
        CallRecord {
            calls: Vec::new(alloc),
            fails,
            faults: 0,
        }
    }

    /// The calls so far, in order.
    pub fn calls(&self) -> &[Called]
        ensures { result.now ≡ self.now.calls.items }
    {
        &self.calls
    }

    /// How many calls failed.
    pub fn faults(&self) -> u64
        ensures { result ≡ self.now.faults }
    {
        self.faults
    }

    /// Counts a failure for want of memory, which no call is recorded of.
    pub fn fault(&mut self) -> Failed
        ensures calls { self.new.calls ≡ self.old.calls }
        ensures later { self.old.faults ≤ self.new.faults }
        ensures rose { Rose self.old.faults self.new.faults }
    {
        self.faults = self.faults.saturating_add(1);
        Failed
    }

    /// Records a call, and says whether it succeeds.
    pub fn add(&mut self, call: Call) -> Result<(), Failed>
        ensures went { OnOk result (self.new.calls.items ≡ self.old.calls.items ++ record { call = call; failed = false } ∷ []) }
        ensures failed { OnErr result ((self.new.calls.items ≡ self.old.calls.items) ⊎ (self.new.calls.items ≡ self.old.calls.items ++ record { call = call; failed = true } ∷ [])) }
        ensures listed { IsTrue (list_any (λ n. n == next_count (length self.old.calls.items)) self.old.fails.items) → IsErr result }
        ensures cause { HasCause self.old.faults self.new.faults result }
    {
        let number = (self.calls.len() as u64).saturating_add(1);
        let failed = self.fails.contains(&number);
        if self.calls.push(Called { call, failed }).is_err() || failed {
            return Err(self.fault());
        }
        Ok(())
    }
}
