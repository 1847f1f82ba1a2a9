ghost use Rattle.std.specs.Prelude.{◌≡◌, ◌+◌, ◌%◌, ◌≤◌};
ghost use Rattle.topo_io.specs.InMemory.{no_calls, is_to_fail, after_success, after_failure};

use std::marker::Model;

/// The calls of a source or a sink in memory, of which those with a listed number are to fail.
#[derive(Drop)]
pub struct CallList {
    made: u64,
    to_fail: Vec<u64>,
    failed: u64,
}

impl Model for CallList {
    ghost use Rattle.topo_io.specs.InMemory.{Calls};

    ghost Value = { Calls };

    ghost view = { λ c. record { made = c.made; to_fail = c.to_fail.items; failed = c.failed } };
}

impl CallList {
    /// No call yet. The numbers are those of the calls that are to fail, and the first call is 1.
    pub fn of(to_fail: Vec<u64>) -> CallList
        ensures { result ≡ no_calls to_fail.items }
    {
        CallList {
            made: 0,
            to_fail,
            failed: 0,
        }
    }

    /// Whether the next call is to fail.
    pub fn is_to_fail(&self) -> bool
        ensures { result ≡ is_to_fail self.now }
    {
        self.to_fail.contains(&self.made.saturating_add(1))
    }

    /// Counts a call that did not fail.
    pub fn succeed(&mut self)
        ensures { self.new ≡ after_success self.old }
    {
        self.made = self.made.saturating_add(1);
    }

    /// Counts a call that failed.
    pub fn fail(&mut self)
        ensures calls { self.new ≡ after_failure self.old }
        ensures later { self.old.failed ≤ self.new.failed }
    {
        self.made = self.made.saturating_add(1);
        self.failed = self.failed.saturating_add(1);
    }

    /// How many bytes the next call moves at most: one to three, so that texts are cut at many places.
    pub fn piece(&self) -> usize
        ensures { result ≡ self.now.made % 3 + 1 }
    {
        (self.made % 3) as usize + 1
    }
}
