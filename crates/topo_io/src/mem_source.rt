ghost use Rattle.std.specs.Prelude.{◌≡◌, ◌<◌, ◌↔◌, length, IsTrue, IsErr, OnOk, OnErr, Some};
ghost use Rattle.std.specs.Io.{ReadsAtMost};
ghost use Rattle.std.specs.Io.KnownBytes.{ReadConsumes};
ghost use Rattle.topo_io.specs.Causes.{HasCause};
ghost use Rattle.topo_io.specs.InMemory.{no_calls, is_to_fail, after_success, after_failure};

use crate::calls::CallList;
use crate::{Failed, PlainSource, Source};
use std::alloc::Global;
use std::marker::Model;

/// Bytes in memory that are read by one to three in a call. The calls with a listed number fail, and no others.
/// Contracts see the bytes that are left, and the calls.
#[derive(Drop)]
pub struct MemSource {
    rest: PlainSource,
    calls: CallList,
}

impl Model for MemSource {
    ghost use Rattle.topo_io.specs.InMemory.{InMemory};

    ghost Value = { InMemory };

    ghost view = { λ s. record { bytes = s.rest; calls = s.calls } };
}

impl MemSource {
    /// A source of these bytes that fails in the calls of these numbers, counted from 1.
    pub fn of(_alloc: Global, bytes: Vec<u8>, fails: Vec<u64>) -> MemSource
        ensures { result ≡ record { bytes = bytes.items; calls = no_calls fails.items } }
    {
        MemSource {
            rest: PlainSource::of(bytes),
            calls: CallList::of(fails),
        }
    }

    /// A source of these bytes that never fails, as its type says.
    pub fn plain(_alloc: Global, bytes: Vec<u8>) -> PlainSource
        ensures { result ≡ bytes.items }
    {
        PlainSource::of(bytes)
    }
}

impl Source for MemSource {
    ghost use Rattle.std.specs.Prelude.{Some};

    ghost left = { λ s. Some s.bytes };

    ghost faults = { λ s. s.calls.failed };

    fn read(&mut self, into: &mut [u8]) -> Result<usize, Failed>
        requires { 0 < length into.old }
        ensures bound { ReadsAtMost result into.new }
        ensures bytes { ReadConsumes (Some self.old.bytes) (Some self.new.bytes) result into.new }
        ensures cause { HasCause self.old.calls.failed self.new.calls.failed result }
        ensures listed { IsErr result ↔ IsTrue (is_to_fail self.old.calls) }
        ensures ok { OnOk result (self.new.calls ≡ after_success self.old.calls) }
        ensures err { OnErr result (self.new ≡ record { bytes = self.old.bytes; calls = after_failure self.old.calls }) }
    {
        if self.calls.is_to_fail() {
            self.calls.fail();
            return Err(Failed);
        }
        let most = into.len().min(self.calls.piece());
        self.calls.succeed();
        self.rest.read(&mut into[..most])
    }
}
