ghost use Rattle.std.specs.Prelude.{◌≡◌, ◌<◌, length, [], IsTrue, IsErr, OnOk, OnErr, Some};
ghost use Rattle.std.specs.Io.KnownBytes.{WriteAppends};
ghost use Rattle.topo_io.specs.Causes.{HasCause};
ghost use Rattle.topo_io.specs.InMemory.{no_calls, is_to_fail, after_success, after_failure};
ghost use Rattle.topo_io.specs.Sinks.{WritesSome};

use crate::calls::CallList;
use crate::{Failed, Sink};
use std::alloc::Global;
use std::marker::Model;

/// Bytes in memory that grow. A call fails where its number is listed, or where it finds no memory.
/// Contracts see the bytes that it holds, and the calls.
#[derive(Drop)]
pub struct MemSink {
    bytes: Vec<u8>,
    calls: CallList,
    /// Whether a call takes one to three bytes, and not all that it is given.
    in_pieces: bool,
}

impl Model for MemSink {
    ghost use Rattle.topo_io.specs.InMemory.{InMemory};

    ghost Value = { InMemory };

    ghost view = { λ s. record { bytes = s.bytes.items; calls = s.calls } };
}

impl MemSink {
    /// An empty sink that takes one to three bytes in a call, and fails in the calls of these numbers, counted from 1.
    pub fn of(alloc: Global, fails: Vec<u64>) -> MemSink
        ensures { result ≡ record { bytes = []; calls = no_calls fails.items } }
    {
        MemSink {
            bytes: Vec::new(alloc),
            calls: CallList::of(fails),
            in_pieces: true,
        }
    }

    /// An empty sink that takes all that it is given, and fails only for want of memory.
    pub fn plain(alloc: Global) -> MemSink
        ensures { result ≡ record { bytes = []; calls = no_calls [] } }
    {
        MemSink {
            bytes: Vec::new(alloc),
            calls: CallList::of(Vec::new(alloc)),
            in_pieces: false,
        }
    }

    /// The bytes that were written.
    pub fn bytes(&self) -> &[u8]
        ensures { result.now ≡ self.now.bytes }
    {
        &self.bytes
    }
}

impl Sink for MemSink {
    ghost use Rattle.std.specs.Prelude.{Some};

    ghost written = { λ s. Some s.bytes };

    ghost faults = { λ s. s.calls.failed };

    fn write(&mut self, bytes: &[u8]) -> Result<usize, Failed>
        requires { 0 < length bytes.now }
        ensures bound { WritesSome result bytes.now }
        ensures bytes { WriteAppends (Some self.old.bytes) (Some self.new.bytes) result bytes.now }
        ensures cause { HasCause self.old.calls.failed self.new.calls.failed result }
        ensures listed { IsTrue (is_to_fail self.old.calls) → IsErr result }
        ensures ok { OnOk result (self.new.calls ≡ after_success self.old.calls) }
        ensures err { OnErr result (self.new ≡ record { bytes = self.old.bytes; calls = after_failure self.old.calls }) }
    {
        let most = if self.in_pieces {
            bytes.len().min(self.calls.piece())
        } else {
            bytes.len()
        };
        let (front, _) = bytes.split_at(most);
        if self.calls.is_to_fail() || self.bytes.extend_from_slice(front).is_err() {
            self.calls.fail();
            return Err(Failed);
        }
        self.calls.succeed();
        Ok(front.len())
    }
}
