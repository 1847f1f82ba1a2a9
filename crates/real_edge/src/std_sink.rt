ghost use Rattle.std.specs.Prelude.{◌≡◌};

use std::io::Write;
use topo_io::{Failed, Sink};

/// A sink over any writer. A write that fails, or takes no byte, raises the count of faults. What it holds is what std
/// tells of the writer: of bytes in memory all, and of standard output, a file or a terminal nothing.
#[derive(Drop)]
pub struct StdSink<W: Write> {
    inner: W,
    faults: u64,
}

impl<W: Write> StdSink<W> {
    /// A sink over this writer, which has not failed yet.
    pub fn of(inner: W) -> Self
        ensures inner { result.inner ≡ inner }
        ensures faults { result.faults ≡ 0 }
    {
        StdSink { inner, faults: 0 }
    }
}

impl<W: Write> Sink for StdSink<W> {
    ghost written = { λ s. W.contents s.inner };

    ghost faults = { λ s. s.faults };

    fn write(&mut self, bytes: &[u8]) -> Result<usize, Failed> {
        match self.inner.write(bytes) {
            Ok(count) if count > 0 => Ok(count),
            _ => {
                self.faults = self.faults.saturating_add(1);
                Err(Failed)
            }
        }
    }
}
