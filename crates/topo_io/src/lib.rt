//! Where bytes come from and go to, and the decimals that are read and printed.
//!
//! It stands on `topo_base` (`Text`, `Memory`) and on `itoa`. It promises, of any source and sink, which bytes
//! a call moved, and that no call answers a failure where the outside's count of faults did not rise.
//! Sources and sinks in memory, which fail in listed calls, are for the tests of what stands above.
//! Files, streams and terminals are left to the crate of the real edge; words and lines to the readers.
#![tactic(auto)]

mod calls;
mod decimal;
mod mem_sink;
mod mem_source;
mod plain_source;
mod read;
#[cfg(test)]
mod tests;
mod traits;
mod write;

pub use decimal::{number, push_count, push_number};
pub use mem_sink::MemSink;
pub use mem_source::MemSource;
pub use plain_source::PlainSource;
pub use read::{ReadEnd, read_all};
pub use traits::{Failed, Sink, Source};
pub use write::write_all;
