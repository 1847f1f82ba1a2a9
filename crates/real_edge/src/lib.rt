//! The adapters at the real edge: standard input and output, and a file as a disk.
//!
//! It stands on std, `topo_io` (`Source`, `Sink`, and the counts of faults) and `topo_disk` (`Disk`). It promises that
//! each failure of the outside is answered as `Failed` and counted, and that no call answers `Failed` without one.
//! What a file, a stream or a terminal holds is told to no contract: that each call does to the bytes what its trait
//! says is read from the code and tested, and rests on std and the operating system.
#![tactic(auto)]

mod file_disk;
mod std_sink;
mod std_source;
#[cfg(test)]
mod tests;
mod window;

pub use file_disk::FileDisk;
pub use std_sink::StdSink;
pub use std_source::StdSource;
