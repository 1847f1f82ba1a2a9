//! A disk that may fail in any call and may lose what isn't synced.
//!
//! It stands on `topo_io` (`Failed`, and the counts of faults). The trait `Disk` says what each call does to the
//! bytes and what a crash at any moment may leave; `MemDisk` and `Fused` are proved to meet it, so that what
//! stands above can be run to each of its failures. `Witness` keeps what a value was, for contracts alone.
//! What the bytes mean is left to `topo_journal`, and a real file to the crate of the real edge.
#![tactic(auto)]

mod call;
mod call_record;
mod disk;
mod fused;
mod mem_disk;
#[cfg(test)]
mod tests;
mod witness;

pub use call::{Call, Called};
pub use disk::Disk;
pub use fused::Fused;
pub use mem_disk::MemDisk;
pub use topo_io::Failed;
pub use witness::Witness;
