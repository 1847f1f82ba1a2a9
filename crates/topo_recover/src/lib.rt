//! Recovery: the desk of a disk, read back from its journal.
//!
//! It stands on `topo_journal`, on `entry_codec`, which reads the entries, and on `topo_desk`, which makes each of them
//! again. It promises exactly the history for which the disk's bytes stand, with its tables, or the first bad gate; and
//! that a disk that isn't a journal yet becomes one. What is done with the desk is left to its callers.
#![tactic(auto)]

mod end;
mod entries;
mod header;
mod reads;
mod recovery;
#[cfg(test)]
mod tests;

pub use end::RecoverEnd;
pub use recovery::recover;
