//! A journal of entries on a disk, in which a crash at any write leaves the acknowledged entries and at most one more.
//!
//! It stands on `topo_disk`, and on `history_model` and `entry_codec` for the entries that its bytes spell. An entry is a body of bytes
//! behind a gate; which body may stand where is a test that each clause takes, so that the journal knows no edits.
//! It promises at every moment of `create` and `append` what each outcome of a crash stands for, and that no call fails
//! where the disk's count of faults did not rise. Reading entries back, and the tables, are left to what stands above.
#![tactic(auto)]

mod begun;
mod frame;
mod gates;
mod header;
mod journal;
mod laws;
mod plain;
#[cfg(test)]
mod reopen;
#[cfg(test)]
mod tests;

pub use begun::{Begun, adopt, begin, create};
pub use frame::frame_of;
pub use journal::Journal;
pub use laws::{adoption_law, entries_law};
pub use plain::{Plain, read_plainly};
