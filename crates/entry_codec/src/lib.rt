//! The bytes of journal entries: each entry has one spelling, and is read from it again.
//!
//! It stands on `history_model`, whose definitions say how an entry is spelled and which entries can be. It promises that
//! what is written is the entry's spelling, and that what is read is the entry whose spelling the bytes begin with, or
//! that they begin with none. Frames on a disk, and whether an entry may stand where it does, are left to `topo_journal`.
#![tactic(auto)]

mod edits;
mod ends;
mod feature_edits;
mod fields;
mod isolated_edits;
mod joined_edits;
mod laws;
mod parts;
mod reading;
#[cfg(test)]
mod tests;
mod writing;

pub use ends::CodecEnd;
pub use laws::reading_law;
pub use reading::decode;
pub use writing::{encode, framed};
