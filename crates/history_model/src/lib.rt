//! Histories of several editors, in `specs/`: which are legal, how an entry and a journal are spelled, what an edit
//! reads, and which answers are right.
//!
//! It stands on `drawing` and on the laws of `edit_changes`. Contracts of journal, codec, recovery and desk cite these
//! definitions. The law of entries' bytes is carried by a function of `topo_model`; the core of several editors is
//! `core_law`.
#![tactic(auto)]

pub mod laws;
