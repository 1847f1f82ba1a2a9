//! The core of several editors: looks, commits, faults and notes, one event after another, on one history.
//!
//! It stands on the definitions of `history_model` and `drawing`, and on `ring_laws`. What an edit reads is a table that
//! the core takes. It promises of each table by which edits are decided, that in every run of the core the edits that
//! were done stand in one legal history, that each answer is right on it, and that no rule of Step refuses a commit.
//! That editors run, on threads and over a disk, is left to the desk. No code here runs.
#![tactic(auto)]

mod laws;

pub use laws::{core_law, stamp_law, unread_law, whole_drawing_law};
