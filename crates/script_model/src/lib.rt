//! Scripts and texts, in `specs/`: words, the grammar of lines, names and what they are bound to, and what is printed.
//!
//! It stands on `drawing`, whose edits and rows the words are of. Contracts of the crates that read scripts and print
//! cite these definitions.
#![tactic(auto)]

pub mod laws;
