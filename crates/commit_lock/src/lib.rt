//! A ticket lock round one value that keeps a history: many editors plan at once, and one at a time has its turn.
//!
//! It stands on `atomic_table` for the atomic steps and on `topo_base` for the entries. It promises that the history
//! under the lock grows by the passes' own entries alone, and that what a pass has seen stays the beginning of it.
//! What a turn does to the value is left to the caller, who gives the value back with the same history or with one
//! entry more. Nothing is said of how long a turn is waited for.
#![tactic(auto)]

mod chronicle;
mod lock;
mod pass;
mod rule;
mod setting;
#[cfg(test)]
mod tests;
mod view;

pub use chronicle::Chronicle;
pub use lock::TurnLock;
pub use pass::{Note, Pass, Turn};
pub use setting::Setting;
