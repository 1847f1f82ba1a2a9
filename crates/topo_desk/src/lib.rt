//! The desk: tables, the history that they stand for, and the journal that keeps it.
//!
//! It stands on `edit_plan`, which plans an edit, on `topo_tables`, on `entry_codec`, which spells entries, and on
//! `topo_journal`. It promises of each edit the answer of Step on the whole history, or that of a limit, or that the
//! disk failed; that whatever isn't done leaves history and tables as they were; and that the disk stands for the
//! history, or for it and one entry in doubt. Scripts, replies and the reading of a journal are left to its callers.
#![tactic(auto)]

mod board;
mod desk;
mod new_ids;
mod planning;
mod prepared;
#[cfg(test)]
mod tests;

pub use board::Board;
pub use desk::Desk;
