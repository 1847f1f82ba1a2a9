//! An index of boxes: which entries, each an id and its box, meet a given box.
//!
//! It stands on `topo_base`. It promises that a search near an area gives each entry whose box meets
//! the area, and no other, each as often as it is kept, and that nothing but `reserve` takes memory.
//! What has these ids, and what is tested of them, is left to its callers.
#![tactic(auto)]

mod any;
mod boxes;
mod cells;
mod entry;
mod index;
mod loose_grid;
mod near;
mod remove;
#[cfg(test)]
mod tests;
mod walk;

pub use any::EntryTest;
pub use entry::Entry;
pub use index::BoxIndex;
pub use near::Near;
