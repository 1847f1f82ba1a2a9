//! The printed tables: a line for the next ids, and then a line for each row; and the printed features, each
//! with the elements to which it descends.
//!
//! It stands on `edit_words` for the words of a line, on `topo_tables` for the rows and on `layer_tree` for the
//! descent. It promises that what it prints is the text of the rows as they are. Reading dumps back is left to a
//! later state of this crate.
#![tactic(auto)]

mod features;
mod history;
#[cfg(test)]
mod reader;
mod rows;
#[cfg(test)]
mod tests;

pub use features::features_text;
pub use history::history_text;
pub use rows::tables_text;
