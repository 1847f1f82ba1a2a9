//! The least boxes of faces, read from tables, and the laws of the row writes that set them.
//!
//! It stands on the tables of `topo_tables`. A face's box is the least one of all vertices of the edges
//! that have the face on a side; face 0 has none. Which faces an edit changes, and so which boxes are to
//! be written, is left to the planners; `proofs` says what the tables are after these writes.
#![tactic(auto)]

mod bounds;
#[cfg(test)]
mod tests;

pub use bounds::{box_of, box_with_new, box_without};
