//! The tables of a topology: nodes, edges, faces, layers, features and relation rows, with the next ids.
//!
//! It stands on `drawing`, whose `Tables` contracts see. It promises that a reader gives exactly what
//! the rows have, and that a change changes nothing else, and takes no memory after room was reserved.
//! An excerpt is a copy of them, on which an edit is planned. Whether an edit may be made, and which
//! changes it needs, is left to its callers.
#![tactic(auto)]

mod changes;
mod excerpt;
mod places;
mod relations;
mod reserve;
mod row;
mod tables;
#[cfg(test)]
mod tests;
mod write;
mod write_all;
mod writes;

pub use excerpt::Excerpt;
pub use tables::Tables;
pub use writes::Writes;
