//! A persistent array of rows, for tables that hand out snapshots. It stands on `topo_base` alone.
//!
//! Rows stand in leaves under two levels of branches. What a snapshot shares is never written:
//! `reserve_at` copies what is shared on the way to a place, and after that a write at that place needs
//! no memory and can't fail. What a row is and who may write at which time is left to callers.
#![tactic(auto)]

mod branch;
mod child;
mod held;
mod leaf;
mod node;
mod rows;
mod share;
mod table;
#[cfg(test)]
mod tests;

pub use held::Held;
pub use rows::SharedRows;
pub use share::Share;
