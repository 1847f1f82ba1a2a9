//! The nodes, edges or faces to which a feature descends.
//!
//! It stands on the tables of `topo_tables`. It promises of a feature exactly the elements to which it descends.
//! Layers and features that come and go are left to `topogeom_points`.
#![tactic(auto)]

mod descent;
mod numbers;
#[cfg(test)]
mod tests;

pub use descent::{elements_of, numbers_of};
