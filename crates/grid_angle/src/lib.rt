//! Directions about a grid point, in clockwise order. It stands on the products of `topo_base` and
//! on the order of directions of `plane`. Each answer is exact: it is found by signs of
//! products of whole numbers. Which half-edge has a direction is left to others.
#![tactic(auto)]

mod dir;
mod order;
mod star;
#[cfg(test)]
mod tests;

pub use dir::Dir;
pub use order::clockwise;
pub use star::wedge;
