//! The darts about a node, and the links round an edge that comes or goes.
//!
//! It stands on the order of directions of `grid_angle` and on the tables of `topo_tables`. It promises
//! the star of a node exactly as the definitions of `drawing` have it, also with the darts of an
//! edge that is still to come, and the row writes after which every link is right where an edge came or
//! went. Whether an edge may come or go, and which faces it has, is left to its callers.
#![tactic(auto)]

mod about;
mod laws;
mod links;
mod star;
#[cfg(test)]
mod tests;
mod unlinks;

pub use about::{direction_at_end, direction_at_start, insert_edge, star_about};
pub use laws::{links_law, unlinks_law};
pub use links::{has_dart, link_writes};
pub use star::Star;
pub use unlinks::unlink_writes;
