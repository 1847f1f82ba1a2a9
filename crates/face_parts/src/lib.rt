//! The parts of a face that an added edge divides: which rings of its border and which of its isolated nodes
//! come into which part, and the row writes by which sides and containing faces follow.
//!
//! It stands on the rings of `face_rings`, on the closed walks of `grid_rays`, and on the tables of
//! `topo_tables`. It promises that the writes make each side and each containing face that was the divided
//! face the part that has it, change nothing else, and may be made once the parts are listed. Which faces
//! the parts are is left to the planners.
#![tactic(auto)]

mod cut;
mod divide;
mod laws;
mod parts;
mod path;
#[cfg(test)]
mod path_tests;
mod sides;
#[cfg(test)]
mod tests;

pub use cut::Cut;
pub use divide::divided_writes;
pub use laws::sides_law;
pub use parts::{FaceParts, has_dart};
pub use path::ring_path;
