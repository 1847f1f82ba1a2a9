//! Rings: the walks along the border of a face, after GetRingEdges and ST_GetFaceEdges of PostGIS Topology.
//!
//! It stands on the rows of `topo_base` and on the definitions of `drawing`. It promises that a border is
//! exactly what the rows have of it, that a ring is the orbit of its dart under next, and that the rings of a
//! border are all of them, each begun with its least dart; the laws say that on a plain drawing these are the
//! rings of its half-edges. Which links change, and what lies on a ring's sides, is left to the planners.
#![tactic(auto)]

mod content;
mod laws;
mod order;
mod places;
mod rings;
#[cfg(test)]
mod tests;

pub use content::{BorderDart, FaceContent};
pub use laws::{face_rings_law, ring_law};
pub use rings::{face_rings, ring_of};
