//! Laws of subdivisions: the drawing of every legal history is a planar subdivision.
//!
//! It stands on the laws of faces (`face_laws`), of rings (`ring_laws`) and of references (`reference_laws`). It
//! promises that each of the eighteen edits keeps a drawing a planar subdivision: each point is in exactly one
//! face, sides and containing faces are right, and each face but 0 has one shell. No code here runs.
#![tactic(auto)]

mod laws;

pub use laws::subdivisions_law;
