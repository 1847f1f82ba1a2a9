//! Laws of the definition: a planar subdivision has all that the laws of subdivisions keep.
//!
//! It stands on the laws of subdivisions (`subdivision_laws`) and of faces (`face_laws`). It promises that the premise
//! of those laws, and of the promises of plans, is the definition of a planar subdivision alone. No code here runs.
#![tactic(auto)]

mod laws;

pub use laws::definition_law;
