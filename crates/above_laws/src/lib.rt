//! The laws of what is first above a point: it tells the face that the point is in.
//!
//! They stand on the laws of faces (`face_laws`), the law of the definition (`covered_laws`) and the definition of the
//! first segment above (`slab_index`). They promise that in a planar subdivision a point is in the face on its side of
//! the first segment straight above it, and in face 0 where no segment is above it; and that a drawing is one where
//! this holds of its holes and isolated nodes. No code here runs.
#![tactic(auto)]

mod laws;

pub use laws::{above_law, faults_law, found_law, keeping_law, places_law};
