//! Laws of faces: where a drawing's faces are, by the parities of its edges.
//!
//! The steps of a drawing are the segments of its edges, each walked both ways. It stands on the laws of lists
//! of steps (`parity_laws`) and of half-edges and their rings (`face_rings`, `ring_laws`). It promises that the
//! steps of such a drawing stand once each and meet at their ends alone, that next of half-edges is next of
//! steps, and that a covered drawing, in which left of each step is its face by parity and each face but 0 has
//! one shell, has each point in one face, has in an edge's side face whatever sees the edge from that side, and
//! has its shells by the definition's test too. That each edit keeps drawings covered is left to the layer above.
#![tactic(auto)]

mod laws;

pub use laws::{faced_law, shells_law, steps_law};
