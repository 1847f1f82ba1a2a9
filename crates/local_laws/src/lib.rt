//! Laws of an added edge: where its line lies, and what little tells the parts of the face that it divides.
//!
//! It stands on the laws of subdivisions (`subdivision_laws`) and of faces (`face_laws`). It promises that the line of
//! an edge that may be added lies in one face, that any one vertex of another ring of that face tells the part into
//! which the ring goes, and that a box tells it for whatever is out of the box. No code here runs.
#![tactic(auto)]

mod laws;

pub use laws::{box_law, division_law, line_law};
