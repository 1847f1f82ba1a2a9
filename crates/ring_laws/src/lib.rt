//! Laws of rings: in the drawing of every legal history each ring has one face on its left.
//!
//! It stands on the definitions of `drawing` and on the orbits of `face_rings`. It promises that each of
//! the eighteen edits keeps such drawings, so that the laws of `face_rings` hold in every history, and that
//! the rings of a divided face lie in one part each. That each face has one shell, and is where its border
//! says, is left to others.
#![tactic(auto)]

mod laws;

pub use laws::{parts_law, rings_law};
