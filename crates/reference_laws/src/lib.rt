//! Laws of references: in the drawing of every legal history each id that a row names is listed.
//!
//! It stands on the definitions of `drawing`, on the laws of `ring_laws`, which say so of nodes, edges and
//! faces, and on the order of rows in `relation_rows`. It promises that each of the eighteen edits keeps such
//! drawings: layers have their children, features their layers, and relation rows their features, layers and
//! elements. No code here runs.
#![tactic(auto)]

mod laws;

pub use laws::references_law;
