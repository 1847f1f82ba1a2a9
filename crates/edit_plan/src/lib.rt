//! The plan of each edit.
//!
//! It matches the edit once, and calls what the situation is called: `iso_edits` for isolated nodes and edges,
//! `face_split` for added edges, `face_merge` for removed ones, `edge_split` and `edge_heal` for split and healed ones,
//! `topogeom_points` for layers and features. It promises the row writes of an edit that is accepted on the tables, and
//! else the rule that refuses it; and that a subdivision on whose tables the writes were made is one, that these may be
//! edited again, and that features kept their points. To make the writes is left to whoever keeps the tables.
#![tactic(auto)]

mod planning;

pub use planning::{edited, plan};
