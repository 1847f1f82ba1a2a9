//! Added edges, after ST_AddEdgeModFace and ST_AddEdgeNewFaces of SQL/MM Topo-Geo.
//!
//! It stands on the stars of `edge_links`, the borders of `face_rings`, the parts of `face_parts`, the
//! boxes of `face_boxes`, the features of `relation_rows` and the drafts of `read_set`. It promises the row
//! writes and the ids of the edit where it is accepted on the tables, and else the rule that refuses it, by the
//! rules in their order. To make a plan is left to `edit_plan`.
#![tactic(auto)]

mod adding;
mod closing;
mod dividing;
mod finishing;
mod planning;
mod ring;
#[cfg(test)]
mod wedge_tests;
mod wedges;

pub use planning::add_edge;
