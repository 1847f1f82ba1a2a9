//! Removed edges, after ST_RemEdgeModFace and ST_RemEdgeNewFace of SQL/MM Topo-Geo: an edge goes, and the
//! faces on its two sides become one.
//!
//! It stands on the links of `edge_links`, the features of `relation_rows`, the boxes of `face_boxes`, the
//! laws on sides of `face_parts`, the conditions of `drawing_queries` and the drafts of `read_set`. It
//! promises the row writes and the reply where the edit is accepted, and else the rule that refuses it, by
//! the rules in their order. To make a plan of the writes is left to `edit_plan`.
#![tactic(auto)]

mod following;
mod last;
mod merge;
mod merging;
mod planning;
mod removed;
mod removing;
mod sides;
#[cfg(test)]
mod tests;

pub use planning::remove_edge;
