//! The edits of isolated nodes and isolated edges, after ST_AddIsoNode, ST_MoveIsoNode,
//! ST_RemoveIsoNode, ST_AddIsoEdge and ST_RemoveIsoEdge of SQL/MM Topo-Geo.
//!
//! It stands on the tables of `topo_tables`, the answers of `read_set`, the queries of `drawing_queries`, the
//! tests of `grid_lines` and the boxes of `face_boxes`. It promises the row writes and the ids of the edit where
//! it is accepted on the tables, and else the rule that refuses it, by the rules in their order. To make a plan
//! is left to `edit_plan`, and to make the writes to whoever keeps the tables.
#![tactic(auto)]

mod edges;
mod nodes;
mod writing;

pub use edges::{add_iso_edge, remove_iso_edge};
pub use nodes::{add_iso_node, move_iso_node, remove_iso_node};
