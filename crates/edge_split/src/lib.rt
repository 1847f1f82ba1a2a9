//! Plans for edges that are split, after ST_ModEdgeSplit and ST_NewEdgesSplit of SQL/MM Topo-Geo, and the links of
//! edges by the new names of darts.
//!
//! It stands on the splits of `grid_lines`, the features of `relation_rows` and the drafts of `read_set`. It
//! promises the row writes and the reply of a split where it is accepted on the tables, and else the rule that
//! refuses it, by the rules in their order. To make the writes is left to whoever keeps the tables, and to join
//! edges again to `edge_heal`, which renames darts in the same way.
#![tactic(auto)]

mod links;
mod rules;
mod splitting;
#[cfg(test)]
mod tests;
mod writes;

pub use links::{Names, relink_rows, row_dart};
pub use rules::split_edge;
pub use splitting::node_and_edge;
