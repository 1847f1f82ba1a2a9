//! Plans for edges that are healed, after ST_ModEdgeHeal and ST_NewEdgeHeal of SQL/MM Topo-Geo.
//!
//! It stands on the renamed links of `edge_split`, the joins of `grid_lines`, the features of `relation_rows` and
//! the drafts of `read_set`. It promises the row writes and the reply of a heal where it is accepted on the
//! tables, and else the rule that refuses it, by the rules in their order; and that a heal undoes a split. To
//! make the writes is left to whoever keeps the tables.
#![tactic(auto)]

mod heal_new;
mod healing;
mod joint;
mod laws;
mod rules;
#[cfg(test)]
mod tests;

pub use laws::heal_law;
pub use rules::heal_edges;
