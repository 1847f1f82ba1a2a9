//! Layers and features: addlayer, createtopogeom, addelement, remelement and dropfeature, after
//! AddTopoGeometryColumn, CreateTopoGeom, TopoGeom_addElement, TopoGeom_remElement and the drop of a TopoGeometry of
//! PostGIS Topology.
//!
//! It stands on the tables of `topo_tables` and the answers of `read_set`. It promises the row writes and the ids
//! of the edit where it is accepted on the tables, and else the rule that refuses it, by the rules in their order.
//! To make a plan is left to `edit_plan`, and to make the writes to whoever keeps the tables.
#![tactic(auto)]

mod creating;
mod dropping;
mod layers;
mod listing;
mod pairs;
#[cfg(test)]
mod tests;

pub use creating::create;
pub use dropping::drop_feature;
pub use layers::add_layer;
pub use listing::{add_element, remove_element};
