//! Which relation rows change where a node, an edge or a face is replaced, so that features follow it.
//!
//! It stands on the tables and the row writes of `topo_tables`. It promises that its writes leave the
//! relation rows that Step has, and may be made on every table in which the features list the element.
//! Which elements are replaced, and by which, is left to the planners.
#![tactic(auto)]

mod element;
mod features;
mod listing;
mod merge;
mod same;
mod sharing;
mod split;
#[cfg(test)]
mod tests;

pub use features::FeatureList;
pub use listing::{is_hierarchical, listing_of, lists_element};
pub use merge::follow_merge;
pub use same::same_features;
pub use sharing::have_same_features;
pub use split::follow_split;
