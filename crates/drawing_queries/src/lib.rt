//! What is asked of a drawing before an edit: the edges at a node and beside a face, the face of a point,
//! the least box beside a face, what stands in the way of a point or a line, which nodes and edges are
//! isolated, and whether a feature lists an element.
//!
//! It stands on the tables of `topo_tables`, the tests of `grid_lines` and the crossings of `grid_rays`. Each
//! answer is exactly what the definitions of `drawing` have; all but the lists of edges are found without
//! memory in a bounded number of counted steps. The face of a point is the least one, other than face 0, that
//! has an odd number of border segments above it. In which order the conditions are asked, and what is refused,
//! is left to the planners.
#![tactic(auto)]

mod beside;
mod conditions;
mod extent;
mod found;
mod location;
mod row_tests;
mod scan;

pub use beside::{edges_at, edges_beside};
pub use conditions::{
    accepts_face, goes_between, has_only, is_blocked, is_blocked_for, is_given_face, is_in_feature,
    is_isolated, is_isolated_edge, is_line_blocked, is_on_edge, is_same_face, is_same_node,
};
pub use extent::{box_beside, with_line};
pub use found::Found;
pub use location::face_at;
pub use scan::{RowTest, any_row};
