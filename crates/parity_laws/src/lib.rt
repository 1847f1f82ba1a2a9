//! Laws of parities: which points and which sides of a line are in a face, by counting what is above them.
//!
//! A step is a segment walked from one end to the other, and a drawing is the list of all its steps, each in
//! both directions; a face is the sum of its rings modulo 2. It stands on the points and segments of
//! `topo_base` and on the definitions of `plane`. It promises how parities go along ways, round corners,
//! across steps and over cuts, and what follows for rings, shells and faces, where steps meet at their ends
//! alone. That the drawing of a history is such a list, with its faces on the left of their steps, is left to
//! the laws of faces.
#![tactic(auto)]

mod laws;

pub use laws::{
    cut_leaves_parity, each_step_has_one_ring, face_divided, faces_joined, highest_ring_is_shell,
    holes_share_no_vertex, lines_are_even, near_point_sees_left, parity_changes, parity_stays,
    parity_stays_at_rational_points, rational_point_in_one_face, ring_has_one_side,
    shell_by_parity, view_upward,
};
