//! Lines of several segments between grid points: whether one is simple, how two meet, and how one
//! is split at a point or joined to another.
//!
//! It stands on the tests of `grid_segments`, so each answer is exact, and on the sentences of
//! `plane` on rational points, which its contracts cite beside the tests by which an edit is
//! decided. Faces, rays and the nodes at a line's ends are left to the crates above.
#![tactic(auto)]

mod joins;
mod meetings;
mod own_ends;
mod points;
mod proper;
mod simple;
mod splits;
#[cfg(test)]
mod tests;

pub use joins::join;
pub use meetings::lines_meet;
pub use own_ends::meets_at_own_ends;
pub use points::{is_inside_line, on_line};
pub use proper::{first_of, is_proper, is_same_point, last_of};
pub use simple::is_simple;
pub use splits::split_at;
pub use topo_base::Meeting;
