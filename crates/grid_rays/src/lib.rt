//! What a ray straight up from a point crosses, and closed walks of grid points: their top vertex,
//! whether a walk is a shell or a hole, and whether a point is inside. Stands on the sides of
//! `grid_segments`, the order of directions of `grid_angle`, and the crossings and rings of
//! `plane`. Each answer is exact, and no call takes memory. Which half-edges make up a ring is
//! left to others.
#![tactic(auto)]

mod above;
mod inner;
mod ring;
mod shells;
#[cfg(test)]
mod tests;
mod tops;

pub use above::crossings_above;
pub use inner::inside;
pub use ring::Ring;
pub use shells::is_shell;
pub use tops::top_vertex;
