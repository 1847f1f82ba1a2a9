//! Point location: the first edge straight above a point, and the edge that a point lies on, without going over all
//! edges. Each segment is kept once, in its slab: the smallest of the upright strips, each half as wide as the one round it,
//! that holds both of its ends. A point's path is the 43 slabs that hold it, and no other slab has a segment above it. In a
//! slab segments are in the order of their tops, and a search leaves out those wholly below the point, and leaves off where
//! all others are above what is found.
//!
//! It stands on the points of `topo_base` and on the definitions of `plane`. Each answer is exact, in at most 43 counted
//! steps and one for each segment kept on the point's path. A change is staged, which takes all of its memory, and then
//! settled or discarded without memory. In which face a point is, is left to those who know the faces of edges.
#![tactic(auto)]

mod above;
mod heights;
mod index;
mod numbers;
mod on;
mod piece;
mod slabs;
#[cfg(test)]
mod tests;
mod visits;

pub use index::SlabIndex;
