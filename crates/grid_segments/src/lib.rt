//! Segments between grid points: how two of them lie to one another, on which side of one a point
//! lies, and whether a point lies on one. Each answer is exact, however flat the segments cross:
//! areas are taken in 128 bits, and nothing is rounded. Stands on the points of `topo_base` and on
//! the sentences of `plane` on rational points. No call takes memory. Lines of several
//! segments are left to the crates above.
#![tactic(auto)]

mod areas;
mod intervals;
mod points;
mod relations;
mod segment;
mod sides;
#[cfg(test)]
mod tests;

pub use points::on_segment;
pub use relations::relate;
pub use segment::Seg;
pub use sides::side;
pub use topo_base::{Relation, Side};
