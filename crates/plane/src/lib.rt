//! Points, segments, lines and directions of the plane, in `specs/`, and the laws over them.
//!
//! It stands on `topo_base`, whose points the definitions speak of, and knows nothing of rows. Contracts of the
//! geometry crates cite these definitions. Its functions do nothing: each carries a law as its contract.
#![tactic(auto)]

pub mod laws;
