//! Drawings and tables, in `specs/`: their rows, what each edit does to them (`Step`), and when they are a
//! planar subdivision.
//!
//! It stands on `plane`, by whose tests Step decides. Contracts of the planners, and the laws of Step, cite these
//! definitions. To read them begin with `Drawing`, `Step` and `Replay`.
#![tactic(auto)]

pub mod laws;
