//! Laws of the points of features: what does not change a feature leaves its points as they are.
//!
//! It stands on the laws of subdivisions (`subdivision_laws`) and of the lines of edges that come (`local_laws`). It
//! promises, by changes, that each feature that is there before and after has the same rational points. No code here
//! runs.
#![tactic(auto)]

mod laws;

pub use laws::{first_alone_law, points_law};
