//! Plans: what an edit changes, found on an excerpt of the tables before anything is changed.
//!
//! A planner answers an edit with its row writes and ids (`Edited`), or with the rule that refuses it (`EditEnd`);
//! some try the edit on a `Draft` first (`Tried`). `edit_plan` makes the `Plan` of it.
//!
//! It stands on the excerpts and the row writes of `topo_tables`. A plan's type keeps its promise: on the
//! drawing of its excerpt the edit is accepted with the plan's ids, and the plan's writes make the tables
//! follow it. To find the writes is left to the planners, and to make them to whoever keeps the tables.
#![tactic(auto)]

mod copies;
mod draft;
mod edited;
mod end;
mod plan;

pub use draft::Draft;
pub use edited::{Edited, Tried, one_id};
pub use end::{EditEnd, PlanEnd};
pub use plan::Plan;
