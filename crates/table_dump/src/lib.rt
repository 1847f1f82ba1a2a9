//! Dumps: the printed tables read back, whatever they say, and printed reports.
//!
//! It stands on `topo_io` and `edit_words` for numbers and words, and on `validate_topology` for raw tables and the
//! lines of a report. What the tables have to meet is left to the report.
#![tactic(auto)]

mod ends;
mod fields;
mod laws;
mod pieces;
mod read;
mod rows;
mod text;

pub use laws::dump_law;
pub use read::{DumpEnd, read_tables};
pub use text::report_text;
