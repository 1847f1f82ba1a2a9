//! A report on tables from anywhere: what keeps them from standing for a planar subdivision, and where.
//!
//! It stands on the exact tests of `grid_segments`, `grid_lines`, `grid_angle` and `grid_rays`, on the index of
//! `slab_index`, and on the tables of `drawing`. It promises all lines exactly as `specs/` defines them, and that tables
//! without lines stand for a plain drawing whose rings have one face each and whose faces have their shells. That each
//! point is then in one face has no clause. Reading dumps and printing lines is left to `table_dump`.
#![tactic(auto)]

mod above;
mod conflicts;
mod counters;
mod crossing;
mod layer_lines;
mod lines;
mod link_lines;
mod pairs;
mod pieces;
mod place_lines;
mod plain_lines;
mod raw;
mod references;
mod relation_lines;
mod reporting;
mod ring_lines;
mod sides;
mod stars;
mod sweep;
mod table;
mod walks;

pub use lines::{Report, ReportLine};
pub use raw::{RawTables, RelationRows};
pub use reporting::report;
pub use table::{Row, Rows};
