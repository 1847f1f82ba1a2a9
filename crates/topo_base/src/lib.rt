//! The plain data of a topology: points, lines, ids, rows, edits and answers, after the tables and
//! functions of PostGIS Topology (SQL/MM Topo-Geo).
//!
//! It stands on std alone. It promises that data is in range where its type says so, and exact products
//! of coordinates. What an edit does is left to the definitions of `edit_changes`, and where rows are kept
//! to `topo_tables`.
#![tactic(auto)]

mod answer;
mod edit;
mod element;
mod grid;
mod history;
mod ids;
mod kind;
mod limits;
mod line;
mod meeting;
mod memory;
mod name;
mod named;
mod products;
mod relation;
mod rows;
mod rule;
mod steps;
mod text;
mod write;

pub use answer::Answer;
pub use edit::{Edit, Entry, Pair, PairList};
pub use element::{Element, Ids};
pub use grid::Grid;
pub use history::History;
pub use ids::{Dart, EdgeId, FaceId, FeatureId, LayerId, NodeId, is_same_dart};
pub use kind::Kind;
pub use limits::Limits;
pub use line::Line;
pub use meeting::Meeting;
pub use memory::Memory;
pub use name::Name;
pub use named::{IdWord, NamedEdit, NamedPair, NamedPairList};
pub use products::{cross_product, product};
pub use relation::{Relation, Side};
pub use rows::{Box4, Counters, EdgeRow, FaceRow, FeatureRow, LayerRow, NodeRow, RelationRow};
pub use rule::Rule;
pub use steps::Steps;
pub use text::Text;
pub use write::{Hand, RowDart, RowElement, RowId, RowWrite};
