// Whether the same features list two elements.
ghost use Rattle.std.specs.Prelude.{◌≡◌, ◌≤◌, ◌<◌, ◌+◌, ◌==◌, ◌∷◌, [], drop, length};
ghost use Rattle.std.specs.List.{slice_index_or};
ghost use Rattle.topo_base.specs.declared.rows.RelationRow.{RelationRow as RelationValue};
ghost use Rattle.drawing.specs.RemoveEdge.{have_same_features};
ghost use Rattle.drawing.specs.Tables.{drawn};
ghost use Rattle.relation_rows.specs.Features.{feature_id, features_in};

use crate::listing::lists_element;
use std::sync::ledger::Ledger;
use topo_base::{RelationRow, Steps};
use topo_tables::Tables;

/// The first of the rows, from a place on, that lists the element, or their number.
fn next_listing<L: Ledger>(
    tables: &Tables,
    rows: &[RelationRow],
    from: usize,
    element_type: u32,
    id: u32,
    steps: &mut Steps<L>,
) -> usize
    requires { from ≤ length rows.now }
    ensures within { (from ≤ result) × (result ≤ length rows.now) }
    ensures found { (row : RelationValue) → result < length rows.now → row ≡ slice_index_or rows.now result row
        → features_in (drawn tables.now.rows) element_type id (drop from rows.now) ≡ feature_id row ∷ features_in (drawn tables.now.rows) element_type id (drop (result + 1) rows.now) }
    ensures some { result < length rows.now → 0 < length (features_in (drawn tables.now.rows) element_type id (drop from rows.now)) }
    ensures none { result ≡ length rows.now → features_in (drawn tables.now.rows) element_type id (drop from rows.now) ≡ [] }
{
    let mut at = from;
    while at < rows.len() {
        if lists_element(tables, element_type, id, &rows[at], steps) {
            return at;
        }
        at += 1;
    }
    at
}

/// Whether two rows are of one feature.
fn is_same_feature(row: &RelationRow, other: &RelationRow) -> bool
    ensures { result ≡ (feature_id row.now == feature_id other.now) }
{
    row.topogeo_id.0 == other.topogeo_id.0
}

/// Whether the features that list the one element are those that list the other, both of one type. Takes
/// no memory.
pub fn have_same_features<L: Ledger>(
    tables: &Tables,
    element_type: u32,
    first: u32,
    second: u32,
    steps: &mut Steps<L>,
) -> bool
    ensures { result ≡ have_same_features (drawn tables.now.rows) element_type first second }
{
    let rows = tables.relations();
    let mut one = 0;
    let mut other = 0;
    loop {
        let here = next_listing(tables, rows, one, element_type, first, steps);
        let there = next_listing(tables, rows, other, element_type, second, steps);
        if here == rows.len() {
            return there == rows.len();
        }
        if there == rows.len() {
            return false;
        }
        if !is_same_feature(&rows[here], &rows[there]) {
            return false;
        }
        one = here + 1;
        other = there + 1;
    }
}
