// Relation rows in their order: by feature, then type, then element.
ghost use Rattle.std.specs.Prelude.{◌≡◌, ◌+◌, ◌-◌, ◌<◌, ◌≤◌, not, filter, length, vec_len, vec_capacity, IfSome, IfNone};
ghost use Rattle.std.specs.List.{insert};
ghost use Rattle.drawing.specs.Relations.{insert_row, row_before, same_row};

use topo_base::RelationRow;

/// Whether the row comes before the other.
fn comes_before(row: &RelationRow, other: &RelationRow) -> bool
    ensures { result ≡ row_before row.now other.now }
{
    row.topogeo_id.0 < other.topogeo_id.0
        || row.topogeo_id.0 == other.topogeo_id.0 && row.element_type < other.element_type
        || row.topogeo_id.0 == other.topogeo_id.0
            && row.element_type == other.element_type
            && row.element_id < other.element_id
}

/// Whether both are of one feature and list one element.
pub fn is_same(row: &RelationRow, other: &RelationRow) -> bool
    ensures { result ≡ same_row row.now other.now }
{
    row.topogeo_id.0 == other.topogeo_id.0
        && row.element_type == other.element_type
        && row.element_id == other.element_id
}

/// The place at which the row is to be put. None where it is there already.
fn place_for(rows: &[RelationRow], row: &RelationRow) -> Option<usize>
    ensures place { IfSome result (λ i. (i ≤ length rows.now) × (insert_row row.now rows.now ≡ insert rows.now i row.now)) }
    ensures there { IfNone result (insert_row row.now rows.now ≡ rows.now) }
{
    for place in 0..rows.len() {
        if comes_before(row, &rows[place]) {
            return Some(place);
        }
        if is_same(row, &rows[place]) {
            return None;
        }
    }
    Some(rows.len())
}

/// Puts the row in its order among the others, for which there is room. A row that is there stays
/// once. Takes no memory.
pub fn put(rows: &mut Vec<RelationRow>, row: RelationRow)
    requires { vec_len rows.old < vec_capacity rows.old }
    ensures rows { rows.new.items ≡ insert_row row rows.old.items }
    ensures room { vec_capacity rows.old - vec_len rows.old ≤ vec_capacity rows.new - vec_len rows.new + 1 }
{
    if let Some(place) = place_for(rows, &row) {
        rows.insert(place, row).unwrap();
    }
}

/// Drops the row.
pub fn take_out(rows: &mut Vec<RelationRow>, row: RelationRow)
    ensures rows { rows.new.items ≡ filter (λ r. not (same_row row r)) rows.old.items }
    ensures room { vec_capacity rows.old - vec_len rows.old ≤ vec_capacity rows.new - vec_len rows.new }
{
    rows.retain(|other| !is_same(&row, other));
}
