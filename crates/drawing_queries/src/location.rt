// The face that a point is in.
ghost use Rattle.std.specs.Prelude.{◌≡◌, ◌+◌, ◌-◌, ◌*◌, ◌≤◌, ◌==◌, ◌&&◌, not, false, length, slice_index_or, IsTrue};
ghost use Rattle.std.specs.List.{sum_by};
ghost use Rattle.drawing.specs.Drawing.{has_face};
ghost use Rattle.drawing.specs.Faces.{face_at, is_border};
ghost use Rattle.plane.specs.Parity.{is_odd_over, xor};
ghost use Rattle.plane.specs.Line.{segments_of};
ghost use Rattle.drawing.specs.Places.{rows_of};
ghost use Rattle.drawing.specs.Subdivision.{rows_in_order, face_id_of};
ghost use Rattle.drawing.specs.Tables.{drawn, drawn_edge};
ghost use Rattle.drawing_queries.specs.Location.{AreNone, AreOdd, AreToggled, IsLeast, is_odd_listed};
ghost use Rattle.drawing_queries.specs.Counted.{face_steps, point_steps};

use grid_rays::crossings_above;
use std::sync::ledger::Ledger;
use topo_base::{EdgeRow, FaceId, Grid, Steps};
use topo_tables::Tables;

/// How many faces are counted in one walk over the edges, so that no memory is asked for.
const WINDOW: u32 = 4096;

/// The other parity for the face, where its place is among these, the first of which is that of a
/// face.
fn toggle(odd: &mut [bool], first: u32, face: FaceId)
    ensures len { length odd.new ≡ length odd.old }
    ensures toggled { AreToggled (λ f. face == f) first odd.old odd.new }
{
    if face.0 < first {
        return;
    }
    let place = (face.0 - first) as usize;
    if place < odd.len() {
        odd[place] = !odd[place];
    }
}

/// The other parity for both faces of an edge.
fn toggle_sides(odd: &mut [bool], first: u32, row: &EdgeRow)
    ensures len { length odd.new ≡ length odd.old }
    ensures toggled { AreToggled (λ f. is_border f (drawn_edge row.now)) first odd.old odd.new }
{
    toggle(odd, first, row.left_face);
    toggle(odd, first, row.right_face);
}

/// Whether the edge has different faces on its two sides.
fn has_two_faces(row: &EdgeRow) -> bool
    ensures { result ≡ not (row.now.left_face == row.now.right_face) }
{
    row.left_face.0 != row.right_face.0
}

/// Whether the edge is between two faces, and an odd number of its segments are above the point.
fn is_odd_border<L: Ledger>(row: &EdgeRow, point: Grid, steps: &mut Steps<L>) -> bool
    ensures test { result ≡ (not (row.now.left_face == row.now.right_face) && is_odd_over point (segments_of row.now.geom)) }
    ensures counted { steps.new ≤ steps.old + point_steps row.now }
{
    steps.tick();
    has_two_faces(row) && crossings_above(point, &row.geom, steps) % 2 == 1
}

/// The parities with those of an edge.
fn count_edge<L: Ledger>(
    odd: &mut [bool],
    first: u32,
    row: &EdgeRow,
    point: Grid,
    steps: &mut Steps<L>,
)
    ensures len { length odd.new ≡ length odd.old }
    ensures toggled { AreToggled (λ f. is_border f (drawn_edge row.now) && is_odd_over point (segments_of row.now.geom)) first odd.old odd.new }
    ensures counted { steps.new ≤ steps.old + point_steps row.now }
{
    if is_odd_border(row, point, steps) {
        toggle_sides(odd, first, row);
    }
}

/// Whether an odd number of border segments are above the point, for each face that has its place
/// among these.
fn count_edges<L: Ledger>(
    odd: &mut [bool],
    first: u32,
    edges: &[Option<EdgeRow>],
    point: Grid,
    steps: &mut Steps<L>,
)
    requires { AreNone odd.old }
    ensures len { length odd.new ≡ length odd.old }
    ensures odd { AreOdd point first (rows_of edges.now) odd.new }
    ensures counted { steps.new ≤ steps.old + sum_by point_steps (rows_of edges.now) }
{
    for slot in edges {
        if let Some(row) = slot {
            count_edge(odd, first, row, point, steps);
        }
    }
}

/// Whether the face is there, is another than face 0, and has an odd number of border segments.
fn is_odd(tables: &Tables, odd: &[bool], first: u32, face: FaceId) -> bool
    requires { first ≤ face }
    ensures { result ≡ is_odd_listed (drawn tables.now.rows) first odd.now face }
{
    let place = (face.0 - first) as usize;
    place < odd.len() && odd[place] && face.0 != 0 && tables.has_face(face)
}

/// The least of the faces that have their places among these and an odd number of border segments.
fn least_odd<L: Ledger>(
    tables: &Tables,
    odd: &[bool],
    first: u32,
    steps: &mut Steps<L>,
) -> Option<FaceId>
    requires { length odd.now ≤ 4096 }
    ensures least { IsLeast (is_odd_listed (drawn tables.now.rows) first odd.now) first (first + length odd.now) tables.now.rows.next_ids.face result }
    ensures counted { steps.new ≤ steps.old + length odd.now }
{
    let next = tables.counters().face;
    let end = next.min(first.saturating_add(odd.len() as u32));
    for id in first..end {
        steps.tick();
        if is_odd(tables, odd, first, FaceId(id)) {
            return Some(FaceId(id));
        }
    }
    None
}

/// The least face other than 0 that has an odd number of border segments above the point, else 0.
pub fn face_at<L: Ledger>(tables: &Tables, point: Grid, steps: &mut Steps<L>) -> FaceId
    requires { IsTrue (rows_in_order face_id_of 0 tables.now.rows.next_ids.face (drawn tables.now.rows).faces) }
    ensures face { result ≡ face_at (drawn tables.now.rows) point }
    ensures counted { steps.new ≤ steps.old + face_steps tables.now.rows }
{
    let next = tables.counters().face;
    for walk in 0..next / WINDOW + 1 {
        let first = walk * WINDOW;
        let mut odd = [false; WINDOW as usize];
        count_edges(&mut odd, first, tables.edges(), point, steps);
        if let Some(face) = least_odd(tables, &odd, first, steps) {
            return face;
        }
    }
    FaceId(0)
}
