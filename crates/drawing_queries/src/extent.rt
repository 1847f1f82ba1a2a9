// The least box of what lies beside a face.
ghost use Rattle.std.specs.Prelude.{◌≡◌, ◌+◌, ◌≤◌, ◌∷◌, [], length, map};
ghost use Rattle.std.specs.List.{sum_by};
ghost use Rattle.drawing.specs.Places.{rows_of};
ghost use Rattle.drawing.specs.Tables.{box_at, drawn, drawn_edge, least_box, wider as with_vertex};
ghost use Rattle.drawing_queries.specs.Counted.{point_steps};
ghost use Rattle.drawing_queries.specs.Extent.{grown, is_left_out, vertices_beside};

use crate::row_tests::has_side;
use std::sync::ledger::Ledger;
use topo_base::{Box4, EdgeId, EdgeRow, FaceId, Grid, Line, Steps};
use topo_tables::Tables;

/// The box of one point.
fn of_point(point: Grid) -> Box4
    ensures { result ≡ box_at point }
{
    Box4 {
        min_x: point.x(),
        min_y: point.y(),
        max_x: point.x(),
        max_y: point.y(),
    }
}

/// The least box with a point more.
fn wider(old: Box4, point: Grid) -> Box4
    ensures { result ≡ with_vertex old point }
{
    Box4 {
        min_x: old.min_x.min(point.x()),
        min_y: old.min_y.min(point.y()),
        max_x: old.max_x.max(point.x()),
        max_y: old.max_y.max(point.y()),
    }
}

/// The same, where there may be no box so far.
fn with_point(bounds: Option<Box4>, point: Grid) -> Option<Box4>
    ensures { result ≡ grown bounds (point ∷ []) }
{
    match bounds {
        None => Some(of_point(point)),
        Some(old) => Some(wider(old, point)),
    }
}

/// The least box with the vertices of a line more, where there may be no box so far.
pub fn with_line<L: Ledger>(bounds: Option<Box4>, line: &Line, steps: &mut Steps<L>) -> Option<Box4>
    ensures bounds { result ≡ grown bounds line.now }
    ensures counted { steps.new ≡ steps.old + length line.now }
{
    let mut all = bounds;
    for vertex in line.vertices() {
        steps.tick();
        all = with_point(all, *vertex);
    }
    all
}

/// Whether the edge is the one that is left out.
fn is_left_out(row: &EdgeRow, left_out: &Option<EdgeId>) -> bool
    ensures { result ≡ is_left_out left_out.now (drawn_edge row.now) }
{
    match left_out {
        None => false,
        Some(edge) => row.edge_id.0 == edge.0,
    }
}

/// The least box with the vertices of an edge more, where it is not left out and has the face on a
/// side.
fn with_edge<L: Ledger>(
    bounds: Option<Box4>,
    row: &EdgeRow,
    face: FaceId,
    left_out: &Option<EdgeId>,
    steps: &mut Steps<L>,
) -> Option<Box4>
    ensures bounds { result ≡ grown bounds (vertices_beside face left_out.now (drawn_edge row.now ∷ [])) }
    ensures counted { steps.new ≤ steps.old + point_steps row.now }
{
    steps.tick();
    if is_left_out(row, left_out) || !has_side(face, row) {
        return bounds;
    }
    with_line(bounds, &row.geom, steps)
}

/// The least box of the vertices of the edges, but for the one that is left out, that have the face
/// on a side.
fn box_among<L: Ledger>(
    edges: &[Option<EdgeRow>],
    face: FaceId,
    left_out: &Option<EdgeId>,
    steps: &mut Steps<L>,
) -> Option<Box4>
    ensures bounds { result ≡ least_box (vertices_beside face left_out.now (map drawn_edge (rows_of edges.now))) }
    ensures counted { steps.new ≤ steps.old + sum_by point_steps (rows_of edges.now) }
{
    let mut bounds = None;
    for slot in edges {
        if let Some(row) = slot {
            bounds = with_edge(bounds, row, face, left_out, steps);
        }
    }
    bounds
}

/// The least box of the vertices of the edges, but for the one that is left out, that have the face
/// on a side. None where there is no such edge.
pub fn box_beside<L: Ledger>(
    tables: &Tables,
    face: FaceId,
    left_out: &Option<EdgeId>,
    steps: &mut Steps<L>,
) -> Option<Box4>
    ensures bounds { result ≡ least_box (vertices_beside face left_out.now (drawn tables.now.rows).edges) }
    ensures counted { steps.new ≤ steps.old + sum_by point_steps tables.now.rows.edges }
{
    box_among(tables.edges(), face, left_out, steps)
}
