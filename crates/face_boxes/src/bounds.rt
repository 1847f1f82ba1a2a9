// The least boxes of faces.
ghost use Rattle.std.specs.Prelude.{◌≡◌, ◌+◌, ◌≤◌, length};
ghost use Rattle.std.specs.List.{sum_by};
ghost use Rattle.drawing.specs.Tables.{drawn, face_box};
ghost use Rattle.face_boxes.specs.Bounds.{box_with, without};
ghost use Rattle.drawing_queries.specs.Counted.{point_steps};

use drawing_queries::{box_beside, with_line};
use std::sync::ledger::Ledger;
use topo_base::{Box4, EdgeId, FaceId, Line, Steps};
use topo_tables::Tables;

/// The box of a face. Face 0 has none.
pub fn box_of<L: Ledger>(tables: &Tables, face: FaceId, steps: &mut Steps<L>) -> Option<Box4>
    ensures bounds { result ≡ face_box (drawn tables.now.rows) face }
    ensures counted { steps.new ≤ steps.old + sum_by point_steps tables.now.rows.edges }
{
    if face.0 == 0 {
        return None;
    }
    box_beside(tables, face, &None, steps)
}

/// The box of a face without an edge. Face 0 has none.
pub fn box_without<L: Ledger>(
    tables: &Tables,
    face: FaceId,
    edge: EdgeId,
    steps: &mut Steps<L>,
) -> Option<Box4>
    ensures bounds { result ≡ face_box (without edge (drawn tables.now.rows)) face }
    ensures counted { steps.new ≤ steps.old + sum_by point_steps tables.now.rows.edges }
{
    if face.0 == 0 {
        return None;
    }
    box_beside(tables, face, &Some(edge), steps)
}

/// The box of a face with an edge of this line and this id, which is new. Face 0 has none.
pub fn box_with_new<L: Ledger>(
    tables: &Tables,
    face: FaceId,
    edge: EdgeId,
    line: &Line,
    steps: &mut Steps<L>,
) -> Option<Box4>
    ensures bounds { result ≡ box_with line.now (without edge (drawn tables.now.rows)) face }
    ensures counted { steps.new ≤ steps.old + sum_by point_steps tables.now.rows.edges + length line.now }
{
    if face.0 == 0 {
        return None;
    }
    let old = box_beside(tables, face, &Some(edge), steps);
    with_line(old, line, steps)
}
