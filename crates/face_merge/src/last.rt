// The box of the face that is kept, and the faces that go.
ghost use Rattle.std.specs.Prelude.{◌≡◌, ◌≤◌, ◌+◌, ◌++◌, map, IfOk, OnOk};
ghost use Rattle.std.specs.List.{sum_by};
ghost use Rattle.drawing.specs.Tables.{drawn, face_box};
ghost use Rattle.drawing_queries.specs.Counted.{point_steps};
ghost use Rattle.face_boxes.specs.Bounds.{box_write};
ghost use Rattle.face_merge.specs.Last.{drop_face, last_writes};

use face_boxes::box_of;
use std::alloc::Global;
use std::sync::ledger::Ledger;
use topo_base::{FaceId, Memory, RowId, RowWrite, Steps};
use topo_tables::{Tables, Writes};

/// Puts the write of a face's box behind others; face 0 has none.
fn push_box<L: Ledger>(
    writes: &mut Writes,
    tables: &Tables,
    face: FaceId,
    steps: &mut Steps<L>,
) -> Result<(), Memory>
    ensures ok { OnOk result (writes.new ≡ writes.old ++ box_write face (face_box (drawn tables.now.rows) face)) }
    ensures counted { steps.new ≤ steps.old + sum_by point_steps tables.now.rows.edges }
{
    let mbr = box_of(tables, face, steps);
    if face.0 != 0 {
        writes.push(RowWrite::SetBox {
            face: RowId::Old(face.0),
            mbr,
        })?;
    }
    Ok(())
}

/// The write by which a face goes.
fn drop_face(face: FaceId) -> RowWrite
    ensures { result ≡ drop_face face }
{
    RowWrite::DropFace {
        face: RowId::Old(face.0),
    }
}

/// Puts the writes by which faces go behind others.
fn push_drops(writes: &mut Writes, gone: &[FaceId]) -> Result<(), Memory>
    ensures { OnOk result (writes.new ≡ writes.old ++ map drop_face gone.now) }
{
    for face in gone {
        writes.push(drop_face(*face))?;
    }
    Ok(())
}

/// The last writes where faces become one, on tables in which sides have followed: the box of the face
/// that is kept, and the faces that go. Face 0 has no box. Takes at most one step an edge, and one for
/// each of its vertices.
pub fn last_writes<L: Ledger>(
    alloc: Global,
    tables: &Tables,
    kept: FaceId,
    gone: &[FaceId],
    steps: &mut Steps<L>,
) -> Result<Writes, Memory>
    ensures writes { IfOk result (λ ws. ws ≡ last_writes tables.now.rows kept gone.now) }
    ensures counted { steps.new ≤ steps.old + sum_by point_steps tables.now.rows.edges }
{
    let mut writes = Writes::new(alloc);
    push_box(&mut writes, tables, kept, steps)?;
    push_drops(&mut writes, gone)?;
    Ok(writes)
}
