// A face that is divided by an edge that came.
ghost use Rattle.std.specs.Prelude.{◌≡◌, ◌∷◌, ◌++◌, ◌+◌, ◌<◌, ◌^◌, [], IfOk, OnOk, IsTrue};
ghost use Rattle.drawing.specs.AddEdge.{Division};
ghost use Rattle.drawing.specs.Drawing.{Drawing, Edge};
ghost use Rattle.drawing.specs.Tables.{drawn, face_box};
ghost use Rattle.drawing.specs.Writable.{has_face_row};
ghost use Rattle.face_boxes.specs.Bounds.{box_write};
ghost use Rattle.face_parts.specs.DividedFace.{IsDividedFace, with_division};
ghost use Rattle.face_rings.specs.Border.{are_linked};
ghost use Rattle.read_set.specs.Drafted.{IsDraftOf};
ghost use Rattle.face_split.specs.Divided.{IsDivisible, KnowsFeatures, both_boxes, followed_rows, with_new_face};

use face_boxes::box_of;
use face_parts::{Cut, FaceParts, divided_writes};
use face_rings::FaceContent;
use read_set::Draft;
use relation_rows::{follow_split, listing_of};
use std::alloc::Global;
use std::sync::ledger::Ledger;
use topo_base::{Element, FaceId, Memory, RowId, RowWrite, Steps};
use topo_tables::{Tables, Writes};

/// Adds a face, which has no box yet.
pub fn add_face<L: Ledger>(
    alloc: Global,
    draft: &mut Draft,
    steps: &mut Steps<L>,
) -> Result<FaceId, Memory>
    requires small { draft.old.rows.next_ids.face + 1 < 2 ^ 32 }
    ensures face { IfOk result (λ f. f ≡ draft.old.rows.next_ids.face) }
    ensures rows { OnOk result (draft.new.rows ≡ with_new_face draft.old.rows) }
    ensures drafted { (S : Drawing) → IsDraftOf S draft.old → OnOk result (IsDraftOf S draft.new) }
{
    let face = draft.tables().counters().face;
    let mbr = None;
    let one = RowWrite::AddFace {
        face: RowId::Old(face),
        mbr,
    };
    draft.write(alloc, one, steps)?;
    Ok(FaceId(face))
}

/// The sides and the nodes of the face come into its parts.
fn divide_rows<L: Ledger>(
    alloc: Global,
    draft: &mut Draft,
    border: &FaceContent,
    parts: &FaceParts,
    cut: &Cut,
    steps: &mut Steps<L>,
) -> Result<(), Memory>
    requires linked { IsTrue (are_linked border.now) }
    requires divisible { IsDivisible draft.old.rows parts.now cut.now border.now }
    ensures rows { (T : Drawing) (e : Edge) (d : Division) → IsDividedFace T e d parts.now cut.now draft.old.rows border.now
        → OnOk result (draft.new.rows ≡ with_division draft.old.rows T d) }
    ensures drafted { (S : Drawing) → IsDraftOf S draft.old → OnOk result (IsDraftOf S draft.new) }
{
    let writes = divided_writes(alloc, draft.tables(), border, parts, cut, steps)?;
    draft.write_all(alloc, writes, steps)
}

/// The features that listed the face list both of its parts.
fn follow_parts<L: Ledger>(
    alloc: Global,
    draft: &mut Draft,
    parts: &FaceParts,
    steps: &mut Steps<L>,
) -> Result<(), Memory>
    requires { KnowsFeatures draft.old.rows parts.now.face }
    ensures rows { OnOk result (draft.new.rows ≡ followed_rows draft.old.rows parts.now) }
    ensures drafted { (S : Drawing) → IsDraftOf S draft.old → OnOk result (IsDraftOf S draft.new) }
{
    let features = listing_of(alloc, draft.tables(), Element::Face(parts.face), steps)?;
    let both = [parts.left_part.0, parts.right_part.0];
    let writes = follow_split(alloc, &features, Element::Face(parts.face), &both)?;
    draft.write_all(alloc, writes, steps)
}

/// Puts the write of a face's box behind others; face 0 has none.
pub fn push_box<L: Ledger>(
    writes: &mut Writes,
    tables: &Tables,
    face: FaceId,
    steps: &mut Steps<L>,
) -> Result<(), Memory>
    ensures { OnOk result (writes.new ≡ writes.old ++ box_write face (face_box (drawn tables.now.rows) face)) }
{
    let mbr = box_of(tables, face, steps);
    if face.0 != 0 {
        writes.push(RowWrite::SetBox {
            face: RowId::Old(face.0),
            mbr,
        })?;
    }
    Ok(())
}

/// The writes of the boxes of two faces.
pub fn both_boxes<L: Ledger>(
    alloc: Global,
    tables: &Tables,
    left: FaceId,
    right: FaceId,
    steps: &mut Steps<L>,
) -> Result<Writes, Memory>
    ensures { IfOk result (λ ws. ws ≡ both_boxes tables.now.rows left right) }
{
    let mut writes = Writes::new(alloc);
    push_box(&mut writes, tables, left, steps)?;
    push_box(&mut writes, tables, right, steps)?;
    Ok(writes)
}

/// The sides, the nodes and the features of the face come into its parts, which are listed. Boxes are
/// still as they were.
pub fn divide<L: Ledger>(
    alloc: Global,
    draft: &mut Draft,
    border: &FaceContent,
    parts: &FaceParts,
    cut: &Cut,
    steps: &mut Steps<L>,
) -> Result<(), Memory>
    requires linked { IsTrue (are_linked border.now) }
    requires divisible { IsDivisible draft.old.rows parts.now cut.now border.now }
    ensures rows { (T : Drawing) (e : Edge) (d : Division) → IsDividedFace T e d parts.now cut.now draft.old.rows border.now
        → OnOk result (draft.new.rows ≡ followed_rows (with_division draft.old.rows T d) parts.now) }
    ensures drafted { (S : Drawing) → IsDraftOf S draft.old → OnOk result (IsDraftOf S draft.new) }
{
    divide_rows(alloc, draft, border, parts, cut, steps)?;
    follow_parts(alloc, draft, parts, steps)
}
