// An edge that closes a ring, and the faces that come with it.
ghost use Rattle.std.specs.Prelude.{◌≡◌, ℕ, ◌+◌, ◌∷◌, [], ◌==◌, false, IfOk, List, OnOk};
ghost use Rattle.topo_base.specs.Point.{Point};
ghost use Rattle.topo_base.specs.declared.rows.NodeRow.{NodeRow as NodeValue};
ghost use Rattle.drawing.specs.Drawing.{Drawing};
ghost use Rattle.drawing.specs.Ring.{is_shell as is_ring_shell};
ghost use Rattle.drawing.specs.Tables.{tables_of};
ghost use Rattle.read_set.specs.Drafted.{IsDraftOf};
ghost use Rattle.face_split.specs.Closing.{HasCut, IsCut, WasAdded, in_one, in_two, left_ring, one_part, two_parts};

use crate::dividing::{add_face, both_boxes, divide};
use face_parts::{Cut, FaceParts};
use face_rings::FaceContent;
use read_set::Draft;
use std::alloc::Global;
use std::sync::ledger::Ledger;
use topo_base::{EdgeId, FaceId, Memory, RowId, RowWrite, Steps};

/// The parts of a face where one of them is new: the left one, but where the universal face is left
/// outside on the left.
fn one_part(face: FaceId, edge: EdgeId, new: FaceId, shell: bool) -> FaceParts
    ensures { result ≡ one_part face edge new shell }
{
    let keeps_left = face.0 == 0 && !shell;
    FaceParts {
        face,
        edge,
        left_part: if keeps_left { face } else { new },
        right_part: if keeps_left { new } else { face },
    }
}

/// Divides the face into itself and a new face, whose id it gives.
pub fn divide_in_one<L: Ledger>(
    alloc: Global,
    draft: &mut Draft,
    edge: EdgeId,
    face: FaceId,
    border: &FaceContent,
    cut: &Cut,
    shell: bool,
    steps: &mut Steps<L>,
) -> Result<FaceId, Memory>
    requires { HasCut draft.old.rows edge face border.now cut.now }
    ensures face { IfOk result (λ new. new ≡ draft.old.rows.next_ids.face) }
    ensures rows { (S : Drawing) (a b : NodeValue) (line : List Point) → WasAdded S a b line face draft.old.rows → edge ≡ S.next_ids.edge
        → IsCut S a b line face border.now cut.now → shell ≡ is_ring_shell (left_ring S a b line face)
        → OnOk result (draft.new.rows ≡ tables_of (in_one S a b line face)) }
    ensures drafted { (S : Drawing) → IsDraftOf S draft.old → OnOk result (IsDraftOf S draft.new) }
{
    let new = add_face(alloc, draft, steps)?;
    let parts = one_part(face, edge, new, shell);
    divide(alloc, draft, border, &parts, cut, steps)?;
    let boxes = both_boxes(
        alloc,
        draft.tables(),
        parts.left_part,
        parts.right_part,
        steps,
    )?;
    draft.write_all(alloc, boxes, steps)?;
    Ok(new)
}

/// Divides the face, which isn't face 0, into two new faces, and gives the id of the left one. That of
/// the right one is the next.
pub fn divide_in_two<L: Ledger>(
    alloc: Global,
    draft: &mut Draft,
    edge: EdgeId,
    face: FaceId,
    border: &FaceContent,
    cut: &Cut,
    steps: &mut Steps<L>,
) -> Result<FaceId, Memory>
    requires cut { HasCut draft.old.rows edge face border.now cut.now }
    requires some { face == 0 ≡ false }
    ensures face { IfOk result (λ new. new ≡ draft.old.rows.next_ids.face) }
    ensures rows { (S : Drawing) (a b : NodeValue) (line : List Point) → WasAdded S a b line face draft.old.rows → edge ≡ S.next_ids.edge
        → IsCut S a b line face border.now cut.now
        → OnOk result (draft.new.rows ≡ tables_of (in_two S a b line face)) }
    ensures drafted { (S : Drawing) → IsDraftOf S draft.old → OnOk result (IsDraftOf S draft.new) }
{
    let left_part = add_face(alloc, draft, steps)?;
    let right_part = add_face(alloc, draft, steps)?;
    let parts = FaceParts {
        face,
        edge,
        left_part,
        right_part,
    };
    divide(alloc, draft, border, &parts, cut, steps)?;
    let mut last = both_boxes(alloc, draft.tables(), left_part, right_part, steps)?;
    last.push(RowWrite::DropFace {
        face: RowId::Old(face.0),
    })?;
    draft.write_all(alloc, last, steps)?;
    Ok(left_part)
}
