// The faces on the two sides of a removed edge become one.
ghost use Rattle.std.specs.Prelude.{◌≡◌, ◌==◌, ◌∷◌, [], ◌+◌, ◌<◌, ◌^◌, true, false, IfOk, OnOk, Ok};
ghost use Rattle.drawing.specs.Drawing.{Drawing, Edge};
ghost use Rattle.drawing.specs.Apply.{apply};
ghost use Rattle.drawing.specs.Change.{EdgeGoes, FacesJoin, FacesJoinAnew};
ghost use Rattle.drawing.specs.Edits.{merged};
ghost use Rattle.drawing.specs.Outcome.{Accepted, the_face};
ghost use Rattle.drawing.specs.Tables.{tables_of};
ghost use Rattle.read_set.specs.Drafted.{IsDraftOf};
ghost use Rattle.face_merge.specs.Merging.{AreSides, HasRemoved, WasRemoved, with_new_face};

use crate::merge::merge;
use crate::removed::Removed;
use read_set::Draft;
use std::alloc::Global;
use std::sync::ledger::Ledger;
use topo_base::{FaceId, Memory, RowId, RowWrite, Steps};

/// Adds a face, which has no box yet.
fn add_face<L: Ledger>(
    alloc: Global,
    draft: &mut Draft,
    steps: &mut Steps<L>,
) -> Result<FaceId, Memory>
    requires small { draft.old.rows.next_ids.face + 1 < 2 ^ 32 }
    ensures face { IfOk result (λ f. f ≡ draft.old.rows.next_ids.face) }
    ensures rows { OnOk result (draft.new.rows ≡ with_new_face draft.old.rows) }
    ensures drafted { (S : Drawing) → IsDraftOf S draft.old → OnOk result (IsDraftOf S draft.new) }
{
    let face = draft.tables().counters().face;
    let mbr = None;
    let one = RowWrite::AddFace {
        face: RowId::Old(face),
        mbr,
    };
    draft.write(alloc, one, steps)?;
    Ok(FaceId(face))
}

/// Where one face is on both sides of the edge, it stays.
fn keep_alone<L: Ledger>(
    alloc: Global,
    draft: &mut Draft,
    edge: &Removed,
    steps: &mut Steps<L>,
) -> Result<FaceId, Memory>
    requires removed { HasRemoved draft.old.rows edge.now }
    requires same { edge.now.left_face ≡ edge.now.right_face }
    ensures face { IfOk result (λ f. f ≡ edge.now.left_face) }
    ensures rows { (S : Drawing) (e : Edge) → WasRemoved S e edge.now draft.old.rows → OnOk result (draft.new.rows ≡ tables_of (apply S (EdgeGoes e)).drawing) }
    ensures drafted { (S : Drawing) → IsDraftOf S draft.old → OnOk result (IsDraftOf S draft.new) }
{
    let gone = [];
    merge(alloc, draft, edge, &gone, edge.left_face, steps)?;
    Ok(edge.left_face)
}

/// One of two faces, which isn't face 0, becomes the other.
fn keep_one<L: Ledger>(
    alloc: Global,
    draft: &mut Draft,
    edge: &Removed,
    goes: FaceId,
    kept: FaceId,
    steps: &mut Steps<L>,
) -> Result<FaceId, Memory>
    requires removed { HasRemoved draft.old.rows edge.now }
    requires sides { AreSides edge.now goes kept }
    requires other { goes == kept ≡ false }
    requires some { goes == 0 ≡ false }
    ensures face { IfOk result (λ f. f ≡ kept) }
    ensures rows { (S : Drawing) (e : Edge) → WasRemoved S e edge.now draft.old.rows → OnOk result (draft.new.rows ≡ tables_of (apply S (FacesJoin e kept goes)).drawing) }
    ensures drafted { (S : Drawing) → IsDraftOf S draft.old → OnOk result (IsDraftOf S draft.new) }
{
    let gone = [goes];
    merge(alloc, draft, edge, &gone, kept, steps)?;
    Ok(kept)
}

/// Two faces, neither of which is face 0, become a new one.
fn keep_anew<L: Ledger>(
    alloc: Global,
    draft: &mut Draft,
    edge: &Removed,
    steps: &mut Steps<L>,
) -> Result<FaceId, Memory>
    requires removed { HasRemoved draft.old.rows edge.now }
    requires small { draft.old.rows.next_ids.face + 1 < 2 ^ 32 }
    requires other { edge.now.left_face == edge.now.right_face ≡ false }
    requires left { edge.now.left_face == 0 ≡ false }
    requires right { edge.now.right_face == 0 ≡ false }
    ensures face { IfOk result (λ f. f ≡ draft.old.rows.next_ids.face) }
    ensures rows { (S : Drawing) (e : Edge) → WasRemoved S e edge.now draft.old.rows → OnOk result (draft.new.rows ≡ tables_of (apply S (FacesJoinAnew e)).drawing) }
    ensures drafted { (S : Drawing) → IsDraftOf S draft.old → OnOk result (IsDraftOf S draft.new) }
{
    let new = add_face(alloc, draft, steps)?;
    let gone = [edge.left_face, edge.right_face];
    merge(alloc, draft, edge, &gone, new, steps)?;
    Ok(new)
}

/// The faces on the two sides of a removed edge become one, whose id is given: face 0 if it is one of
/// them, and else a new face, if one is wanted, as ST_RemEdgeNewFace does, or the right one, as
/// ST_RemEdgeModFace does. Sides, containing faces, features and boxes follow. The draft is without the
/// edge, and its links have followed.
pub fn merge_faces<L: Ledger>(
    alloc: Global,
    draft: &mut Draft,
    edge: &Removed,
    anew: bool,
    steps: &mut Steps<L>,
) -> Result<FaceId, Memory>
    requires removed { HasRemoved draft.old.rows edge.now }
    requires small { anew ≡ true → draft.old.rows.next_ids.face + 1 < 2 ^ 32 }
    ensures ids { (S : Drawing) (e : Edge) (done : Accepted) → WasRemoved S e edge.now draft.old.rows → merged anew S e ≡ Ok done → IfOk result (λ f. done.ids ≡ the_face f ∷ []) }
    ensures rows { (S : Drawing) (e : Edge) (done : Accepted) → WasRemoved S e edge.now draft.old.rows → merged anew S e ≡ Ok done → OnOk result (draft.new.rows ≡ tables_of done.drawing) }
    ensures drafted { (S : Drawing) → IsDraftOf S draft.old → OnOk result (IsDraftOf S draft.new) }
{
    let left = edge.left_face;
    let right = edge.right_face;
    if left.0 == right.0 {
        return keep_alone(alloc, draft, edge, steps);
    }
    if left.0 == 0 {
        return keep_one(alloc, draft, edge, right, left, steps);
    }
    if right.0 == 0 {
        return keep_one(alloc, draft, edge, left, right, steps);
    }
    if anew {
        return keep_anew(alloc, draft, edge, steps);
    }
    keep_one(alloc, draft, edge, left, right, steps)
}
