// Features follow faces that become one.
ghost use Rattle.std.specs.Prelude.{◌≡◌, ◌∷◌, [], OnOk};
ghost use Rattle.drawing.specs.Drawing.{Drawing};
ghost use Rattle.read_set.specs.Drafted.{IsDraftOf};
ghost use Rattle.relation_rows.specs.KnownRows.{KnowsRows};
ghost use Rattle.face_merge.specs.Merging.{one_by_one, with_relations};

use read_set::Draft;
use relation_rows::{follow_merge, listing_of};
use std::alloc::Global;
use std::sync::ledger::Ledger;
use topo_base::{Element, FaceId, Memory, Steps};

/// The features that listed the face list the one that is kept.
fn follow_one<L: Ledger>(
    alloc: Global,
    draft: &mut Draft,
    face: FaceId,
    kept: FaceId,
    steps: &mut Steps<L>,
) -> Result<(), Memory>
    requires { KnowsRows draft.old.rows }
    ensures rows { OnOk result (draft.new.rows ≡ with_relations draft.old.rows (face ∷ []) kept) }
    ensures knows { OnOk result (KnowsRows draft.new.rows) }
    ensures drafted { (S : Drawing) → IsDraftOf S draft.old → OnOk result (IsDraftOf S draft.new) }
{
    let features = listing_of(alloc, draft.tables(), Element::Face(face), steps)?;
    let writes = follow_merge(alloc, &features, Element::Face(face), kept.0)?;
    draft.write_all(alloc, writes, steps)
}

/// The features that listed one of the faces list the one that is kept, face by face.
fn follow_each<L: Ledger>(
    alloc: Global,
    draft: &mut Draft,
    gone: &[FaceId],
    kept: FaceId,
    steps: &mut Steps<L>,
) -> Result<(), Memory>
    requires { KnowsRows draft.old.rows }
    ensures rows { OnOk result (draft.new.rows ≡ one_by_one draft.old.rows gone.now kept) }
    ensures drafted { (S : Drawing) → IsDraftOf S draft.old → OnOk result (IsDraftOf S draft.new) }
{
    for face in gone {
        follow_one(alloc, draft, *face, kept, steps)?;
    }
    Ok(())
}

/// The features that listed one of the faces list the one that is kept, once each.
pub fn follow_all<L: Ledger>(
    alloc: Global,
    draft: &mut Draft,
    gone: &[FaceId],
    kept: FaceId,
    steps: &mut Steps<L>,
) -> Result<(), Memory>
    requires { KnowsRows draft.old.rows }
    ensures rows { OnOk result (draft.new.rows ≡ with_relations draft.old.rows gone.now kept) }
    ensures drafted { (S : Drawing) → IsDraftOf S draft.old → OnOk result (IsDraftOf S draft.new) }
{
    follow_each(alloc, draft, gone, kept, steps)
}
