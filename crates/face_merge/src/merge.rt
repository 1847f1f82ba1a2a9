// A face that is listed, and those that become it.
ghost use Rattle.std.specs.Prelude.{◌≡◌, ℕ, List, IsTrue, OnOk};
ghost use Rattle.topo_base.specs.declared.rows.Counters.{Counters as CountersValue};
ghost use Rattle.topo_base.specs.declared.rows.FaceRow.{FaceRow as FaceValue};
ghost use Rattle.drawing.specs.Drawing.{Drawing, Edge};
ghost use Rattle.drawing.specs.Tables.{tables_of};
ghost use Rattle.drawing.specs.Writable.{has_face_row};
ghost use Rattle.drawing.specs.Writes.{all_written};
ghost use Rattle.read_set.specs.Drafted.{IsDraftOf};
ghost use Rattle.face_merge.specs.Last.{last_writes};
ghost use Rattle.face_merge.specs.Merge.{HasMerge, IsMerge, MayGo, merged_in};
ghost use Rattle.face_merge.specs.MergedSides.{IsLess, with_renamed};
ghost use Rattle.face_merge.specs.Merging.{HasLess};

use crate::following::follow_all;
use crate::last::last_writes;
use crate::removed::Removed;
use crate::sides::renamed_writes;
use read_set::Draft;
use std::alloc::Global;
use std::sync::ledger::Ledger;
use topo_base::{FaceId, Memory, Steps};

/// Sides and containing faces follow where the faces become the one that is kept.
fn rename<L: Ledger>(
    alloc: Global,
    draft: &mut Draft,
    edge: &Removed,
    gone: &[FaceId],
    kept: FaceId,
    steps: &mut Steps<L>,
) -> Result<(), Memory>
    requires less { HasLess draft.old.rows edge.now }
    requires there { IsTrue (has_face_row draft.old.rows kept) }
    ensures rows { (S : Drawing) (e : Edge) → IsLess S e edge.now draft.old.rows → OnOk result (draft.new.rows ≡ with_renamed draft.old.rows S e gone.now kept) }
    ensures drafted { (S : Drawing) → IsDraftOf S draft.old → OnOk result (IsDraftOf S draft.new) }
{
    let writes = renamed_writes(alloc, draft.tables(), edge, gone, kept, steps)?;
    draft.write_all(alloc, writes, steps)
}

/// The face that is kept gets its box, and the others go.
fn close<L: Ledger>(
    alloc: Global,
    draft: &mut Draft,
    gone: &[FaceId],
    kept: FaceId,
    steps: &mut Steps<L>,
) -> Result<(), Memory>
    requires there { IsTrue (has_face_row draft.old.rows kept) }
    requires may_go { MayGo draft.old.rows.faces gone.now }
    ensures rows { OnOk result (draft.new.rows ≡ all_written draft.old.rows.next_ids draft.old.rows (last_writes draft.old.rows kept gone.now)) }
    ensures drafted { (S : Drawing) → IsDraftOf S draft.old → OnOk result (IsDraftOf S draft.new) }
{
    let writes = last_writes(alloc, draft.tables(), kept, gone, steps)?;
    draft.write_all(alloc, writes, steps)
}

/// Faces become one that is listed: sides, containing faces, features and boxes follow, and the faces
/// go.
pub fn merge<L: Ledger>(
    alloc: Global,
    draft: &mut Draft,
    edge: &Removed,
    gone: &[FaceId],
    kept: FaceId,
    steps: &mut Steps<L>,
) -> Result<(), Memory>
    requires { HasMerge draft.old.rows edge.now gone.now kept }
    ensures rows { (S : Drawing) (e : Edge) (row : ℕ → FaceValue) (fs : List ℕ) (ids : CountersValue) → IsMerge S e row fs ids edge.now gone.now kept draft.old.rows
        → OnOk result (draft.new.rows ≡ tables_of (merged_in S e gone.now kept fs ids)) }
    ensures drafted { (S : Drawing) → IsDraftOf S draft.old → OnOk result (IsDraftOf S draft.new) }
{
    rename(alloc, draft, edge, gone, kept, steps)?;
    follow_all(alloc, draft, gone, kept, steps)?;
    close(alloc, draft, gone, kept, steps)
}
