// Removed edges, by their rules.
ghost use Rattle.std.specs.Prelude.{◌≡◌, ◌==◌, ◌&&◌, not, Contains, IfOk, if◌then◌else◌};
ghost use Rattle.topo_base.specs.declared.edit.Edit.{Edit};
ghost use Rattle.drawing.specs.Drawing.{edge_at};
ghost use Rattle.drawing.specs.Edits.{merged, remove_edge};
ghost use Rattle.drawing.specs.IsoEdits.{is_in_feature as is_element_in_feature};
ghost use Rattle.drawing.specs.PlainInOrder.{IsPlainInOrder};
ghost use Rattle.drawing.specs.Relations.{edge_type, face_type};
ghost use Rattle.drawing.specs.RemoveEdge.{have_same_features};
ghost use Rattle.drawing.specs.Tables.{drawn, drawn_edge, tables_of};
ghost use Rattle.read_set.specs.Edited.{AnswersOutcome};
ghost use Rattle.read_set.specs.Kept.{Keeps};
ghost use Rattle.read_set.specs.Plans.{AreWritesOf};
ghost use Rattle.read_set.specs.Ready.{IsReady};

use crate::merging::merge_faces;
use crate::removed::Removed;
use crate::removing::drop_from_draft;
use drawing_queries::is_in_feature;
use read_set::{EditEnd, Edited, Tried, one_id};
use relation_rows::have_same_features;
use std::alloc::Global;
use std::sync::ledger::Ledger;
use topo_base::{EdgeId, EdgeRow, Element, Memory, Rule, Steps};
use topo_tables::Tables;

/// The types of edges and of faces among the elements of a primitive layer.
const EDGE_TYPE: u32 = 2;

const FACE_TYPE: u32 = 3;

/// The edge goes, and the faces on its sides become one: it is known that no rule refuses it.
fn without_edge<L: Ledger>(
    alloc: Global,
    tables: &Tables,
    edge: &EdgeRow,
    anew: bool,
    steps: &mut Steps<L>,
) -> Result<Edited, Memory>
    requires ready { IsReady (drawn tables.now.rows) }
    requires plain { IsPlainInOrder (drawn tables.now.rows) }
    requires stands { tables.now.rows ≡ tables_of (drawn tables.now.rows) }
    requires there { Contains tables.now.rows.edges edge.now }
    ensures { IfOk result (λ d. AreWritesOf (drawn tables.now.rows) (merged anew (drawn tables.now.rows) (drawn_edge edge.now)) d.writes d.ids) }
{
    let mut draft = drop_from_draft(alloc, tables, edge, steps)?;
    let face = merge_faces(alloc, &mut draft, &Removed::of(edge), anew, steps)?;
    let ids = one_id(Element::Face(face));
    let tried = Tried { draft, ids };
    Ok(tried.into_edited())
}

/// Whether a feature lists the edge.
fn is_listed<L: Ledger>(tables: &Tables, edge: &EdgeRow, steps: &mut Steps<L>) -> bool
    ensures { result ≡ is_element_in_feature (drawn tables.now.rows) edge_type edge.now.edge_id }
{
    let id = edge.edge_id;
    is_in_feature(tables, EDGE_TYPE, id.0, steps)
}

/// Whether the faces beside an edge differ, and so do the features that list them.
fn is_border_of_features<L: Ledger>(tables: &Tables, edge: &EdgeRow, steps: &mut Steps<L>) -> bool
    ensures { result ≡ (not (edge.now.left_face == edge.now.right_face) && not (have_same_features (drawn tables.now.rows) face_type edge.now.left_face edge.now.right_face)) }
{
    edge.left_face.0 != edge.right_face.0
        && !have_same_features(
            tables,
            FACE_TYPE,
            edge.left_face.0,
            edge.right_face.0,
            steps,
        )
}

/// An edge goes, and the faces on its sides become one: the row writes and the face that the reply names,
/// or the first rule that refuses the edit, of NoEdge, EdgeInFeature and FaceInFeature. So does
/// ST_RemEdgeModFace, and ST_RemEdgeNewFace where the face is to be new. Nothing is changed.
pub fn remove_edge<L: Ledger>(
    alloc: Global,
    tables: &Tables,
    edge: EdgeId,
    anew: bool,
    steps: &mut Steps<L>,
) -> Result<Edited, EditEnd>
    requires ready { IsReady (drawn tables.now.rows) }
    requires plain { IsPlainInOrder (drawn tables.now.rows) }
    requires stands { tables.now.rows ≡ tables_of (drawn tables.now.rows) }
    ensures answer { AnswersOutcome (drawn tables.now.rows) (remove_edge anew (drawn tables.now.rows) (edge_at (drawn tables.now.rows) edge)) result }
    ensures kept { Keeps (drawn tables.now.rows) (if anew then Edit.RemEdgeNewFace edge else Edit.RemEdgeModFace edge) result }
{
    let Some(row) = tables.edge(edge, steps) else {
        return Err(EditEnd::Refused(Rule::NoEdge));
    };
    if is_listed(tables, row, steps) {
        return Err(EditEnd::Refused(Rule::EdgeInFeature));
    }
    if is_border_of_features(tables, row, steps) {
        return Err(EditEnd::Refused(Rule::FaceInFeature));
    }
    match without_edge(alloc, tables, row, anew, steps) {
        Ok(edited) => Ok(edited),
        Err(Memory) => Err(EditEnd::Memory),
    }
}
