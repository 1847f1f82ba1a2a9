// Edges that are added.
ghost use Rattle.std.specs.Prelude.{◌≡◌, if◌then◌else◌, IfOk};
ghost use Rattle.drawing.specs.Edits.{add_edge};
ghost use Rattle.drawing.specs.Drawing.{node_at};
ghost use Rattle.drawing.specs.Tables.{drawn, tables_of};
ghost use Rattle.read_set.specs.Edited.{AnswersOutcome, IsTried};
ghost use Rattle.read_set.specs.Kept.{Keeps};
ghost use Rattle.read_set.specs.Ready.{IsReady};
ghost use Rattle.ring_laws.specs.Ringed.{IsRinged};
ghost use Rattle.subdivision_laws.specs.Subdivided.{IsSubdivided};
ghost use Rattle.topo_base.specs.declared.edit.Edit.{Edit};
ghost use Rattle.face_split.specs.Placing.{IsPlaced};
ghost use Rattle.face_split.specs.Closing.{with_edge_in};

use crate::adding::add_to_draft;
use crate::finishing::finish;
use crate::wedges::face_at_start;
use drawing_queries::{goes_between, is_line_blocked};
use grid_lines::is_simple;
use read_set::{EditEnd, Edited, Tried};
use std::alloc::Global;
use std::sync::ledger::Ledger;
use topo_base::{EdgeId, FaceId, Line, Memory, NodeId, NodeRow, Rule, Steps};
use topo_tables::Tables;

/// The draft of an edge that may come, in the face in which it lies.
fn with_edge<L: Ledger>(
    alloc: Global,
    tables: &Tables,
    start: &NodeRow,
    end: &NodeRow,
    line: &Line,
    face: FaceId,
    both: bool,
    steps: &mut Steps<L>,
) -> Result<Tried, Memory>
    requires ready { IsReady (drawn tables.now.rows) }
    requires ringed { IsRinged (drawn tables.now.rows) }
    requires stands { tables.now.rows ≡ tables_of (drawn tables.now.rows) }
    requires placed { IsPlaced (drawn tables.now.rows) start.now end.now line.now face }
    ensures { IfOk result (λ d. IsTried (drawn tables.now.rows) (with_edge_in both (drawn tables.now.rows) start.now end.now line.now face) d) }
{
    let _ = line.vertices();
    let edge = EdgeId(tables.counters().edge);
    let mut draft = add_to_draft(alloc, tables, start, end, line, face, steps)?;
    let ids = finish(alloc, &mut draft, edge, face, both, steps)?;
    Ok(Tried { draft, ids })
}

/// An edge comes between two nodes, and may divide its face, by the rules of ST_AddEdgeModFace, or of
/// ST_AddEdgeNewFaces where both parts are to be new: NoNode, LineEnds, LineNotSimple, LineBlocked.
pub fn add_edge<L: Ledger>(
    alloc: Global,
    tables: &Tables,
    start: NodeId,
    end: NodeId,
    line: &Line,
    both: bool,
    steps: &mut Steps<L>,
) -> Result<Edited, EditEnd>
    requires ready { IsReady (drawn tables.now.rows) }
    requires subdivided { IsSubdivided (drawn tables.now.rows) }
    requires stands { tables.now.rows ≡ tables_of (drawn tables.now.rows) }
    ensures answer { AnswersOutcome (drawn tables.now.rows)
        (add_edge both (drawn tables.now.rows) (node_at (drawn tables.now.rows) start) (node_at (drawn tables.now.rows) end) line.now) result }
    ensures kept { Keeps (drawn tables.now.rows) (if both then Edit.AddEdgeNewFaces start end line.now else Edit.AddEdgeModFace start end line.now) result }
{
    let Some(first) = tables.node(start, steps) else {
        return Err(EditEnd::Refused(Rule::NoNode));
    };
    let Some(last) = tables.node(end, steps) else {
        return Err(EditEnd::Refused(Rule::NoNode));
    };
    if !goes_between(first, last, line) {
        return Err(EditEnd::Refused(Rule::LineEnds));
    }
    if !is_simple(line, steps) {
        return Err(EditEnd::Refused(Rule::LineNotSimple));
    }
    let _ = line.vertices();
    if is_line_blocked(tables, line, steps) {
        return Err(EditEnd::Refused(Rule::LineBlocked));
    }
    let face = face_at_start(alloc, tables, first, line)?;
    let tried = with_edge(alloc, tables, first, last, line, face, both, steps)?;
    Ok(tried.into_edited())
}
