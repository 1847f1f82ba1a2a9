// The edits of isolated edges.
ghost use Rattle.std.specs.Prelude.{◌≡◌, ◌+◌, ◌≤◌, length, unwrap_or, IfOk, IsTrue};
ghost use Rattle.std.specs.List.{list_all, sum_by};
ghost use Rattle.topo_base.specs.declared.edit.Edit.{Edit};
ghost use Rattle.drawing.specs.Tables.{drawn, face_box};
ghost use Rattle.face_boxes.specs.Bounds.{box_with, without};
ghost use Rattle.drawing.specs.PlainInOrder.{IsPlainInOrder};
ghost use Rattle.drawing.specs.Step.{step};
ghost use Rattle.read_set.specs.Edited.{AnswersOutcome};
ghost use Rattle.read_set.specs.Kept.{Keeps};
ghost use Rattle.read_set.specs.Ready.{IsReady};
ghost use Rattle.drawing_queries.specs.Counted.{point_steps};
ghost use Rattle.iso_edits.specs.Work.{most_steps};

use crate::writing::{Bounded, coming_edge, going_edge};
use drawing_queries::{
    goes_between, is_in_feature, is_isolated, is_isolated_edge, is_line_blocked, is_same_face,
    is_same_node,
};
use face_boxes::{box_with_new, box_without};
use grid_lines::is_simple;
use read_set::{EditEnd, Edited};
use std::alloc::Global;
use std::sync::ledger::Ledger;
use topo_base::{EdgeId, FaceId, Line, NodeId, NodeRow, Rule, Steps};
use topo_tables::Tables;

/// The type of edges among the elements of a primitive layer.
const EDGE_TYPE: u32 = 2;

/// The node's containing face, or face 0 where it has none.
fn containing_face(node: &NodeRow) -> FaceId
    ensures { result ≡ unwrap_or node.now.containing_face 0 }
{
    match node.containing_face {
        None => FaceId(0),
        Some(face) => face,
    }
}

/// The face in which an edge of this line and this id is to come from the node, with its box then.
fn beside_new<L: Ledger>(
    tables: &Tables,
    node: &NodeRow,
    edge: EdgeId,
    line: &Line,
    steps: &mut Steps<L>,
) -> Bounded
    ensures face { result.face ≡ unwrap_or node.now.containing_face 0 }
    ensures bounds { result.bounds ≡ box_with line.now (without edge (drawn tables.now.rows)) (unwrap_or node.now.containing_face 0) }
    ensures counted { steps.new ≤ steps.old + sum_by point_steps tables.now.rows.edges + length line.now }
{
    let face = containing_face(node);
    Bounded {
        bounds: box_with_new(tables, face, edge, line, steps),
        face,
    }
}

/// The face with its box where the edge is gone.
fn beside_gone<L: Ledger>(
    tables: &Tables,
    face: FaceId,
    edge: EdgeId,
    steps: &mut Steps<L>,
) -> Bounded
    ensures face { result.face ≡ face }
    ensures bounds { result.bounds ≡ face_box (without edge (drawn tables.now.rows)) face }
    ensures counted { steps.new ≤ steps.old + sum_by point_steps tables.now.rows.edges }
{
    Bounded {
        bounds: box_without(tables, face, edge, steps),
        face,
    }
}

/// An edge comes between two isolated nodes of one face, which are isolated no more, by the rules of
/// ST_AddIsoEdge: NoNode, SameNode, NotIsolated, NotInFace, LineEnds, LineNotSimple, LineBlocked.
pub fn add_iso_edge<L: Ledger>(
    alloc: Global,
    tables: &Tables,
    start: NodeId,
    end: NodeId,
    line: &Line,
    steps: &mut Steps<L>,
) -> Result<Edited, EditEnd>
    requires ready { IsReady (drawn tables.now.rows) }
    requires plain { IsPlainInOrder (drawn tables.now.rows) }
    ensures answer { AnswersOutcome (drawn tables.now.rows) (step (drawn tables.now.rows) (Edit.AddIsoEdge start end line.now)) result }
    ensures kept { Keeps (drawn tables.now.rows) (Edit.AddIsoEdge start end line.now) result }
    ensures counted { steps.new ≤ steps.old + most_steps tables.now.rows (Edit.AddIsoEdge start end line.now) }
{
    let Some(first) = tables.node(start, steps) else {
        return Err(EditEnd::Refused(Rule::NoNode));
    };
    let Some(last) = tables.node(end, steps) else {
        return Err(EditEnd::Refused(Rule::NoNode));
    };
    if is_same_node(first.node_id, last.node_id) {
        return Err(EditEnd::Refused(Rule::SameNode));
    }
    if !is_isolated(tables, first.node_id, steps) {
        return Err(EditEnd::Refused(Rule::NotIsolated));
    }
    if !is_isolated(tables, last.node_id, steps) {
        return Err(EditEnd::Refused(Rule::NotIsolated));
    }
    if !is_same_face(first.containing_face, last.containing_face) {
        return Err(EditEnd::Refused(Rule::NotInFace));
    }
    if !goes_between(first, last, line) {
        return Err(EditEnd::Refused(Rule::LineEnds));
    }
    if !is_simple(line, steps) {
        return Err(EditEnd::Refused(Rule::LineNotSimple));
    }
    if is_line_blocked(tables, line, steps) {
        return Err(EditEnd::Refused(Rule::LineBlocked));
    }
    let edge = tables.counters().edge;
    let beside = beside_new(tables, first, EdgeId(edge), line, steps);
    coming_edge(alloc, edge, first.node_id, last.node_id, line, &beside)
}

/// An isolated edge goes, and leaves its nodes isolated in its face, by the rules of
/// ST_RemoveIsoEdge: NoEdge, NotIsolated; and EdgeInFeature, which is our own.
pub fn remove_iso_edge<L: Ledger>(
    alloc: Global,
    tables: &Tables,
    edge: EdgeId,
    steps: &mut Steps<L>,
) -> Result<Edited, EditEnd>
    requires ready { IsReady (drawn tables.now.rows) }
    requires plain { IsPlainInOrder (drawn tables.now.rows) }
    ensures answer { AnswersOutcome (drawn tables.now.rows) (step (drawn tables.now.rows) (Edit.RemoveIsoEdge edge)) result }
    ensures kept { Keeps (drawn tables.now.rows) (Edit.RemoveIsoEdge edge) result }
    ensures counted { steps.new ≤ steps.old + most_steps tables.now.rows (Edit.RemoveIsoEdge edge) }
{
    let Some(row) = tables.edge(edge, steps) else {
        return Err(EditEnd::Refused(Rule::NoEdge));
    };
    if !is_isolated_edge(tables, row, steps) {
        return Err(EditEnd::Refused(Rule::NotIsolated));
    }
    let edge = row.edge_id;
    if is_in_feature(tables, EDGE_TYPE, edge.0, steps) {
        return Err(EditEnd::Refused(Rule::EdgeInFeature));
    }
    let left = beside_gone(tables, row.left_face, edge, steps);
    let right = beside_gone(tables, row.right_face, edge, steps);
    going_edge(alloc, edge, row.start_node, row.end_node, &left, &right)
}
