// The edits of isolated nodes.
ghost use Rattle.std.specs.Prelude.{◌≡◌, ◌+◌, ◌≤◌, Some, IfOk, IsTrue};
ghost use Rattle.std.specs.List.{list_all};
ghost use Rattle.topo_base.specs.declared.edit.Edit.{Edit};
ghost use Rattle.drawing.specs.Tables.{drawn};
ghost use Rattle.drawing.specs.PlainInOrder.{IsPlainInOrder};
ghost use Rattle.drawing.specs.Step.{step};
ghost use Rattle.read_set.specs.Edited.{AnswersOutcome};
ghost use Rattle.read_set.specs.Kept.{Keeps};
ghost use Rattle.read_set.specs.Ready.{IsReady};
ghost use Rattle.iso_edits.specs.Work.{most_steps};

use crate::writing::edited_by;
use drawing_queries::{
    accepts_face, face_at, is_blocked, is_blocked_for, is_given_face, is_in_feature, is_isolated,
    is_same_face,
};
use read_set::{EditEnd, Edited};
use std::alloc::Global;
use std::sync::ledger::Ledger;
use topo_base::{Element, FaceId, Grid, NodeId, RowId, RowWrite, Rule, Steps};
use topo_tables::Tables;

/// The type of nodes among the elements of a primitive layer.
const NODE_TYPE: u32 = 1;

/// The write of an isolated node in this face.
fn add_node(node: u32, face: FaceId, geom: Grid) -> RowWrite
    ensures { result ≡ RowWrite.AddNode (RowId.Old node) (Some (RowId.Old face)) geom }
{
    RowWrite::AddNode {
        node: RowId::Old(node),
        face: Some(RowId::Old(face.0)),
        geom,
    }
}

/// An isolated node comes in the face that its point is in, by the rules of ST_AddIsoNode: NoFace,
/// PointBlocked, NotInFace.
pub fn add_iso_node<L: Ledger>(
    alloc: Global,
    tables: &Tables,
    face: Option<FaceId>,
    geom: Grid,
    steps: &mut Steps<L>,
) -> Result<Edited, EditEnd>
    requires ready { IsReady (drawn tables.now.rows) }
    requires plain { IsPlainInOrder (drawn tables.now.rows) }
    ensures answer { AnswersOutcome (drawn tables.now.rows) (step (drawn tables.now.rows) (Edit.AddIsoNode face geom)) result }
    ensures kept { Keeps (drawn tables.now.rows) (Edit.AddIsoNode face geom) result }
    ensures counted { steps.new ≤ steps.old + most_steps tables.now.rows (Edit.AddIsoNode face geom) }
{
    if !accepts_face(tables, face) {
        return Err(EditEnd::Refused(Rule::NoFace));
    }
    if is_blocked(tables, geom, steps) {
        return Err(EditEnd::Refused(Rule::PointBlocked));
    }
    let within = face_at(tables, geom, steps);
    if !is_given_face(within, &face) {
        return Err(EditEnd::Refused(Rule::NotInFace));
    }
    let node = tables.counters().node;
    let one = add_node(node, within, geom);
    edited_by(alloc, one, Element::Node(NodeId(node)))
}

/// An isolated node moves within its face, by the rules of ST_MoveIsoNode: NoNode, NotIsolated,
/// PointBlocked, NotInFace.
pub fn move_iso_node<L: Ledger>(
    alloc: Global,
    tables: &Tables,
    node: NodeId,
    geom: Grid,
    steps: &mut Steps<L>,
) -> Result<Edited, EditEnd>
    requires ready { IsReady (drawn tables.now.rows) }
    requires plain { IsPlainInOrder (drawn tables.now.rows) }
    ensures answer { AnswersOutcome (drawn tables.now.rows) (step (drawn tables.now.rows) (Edit.MoveIsoNode node geom)) result }
    ensures kept { Keeps (drawn tables.now.rows) (Edit.MoveIsoNode node geom) result }
    ensures counted { steps.new ≤ steps.old + most_steps tables.now.rows (Edit.MoveIsoNode node geom) }
{
    let Some(row) = tables.node(node, steps) else {
        return Err(EditEnd::Refused(Rule::NoNode));
    };
    let (node, face) = (row.node_id, row.containing_face);
    if !is_isolated(tables, node, steps) {
        return Err(EditEnd::Refused(Rule::NotIsolated));
    }
    if is_blocked_for(tables, node, geom, steps) {
        return Err(EditEnd::Refused(Rule::PointBlocked));
    }
    let within = face_at(tables, geom, steps);
    if !is_same_face(face, Some(within)) {
        return Err(EditEnd::Refused(Rule::NotInFace));
    }
    let one = RowWrite::SetPoint {
        node: RowId::Old(node.0),
        geom,
    };
    edited_by(alloc, one, Element::Node(node))
}

/// An isolated node goes, by the rules of ST_RemoveIsoNode: NoNode, NotIsolated; and NodeInFeature,
/// which is our own.
pub fn remove_iso_node<L: Ledger>(
    alloc: Global,
    tables: &Tables,
    node: NodeId,
    steps: &mut Steps<L>,
) -> Result<Edited, EditEnd>
    ensures answer { AnswersOutcome (drawn tables.now.rows) (step (drawn tables.now.rows) (Edit.RemoveIsoNode node)) result }
    ensures kept { Keeps (drawn tables.now.rows) (Edit.RemoveIsoNode node) result }
    ensures counted { steps.new ≤ steps.old + most_steps tables.now.rows (Edit.RemoveIsoNode node) }
{
    let Some(row) = tables.node(node, steps) else {
        return Err(EditEnd::Refused(Rule::NoNode));
    };
    let node = row.node_id;
    if !is_isolated(tables, node, steps) {
        return Err(EditEnd::Refused(Rule::NotIsolated));
    }
    if is_in_feature(tables, NODE_TYPE, node.0, steps) {
        return Err(EditEnd::Refused(Rule::NodeInFeature));
    }
    let one = RowWrite::DropNode {
        node: RowId::Old(node.0),
    };
    edited_by(alloc, one, Element::Node(node))
}
