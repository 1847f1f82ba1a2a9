// A removed edge, and its end nodes that have no edge any more.
ghost use Rattle.std.specs.Prelude.{◌≡◌, ◌+◌, ◌*◌, ◌≤◌, length};
ghost use Rattle.drawing.specs.Tables.{drawn, drawn_edge};
ghost use Rattle.face_merge.specs.Sides.{freed_if, freed_in, is_freed, is_given, removed_of};

use drawing_queries::is_isolated;
use std::sync::ledger::Ledger;
use topo_base::{EdgeRow, FaceId, NodeId, Steps};
use topo_tables::Tables;

/// The ends and the sides of an edge that was removed.
#[derive(Clone, Copy, Debug, PartialEq, Eq)]
pub struct Removed {
    pub start_node: NodeId,
    pub end_node: NodeId,
    pub left_face: FaceId,
    pub right_face: FaceId,
}

impl Removed {
    /// Those of the edge of this row.
    pub fn of(row: &EdgeRow) -> Removed
        ensures { result ≡ removed_of (drawn_edge row.now) }
    {
        Removed {
            start_node: row.start_node,
            end_node: row.end_node,
            left_face: row.left_face,
            right_face: row.right_face,
        }
    }
}

/// Those of the edge's ends that have no edge any more.
#[derive(Clone, Copy, Debug, PartialEq, Eq)]
pub struct Freed {
    pub start: Option<NodeId>,
    pub end: Option<NodeId>,
}

/// The node, if it has no edge.
fn freed_if(isolated: bool, node: NodeId) -> Option<NodeId>
    ensures { result ≡ freed_if isolated node }
{
    if isolated { Some(node) } else { None }
}

/// Which of the removed edge's ends have no edge. Takes at most two steps an edge.
pub fn freed_ends<L: Ledger>(tables: &Tables, edge: &Removed, steps: &mut Steps<L>) -> Freed
    ensures freed { result ≡ freed_in (drawn tables.now.rows) edge.now }
    ensures counted { steps.new ≤ steps.old + 2 * length tables.now.rows.edges }
{
    let at_start = is_isolated(tables, edge.start_node, steps);
    let at_end = is_isolated(tables, edge.end_node, steps);
    Freed {
        start: freed_if(at_start, edge.start_node),
        end: freed_if(at_end, edge.end_node),
    }
}

/// Whether the node is the one that is given, if any is.
fn is_given(given: Option<NodeId>, node: NodeId) -> bool
    ensures { result ≡ is_given given node }
{
    match given {
        None => false,
        Some(given) => given.0 == node.0,
    }
}

/// Whether the node is one of these.
pub fn is_freed(freed: &Freed, node: NodeId) -> bool
    ensures { result ≡ is_freed freed.now node }
{
    is_given(freed.start, node) || is_given(freed.end, node)
}
