// The conditions of edits, on tables.
ghost use Rattle.std.specs.Prelude.{◌≡◌, ◌+◌, ◌*◌, ◌≤◌, ◌==◌, ◌&&◌, not, IsTrue, length};
ghost use Rattle.std.specs.Prelude.{nat_eq};
ghost use Rattle.std.specs.Option.{option_eq};
ghost use Rattle.std.specs.List.{list_all, list_any, sum_by};
ghost use Rattle.topo_base.specs.Point.{same_point};
ghost use Rattle.topo_base.specs.declared.rows.NodeRow.{NodeRow as NodeValue};
ghost use Rattle.drawing_queries.specs.Counted.{point_steps, line_steps, all_point_steps, all_line_steps};
ghost use Rattle.drawing.specs.Blocked.{is_blocked, is_blocked_for, is_line_blocked, is_on_edge, goes_between};
ghost use Rattle.drawing.specs.Drawing.{Edge, has_only, is_isolated};
ghost use Rattle.drawing.specs.IsoEdits.{accepts_face, is_given_face, is_in_feature, is_isolated_edge};
ghost use Rattle.plane.specs.Line.{is_inside_line, meets_at_own_ends};
ghost use Rattle.plane.specs.LinePoints.{has_proper_segments};
ghost use Rattle.drawing.specs.Plain.{IsPlain};
ghost use Rattle.drawing.specs.Relations.{lists_element};
ghost use Rattle.drawing.specs.Tables.{drawn, drawn_edge};

use crate::row_tests::{
    EndsAt, HasPoint, LiesInside, MeetsInside, OtherEndsAt, OtherHasPoint, PassesThrough,
};
use crate::scan::any_row;
use grid_lines::{first_of, is_same_point, last_of};
use relation_rows::lists_element;
use std::sync::ledger::Ledger;
use topo_base::{EdgeId, EdgeRow, FaceId, Grid, Line, NodeId, NodeRow, Steps};
use topo_tables::Tables;

/// Whether the face is there, where one is given.
pub fn accepts_face(tables: &Tables, face: Option<FaceId>) -> bool
    ensures { result ≡ accepts_face (drawn tables.now.rows) face }
{
    match face {
        None => true,
        Some(face) => tables.has_face(face),
    }
}

/// Whether the face is the one that is given, if any is.
pub fn is_given_face(face: FaceId, given: &Option<FaceId>) -> bool
    ensures { result ≡ is_given_face given.now face }
{
    match given {
        None => true,
        Some(given) => given.0 == face.0,
    }
}

/// Whether the node has no edge.
pub fn is_isolated<L: Ledger>(tables: &Tables, node: NodeId, steps: &mut Steps<L>) -> bool
    ensures test { result ≡ is_isolated (drawn tables.now.rows) node }
    ensures counted { steps.new ≤ steps.old + length tables.now.rows.edges }
{
    !any_row(tables.edges(), &EndsAt { node }, steps)
}

/// Whether the point lies on an edge.
pub fn is_on_edge<L: Ledger>(tables: &Tables, point: Grid, steps: &mut Steps<L>) -> bool
    requires { IsPlain (drawn tables.now.rows) }
    ensures test { result ≡ is_on_edge (drawn tables.now.rows) point }
    ensures counted { steps.new ≤ steps.old + sum_by point_steps tables.now.rows.edges }
{
    any_row(tables.edges(), &PassesThrough { point }, steps)
}

/// Whether the point is a node's.
fn is_at_node<L: Ledger>(tables: &Tables, point: Grid, steps: &mut Steps<L>) -> bool
    ensures test { result ≡ list_any (λ (n : NodeValue). same_point n.geom point) tables.now.rows.nodes }
    ensures counted { steps.new ≤ steps.old + length tables.now.rows.nodes }
{
    any_row(tables.nodes(), &HasPoint { point }, steps)
}

/// Whether the point is a node's other than this one's.
fn is_at_other<L: Ledger>(tables: &Tables, node: NodeId, point: Grid, steps: &mut Steps<L>) -> bool
    ensures test { result ≡ list_any (λ (n : NodeValue). not (n.node_id == node) && same_point n.geom point) tables.now.rows.nodes }
    ensures counted { steps.new ≤ steps.old + length tables.now.rows.nodes }
{
    any_row(tables.nodes(), &OtherHasPoint { node, point }, steps)
}

/// Whether a node or an edge stands in the way of a node at the point.
pub fn is_blocked<L: Ledger>(tables: &Tables, point: Grid, steps: &mut Steps<L>) -> bool
    requires { IsPlain (drawn tables.now.rows) }
    ensures test { result ≡ is_blocked (drawn tables.now.rows) point }
    ensures counted { steps.new ≤ steps.old + all_point_steps tables.now.rows }
{
    is_at_node(tables, point, steps) || is_on_edge(tables, point, steps)
}

/// The same for this node's own move.
pub fn is_blocked_for<L: Ledger>(
    tables: &Tables,
    node: NodeId,
    point: Grid,
    steps: &mut Steps<L>,
) -> bool
    requires { IsPlain (drawn tables.now.rows) }
    ensures test { result ≡ is_blocked_for (drawn tables.now.rows) node point }
    ensures counted { steps.new ≤ steps.old + all_point_steps tables.now.rows }
{
    is_at_other(tables, node, point, steps) || is_on_edge(tables, point, steps)
}

/// Whether two ids are of one node.
pub fn is_same_node(first: NodeId, second: NodeId) -> bool
    ensures { result ≡ nat_eq first second }
{
    first.0 == second.0
}

/// Whether two nodes have the same containing face, or none.
pub fn is_same_face(first: Option<FaceId>, second: Option<FaceId>) -> bool
    ensures { result ≡ option_eq nat_eq first second }
{
    match (first, second) {
        (None, None) => true,
        (Some(first), Some(second)) => first.0 == second.0,
        _ => false,
    }
}

/// Whether the line begins at the one node's point and ends at the other's.
pub fn goes_between(start: &NodeRow, end: &NodeRow, line: &Line) -> bool
    ensures { result ≡ goes_between start.now end.now line.now }
{
    is_same_point(&first_of(line), &start.geom) && is_same_point(&last_of(line), &end.geom)
}

/// Whether a node lies on the line, other than at its ends.
fn holds_node<L: Ledger>(tables: &Tables, line: &Line, steps: &mut Steps<L>) -> bool
    requires { IsTrue (has_proper_segments line.now) }
    ensures test { result ≡ list_any (λ (n : NodeValue). is_inside_line n.geom line.now) tables.now.rows.nodes }
    ensures counted { steps.new ≤ steps.old + (1 + length line.now) * length tables.now.rows.nodes }
{
    any_row(tables.nodes(), &LiesInside { line }, steps)
}

/// Whether an edge has a point in common with the line, other than the line's ends.
fn meets_edge<L: Ledger>(tables: &Tables, line: &Line, steps: &mut Steps<L>) -> bool
    requires plain { IsPlain (drawn tables.now.rows) }
    requires proper { IsTrue (has_proper_segments line.now) }
    ensures test { result ≡ not (list_all (λ (e : Edge). meets_at_own_ends line.now e.geom) (drawn tables.now.rows).edges) }
    ensures counted { steps.new ≤ steps.old + sum_by (line_steps line.now) tables.now.rows.edges }
{
    any_row(tables.edges(), &MeetsInside { line }, steps)
}

/// Whether a node or an edge stands in the way of the line, other than at its ends.
pub fn is_line_blocked<L: Ledger>(tables: &Tables, line: &Line, steps: &mut Steps<L>) -> bool
    requires plain { IsPlain (drawn tables.now.rows) }
    requires proper { IsTrue (has_proper_segments line.now) }
    ensures test { result ≡ is_line_blocked (drawn tables.now.rows) line.now }
    ensures counted { steps.new ≤ steps.old + all_line_steps line.now tables.now.rows }
{
    holds_node(tables, line, steps) || meets_edge(tables, line, steps)
}

/// Whether the node has no edge but these two.
pub fn has_only<L: Ledger>(
    tables: &Tables,
    node: NodeId,
    first: EdgeId,
    second: EdgeId,
    steps: &mut Steps<L>,
) -> bool
    ensures test { result ≡ has_only (drawn tables.now.rows) node first second }
    ensures counted { steps.new ≤ steps.old + length tables.now.rows.edges }
{
    let test = OtherEndsAt {
        node,
        first,
        second,
    };
    !any_row(tables.edges(), &test, steps)
}

/// Whether the edge's nodes differ and neither has another edge.
pub fn is_isolated_edge<L: Ledger>(tables: &Tables, edge: &EdgeRow, steps: &mut Steps<L>) -> bool
    ensures test { result ≡ is_isolated_edge (drawn tables.now.rows) (drawn_edge edge.now) }
    ensures counted { steps.new ≤ steps.old + 2 * length tables.now.rows.edges }
{
    edge.start_node.0 != edge.end_node.0
        && has_only(tables, edge.start_node, edge.edge_id, edge.edge_id, steps)
        && has_only(tables, edge.end_node, edge.edge_id, edge.edge_id, steps)
}

/// Whether a feature lists the element of this type.
pub fn is_in_feature<L: Ledger>(
    tables: &Tables,
    element_type: u32,
    id: u32,
    steps: &mut Steps<L>,
) -> bool
    ensures test { result ≡ is_in_feature (drawn tables.now.rows) element_type id }
    ensures counted { steps.new ≤ steps.old + 2 * length tables.now.rows.relations }
{
    for row in tables.relations() {
        if lists_element(tables, element_type, id, row, steps) {
            return true;
        }
    }
    false
}
