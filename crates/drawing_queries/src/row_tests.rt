// Tests of rows.
ghost use Rattle.std.specs.Prelude.{◌≡◌, ◌+◌, ◌*◌, ◌==◌, ◌&&◌, not, true, length};
ghost use Rattle.topo_base.specs.Point.{same_point};
ghost use Rattle.drawing.specs.Drawing.{is_end_of};
ghost use Rattle.plane.specs.Line.{on_line, is_inside_line, meets_at_own_ends};
ghost use Rattle.plane.specs.LinePoints.{has_proper_segments};
ghost use Rattle.drawing.specs.Tables.{drawn_edge, has_side};

use crate::scan::RowTest;
use grid_lines::{is_inside_line, is_same_point, meets_at_own_ends, on_line};
use std::sync::ledger::Ledger;
use topo_base::{EdgeId, EdgeRow, FaceId, Grid, Line, NodeId, NodeRow, Steps};

/// The node has this point.
#[derive(Drop)]
pub struct HasPoint {
    pub point: Grid,
}

impl RowTest<NodeRow> for HasPoint {
    ghost fits = { λ t n. true };

    ghost holds = { λ t n. same_point n.geom t.point };

    ghost most_steps = { λ t n. 1 };

    fn holds<L: Ledger>(&self, row: &NodeRow, steps: &mut Steps<L>) -> bool {
        steps.tick();
        is_same_point(&row.geom, &self.point)
    }
}

/// The node is another than this one, and has this point.
#[derive(Drop)]
pub struct OtherHasPoint {
    pub node: NodeId,
    pub point: Grid,
}

impl RowTest<NodeRow> for OtherHasPoint {
    ghost fits = { λ t n. true };

    ghost holds = { λ t n. not (n.node_id == t.node) && same_point n.geom t.point };

    ghost most_steps = { λ t n. 1 };

    fn holds<L: Ledger>(&self, row: &NodeRow, steps: &mut Steps<L>) -> bool {
        steps.tick();
        row.node_id.0 != self.node.0 && is_same_point(&row.geom, &self.point)
    }
}

/// The face is on a side of the edge.
pub fn has_side(face: FaceId, row: &EdgeRow) -> bool
    ensures { result ≡ has_side face (drawn_edge row.now) }
{
    row.left_face.0 == face.0 || row.right_face.0 == face.0
}

/// The node is an end of the edge.
pub fn is_end_of(node: NodeId, row: &EdgeRow) -> bool
    ensures { result ≡ is_end_of node (drawn_edge row.now) }
{
    row.start_node.0 == node.0 || row.end_node.0 == node.0
}

/// The edge has this node as an end.
#[derive(Drop)]
pub struct EndsAt {
    pub node: NodeId,
}

impl RowTest<EdgeRow> for EndsAt {
    ghost fits = { λ t e. true };

    ghost holds = { λ t e. is_end_of t.node (drawn_edge e) };

    ghost most_steps = { λ t e. 1 };

    fn holds<L: Ledger>(&self, row: &EdgeRow, steps: &mut Steps<L>) -> bool {
        steps.tick();
        is_end_of(self.node, row)
    }
}

/// The point lies on the edge.
#[derive(Drop)]
pub struct PassesThrough {
    pub point: Grid,
}

impl RowTest<EdgeRow> for PassesThrough {
    ghost fits = { λ t e. has_proper_segments e.geom };

    ghost holds = { λ t e. on_line t.point e.geom };

    ghost most_steps = { λ t e. 1 + length e.geom };

    fn holds<L: Ledger>(&self, row: &EdgeRow, steps: &mut Steps<L>) -> bool {
        steps.tick();
        on_line(self.point, &row.geom, steps)
    }
}

/// The edge has this node as an end, and is neither of two others.
#[derive(Drop)]
pub struct OtherEndsAt {
    pub node: NodeId,
    pub first: EdgeId,
    pub second: EdgeId,
}

impl RowTest<EdgeRow> for OtherEndsAt {
    ghost fits = { λ t e. true };

    ghost holds = { λ t e. is_end_of t.node (drawn_edge e) && not (e.edge_id == t.first) && not (e.edge_id == t.second) };

    ghost most_steps = { λ t e. 1 };

    fn holds<L: Ledger>(&self, row: &EdgeRow, steps: &mut Steps<L>) -> bool {
        steps.tick();
        is_end_of(self.node, row) && row.edge_id.0 != self.first.0 && row.edge_id.0 != self.second.0
    }
}

/// The node lies on the line, and at neither of its ends.
#[derive(Drop)]
pub struct LiesInside<'a> {
    pub line: &'a Line,
}

impl RowTest<NodeRow> for LiesInside<'_> {
    ghost fits = { λ t n. has_proper_segments t.line.now };

    ghost holds = { λ t n. is_inside_line n.geom t.line.now };

    ghost most_steps = { λ t n. 1 + length t.line.now };

    fn holds<L: Ledger>(&self, row: &NodeRow, steps: &mut Steps<L>) -> bool {
        steps.tick();
        is_inside_line(row.geom, self.line, steps)
    }
}

/// The edge has a point in common with the line that is neither of the line's ends.
#[derive(Drop)]
pub struct MeetsInside<'a> {
    pub line: &'a Line,
}

impl RowTest<EdgeRow> for MeetsInside<'_> {
    ghost fits = { λ t e. has_proper_segments t.line.now && has_proper_segments e.geom };

    ghost holds = { λ t e. not (meets_at_own_ends t.line.now e.geom) };

    ghost most_steps = { λ t e. 1 + length t.line.now * length e.geom };

    fn holds<L: Ledger>(&self, row: &EdgeRow, steps: &mut Steps<L>) -> bool {
        steps.tick();
        !meets_at_own_ends(self.line, &row.geom, steps)
    }
}
