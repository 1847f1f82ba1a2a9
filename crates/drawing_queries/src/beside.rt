// The edges at a node and beside a face.
ghost use Rattle.std.specs.Prelude.{◌≡◌, filter, IfOk};
ghost use Rattle.drawing.specs.Drawing.{is_end_of};
ghost use Rattle.drawing.specs.Tables.{drawn_edge, has_side};

use crate::found::{Found, Sought, rows_where};
use crate::row_tests::{has_side, is_end_of};
use std::alloc::Global;
use topo_base::{EdgeRow, FaceId, Memory, NodeId};
use topo_tables::Tables;

/// Edges that have this node as an end.
#[derive(Drop)]
struct AtNode {
    node: NodeId,
}

impl Sought<EdgeRow> for AtNode {
    ghost is_sought = { λ s e. is_end_of s.node (drawn_edge e) };

    fn is_sought(&self, row: &EdgeRow) -> bool {
        is_end_of(self.node, row)
    }
}

/// Edges that have this face on a side.
#[derive(Drop)]
struct BesideFace {
    face: FaceId,
}

impl Sought<EdgeRow> for BesideFace {
    ghost is_sought = { λ s e. has_side s.face (drawn_edge e) };

    fn is_sought(&self, row: &EdgeRow) -> bool {
        has_side(self.face, row)
    }
}

/// The edges that begin or end at the node. A closed edge is among them once.
pub fn edges_at<'a>(
    alloc: Global,
    tables: &'a Tables,
    node: NodeId,
) -> Result<Found<'a, EdgeRow>, Memory>
    ensures { IfOk result (λ found. found ≡ filter (λ e. is_end_of node (drawn_edge e)) tables.now.rows.edges) }
{
    rows_where(alloc, tables.edges(), &AtNode { node })
}

/// The edges that have the face on a side. An edge with the face on both sides is among them once.
pub fn edges_beside<'a>(
    alloc: Global,
    tables: &'a Tables,
    face: FaceId,
) -> Result<Found<'a, EdgeRow>, Memory>
    ensures { IfOk result (λ found. found ≡ filter (λ e. has_side face (drawn_edge e)) tables.now.rows.edges) }
{
    rows_where(alloc, tables.edges(), &BesideFace { face })
}
