// The face above a point.
ghost use Rattle.std.specs.Prelude.{◌≡◌, [], Some, IfOk};
ghost use Rattle.slab_index.specs.Pieces.{AreTogether, pieces_of_all};
ghost use Rattle.validate_topology.specs.FaceAbove.{IsFaceAbove, face_left_of as left_face_of, left_side};

use crate::table::Rows;
use slab_index::SlabIndex;
use std::alloc::Global;
use std::sync::ledger::Ledger;
use topo_base::{Dart, EdgeRow, FaceId, Grid, Memory, Steps};

/// An index of the segments of some edges.
pub fn index_of(alloc: Global, edges: &[EdgeRow]) -> Result<SlabIndex, Memory>
    ensures { IfOk result (λ index. AreTogether index.kept (pieces_of_all edges.now) []) }
{
    let mut index = SlabIndex::empty(alloc);
    index.stage(&[], edges)?;
    index.settle();
    Ok(index)
}

/// The face on the left of a row's dart.
fn left_of(row: &EdgeRow, is_forward: bool) -> FaceId
    ensures { result ≡ left_side is_forward (Some row.now) }
{
    if is_forward {
        row.left_face
    } else {
        row.right_face
    }
}

/// The face on the left of a dart. 0 where its edge isn't listed.
fn face_left_of(edges: &Rows<EdgeRow>, dart: Dart) -> FaceId
    ensures { result ≡ left_face_of edges.now (Some dart) }
{
    match edges.get(dart.edge.0) {
        None => FaceId(0),
        Some(row) => left_of(row, dart.forward),
    }
}

/// The face on the lower side of the first segment straight above a point. 0 where no segment is above it.
pub fn face_above<L: Ledger>(
    edges: &Rows<EdgeRow>,
    index: &SlabIndex,
    point: Grid,
    steps: &mut Steps<L>,
) -> FaceId
    requires { AreTogether index.now.kept (pieces_of_all edges.now) [] }
    ensures { IsFaceAbove edges.now point result }
{
    match index.find_above(point, steps) {
        None => FaceId(0),
        Some(dart) => face_left_of(edges, dart),
    }
}
