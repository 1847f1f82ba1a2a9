// The border of a face, and the ring on the left of an edge.
ghost use Rattle.std.specs.Prelude.{◌≡◌, map, IfOk};
ghost use Rattle.drawing.specs.Drawing.{Edge};
ghost use Rattle.drawing.specs.HalfEdge.{dart_of, forward_of, half_edges};
ghost use Rattle.drawing.specs.Ring.{ring_of as the_ring_of};
ghost use Rattle.drawing.specs.Tables.{drawn};
ghost use Rattle.face_rings.specs.FaceBorder.{face_border};
ghost use Rattle.face_split.specs.Linked.{HasEdgeBeside, IsEdgeBeside, IsLinked};

use drawing_queries::edges_beside;
use face_rings::{FaceContent, ring_of};
use std::alloc::Global;
use topo_base::{Dart, EdgeId, FaceId, Memory};
use topo_tables::Tables;

/// The border of a face, and the ring on the left of one of its edges, from the edge's forward dart on.
#[derive(Drop)]
pub struct EdgeRing {
    pub border: FaceContent,
    pub ring: Vec<Dart>,
}

/// The border of the face, and the ring on the left of this edge, which has the face there.
pub fn ring_at(
    alloc: Global,
    tables: &Tables,
    edge: EdgeId,
    face: FaceId,
) -> Result<EdgeRing, Memory>
    requires linked { IsLinked tables.now.rows }
    requires there { HasEdgeBeside (drawn tables.now.rows) edge face }
    ensures border { IfOk result (λ r. r.border ≡ face_border (half_edges (drawn tables.now.rows)) face) }
    ensures ring { (e : Edge) → IsEdgeBeside (drawn tables.now.rows) edge face e
        → IfOk result (λ r. r.ring.items ≡ map dart_of (the_ring_of (half_edges (drawn tables.now.rows)) (forward_of e))) }
{
    let edges = edges_beside(alloc, tables, face)?;
    let border = FaceContent::of_rows(alloc, edges.rows(), face)?;
    let forward = true;
    let ring = ring_of(alloc, &border, Dart { edge, forward })?;
    Ok(EdgeRing { border, ring })
}
