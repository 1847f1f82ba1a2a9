// The darts of the edges: edge after edge, forward before backward.
ghost use Rattle.std.specs.Prelude.{◌≡◌, ◌+◌, ◌*◌, ◌≤◌, ◌++◌, length, map, reverse, IfOk, OnOk, vec_len};
ghost use Rattle.plane.specs.Direction.{direction_to, first_direction};
ghost use Rattle.drawing.specs.HalfEdge.{both_ways, dart_of as dart_of_half};
ghost use Rattle.drawing.specs.Star.{leaving as leaving_of};
ghost use Rattle.drawing.specs.Tables.{drawn_edge};
ghost use Rattle.validate_topology.specs.Following.{half_edge, half_edges_of, some_direction};

use grid_angle::Dir;
use std::alloc::Global;
use topo_base::{Dart, EdgeRow, FaceId, Grid, Line, Memory, NodeId};

/// An edge as it is walked: forward is from its start to its end.
#[derive(Clone, Copy)]
pub struct Side<'a> {
    pub row: &'a EdgeRow,
    pub is_forward: bool,
}

/// The direction from one point to another. Straight up where they are one point.
fn direction(from: Grid, to: Grid) -> Dir
    ensures { result ≡ some_direction (direction_to from to) }
{
    match Dir::between(from, to) {
        Some(dir) => {
            let _ = dir.dx();
            dir
        }
        None => Dir::up(),
    }
}

/// The direction in which a line leaves its first vertex.
fn direction_at_start(line: &Line) -> Dir
    ensures direction { result ≡ some_direction (first_direction line.now) }
    ensures long { 2 ≤ length line.now }
{
    let vertices = line.vertices();
    direction(vertices[0], vertices[1])
}

/// The direction in which a line, walked back, leaves its last vertex.
fn direction_at_end(line: &Line) -> Dir
    ensures direction { result ≡ some_direction (first_direction (reverse line.now)) }
    ensures long { 2 ≤ length line.now }
{
    let vertices = line.vertices();
    let last = vertices.len() - 1;
    direction(vertices[last], vertices[last - 1])
}

pub fn dart_of(side: &Side<'_>) -> Dart
    ensures { result ≡ dart_of_half (half_edge side.now) }
{
    Dart {
        edge: side.row.edge_id,
        forward: side.is_forward,
    }
}

/// The face on the left of a dart.
pub fn left_of(side: &Side<'_>) -> FaceId
    ensures { result ≡ (half_edge side.now).on_left }
{
    if side.is_forward {
        side.row.left_face
    } else {
        side.row.right_face
    }
}

/// The node that a dart leaves.
pub fn node_of(side: &Side<'_>) -> NodeId
    ensures { result ≡ (half_edge side.now).from_node }
{
    if side.is_forward {
        side.row.start_node
    } else {
        side.row.end_node
    }
}

/// The direction in which a dart leaves its node.
pub fn leaving(side: &Side<'_>) -> Dir
    ensures direction { result ≡ some_direction (leaving_of (half_edge side.now)) }
    ensures long { 2 ≤ length ((half_edge side.now).points) }
{
    if side.is_forward {
        direction_at_start(&side.row.geom)
    } else {
        direction_at_end(&side.row.geom)
    }
}

fn push_both<'a>(sides: &mut Vec<Side<'a>>, row: &'a EdgeRow) -> Result<(), Memory>
    ensures len { OnOk result (vec_len sides.new ≡ vec_len sides.old + 2) }
    ensures halves { OnOk result (map half_edge sides.new.items ≡ map half_edge sides.old.items ++ both_ways (drawn_edge row.now)) }
{
    sides.push(Side {
        row,
        is_forward: true,
    })?;
    sides.push(Side {
        row,
        is_forward: false,
    })?;
    Ok(())
}

/// All darts.
pub fn sides_of(alloc: Global, edges: &[EdgeRow]) -> Result<Vec<Side<'_>>, Memory>
    ensures len { IfOk result (λ v. vec_len v ≡ 2 * length edges.now) }
    ensures halves { IfOk result (λ v. map half_edge v.items ≡ half_edges_of edges.now) }
{
    let mut sides = Vec::new(alloc);
    for row in edges {
        push_both(&mut sides, row)?;
    }
    Ok(sides)
}
