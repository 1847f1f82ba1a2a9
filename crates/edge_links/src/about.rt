ghost use Rattle.std.specs.Prelude.{◌≡◌, ℕ, reverse, map, flat_map, All, IfOk, OnOk, IsTrue};
ghost use Rattle.std.specs.List.{list_all};
ghost use Rattle.std.specs.Borrow.{Bor};
ghost use Rattle.topo_base.specs.declared.rows.EdgeRow.{EdgeRow as EdgeValue};
ghost use Rattle.topo_base.specs.declared.rows.NodeRow.{NodeRow as NodeValue};
ghost use Rattle.plane.specs.Direction.{first_direction, IsNotZero};
ghost use Rattle.drawing.specs.Drawing.{Drawing};
ghost use Rattle.drawing.specs.HalfEdge.{both_ways};
ghost use Rattle.drawing.specs.IsoEdits.{with_edge};
ghost use Rattle.plane.specs.LinePoints.{has_proper_segments};
ghost use Rattle.drawing.specs.PlainInOrder.{IsPlainInOrder};
ghost use Rattle.drawing.specs.Star.{star};
ghost use Rattle.drawing.specs.Tables.{drawn, drawn_edge};
ghost use Rattle.plane.specs.Wedge.{in_clockwise_order};
ghost use Rattle.edge_links.specs.LinksLaw.{HasDirections, IsComing, rays_at};
ghost use Rattle.edge_links.specs.Rays.{edge_between, has_proper_line, rays_of, with_both};

use crate::star::Star;
use drawing_queries::edges_at;
use grid_angle::Dir;
use std::alloc::Global;
use topo_base::{Dart, EdgeId, EdgeRow, Line, Memory, NodeId};
use topo_tables::Tables;

/// The direction in which a line leaves its first vertex.
pub fn direction_at_start(line: &Line) -> Dir
    requires { IsTrue (has_proper_segments line.now) }
    ensures { result ≡ first_direction line.now }
{
    let vertices = line.vertices();
    match Dir::between(vertices[0], vertices[1]) {
        Some(dir) => dir,
        None => unreachable!(),
    }
}

/// The direction in which a line, walked back, leaves its last vertex.
pub fn direction_at_end(line: &Line) -> Dir
    requires { IsTrue (has_proper_segments line.now) }
    ensures { result ≡ first_direction (reverse line.now) }
{
    let vertices = line.vertices();
    let last = vertices.len() - 1;
    match Dir::between(vertices[last], vertices[last - 1]) {
        Some(dir) => dir,
        None => unreachable!(),
    }
}

/// Puts the darts of an edge that leave the node into a star.
fn insert_both(
    star: &mut Star,
    node: NodeId,
    edge: EdgeId,
    start: NodeId,
    end: NodeId,
    line: &Line,
) -> Result<(), Memory>
    requires { IsTrue (has_proper_segments line.now) }
    ensures { OnOk result (star.new ≡ with_both node (edge_between edge start end line.now) star.old) }
{
    if end.0 == node.0 {
        let forward = false;
        star.insert(Dart { edge, forward }, direction_at_end(line))?;
    }
    if start.0 == node.0 {
        let forward = true;
        star.insert(Dart { edge, forward }, direction_at_start(line))?;
    }
    Ok(())
}

/// Puts the darts of an edge that leave the node into the node's star, also where the edge is still to
/// come: then the star is that of the drawing with the edge, if this is plain. A closed edge has two
/// darts at its node. Where memory runs out, some of the darts may be in the star.
pub fn insert_edge(
    star: &mut Star,
    node: NodeId,
    edge: EdgeId,
    start: NodeId,
    end: NodeId,
    line: &Line,
) -> Result<(), Memory>
    requires { IsTrue (has_proper_segments line.now) }
    ensures rays { OnOk result (star.new ≡ with_both node (edge_between edge start end line.now) star.old) }
    ensures star { (S : Drawing) (a b : NodeValue) (f : ℕ) → IsComing S a b line.now f edge start end → star.old ≡ rays_at S node
        → OnOk result (star.new ≡ rays_at (with_edge S a b line.now f) node) }
{
    let _ = star.dirs();
    let _ = line.vertices();
    insert_both(star, node, edge, start, end, line)
}

/// Puts the darts of an edge that leave the node into the node's star.
fn insert_row(star: &mut Star, node: NodeId, row: &EdgeRow) -> Result<(), Memory>
    requires { IsTrue (has_proper_line row.now) }
    ensures { OnOk result (star.new ≡ with_both node (drawn_edge row.now) star.old) }
{
    insert_both(
        star,
        node,
        row.edge_id,
        row.start_node,
        row.end_node,
        &row.geom,
    )
}

/// The star of a node among these edges.
pub(crate) fn star_among(alloc: Global, rows: &[&EdgeRow], node: NodeId) -> Result<Star, Memory>
    requires { IsTrue (list_all has_proper_line (map (λ (r : Bor EdgeValue). r.now) rows.now)) }
    ensures star { IfOk result (λ s. s ≡ rays_of (star (flat_map both_ways (map drawn_edge (map (λ (r : Bor EdgeValue). r.now) rows.now))) node)) }
    ensures some { IfOk result (λ s. All IsNotZero s.dirs) }
{
    let mut star = Star::new(alloc);
    let mut left = rows.len();
    while left > 0 {
        left -= 1;
        insert_row(&mut star, node, rows[left])?;
    }
    let _ = star.dirs();
    Ok(star)
}

/// The star of a node: the darts that leave it, in clockwise order from straight up.
pub fn star_about(alloc: Global, tables: &Tables, node: NodeId) -> Result<Star, Memory>
    requires { IsPlainInOrder (drawn tables.now.rows) }
    ensures star { IfOk result (λ s. s ≡ rays_at (drawn tables.now.rows) node) }
    ensures some { IfOk result (λ s. HasDirections (drawn tables.now.rows) node) }
    ensures order { IfOk result (λ s. IsTrue (in_clockwise_order s.dirs)) }
{
    let edges = edges_at(alloc, tables, node)?;
    star_among(alloc, edges.rows(), node)
}
