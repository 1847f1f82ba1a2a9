// What lies in another face than the tables say, and boxes.
ghost use Rattle.std.specs.Prelude.{◌≡◌, ◌<◌, ◌∷◌, [], ◌++◌, ◌||◌, ◌==◌, ℕ, true, false, not, List, All, flat_map, length, map, reverse, if◌then◌else◌, Option, Some, None, IfOk, OnOk, vec_len};
ghost use Rattle.std.specs.Int.{int_max, int_min};
ghost use Rattle.topo_base.specs.Darts.{same_way};
ghost use Rattle.topo_base.specs.Point.{Point};
ghost use Rattle.topo_base.specs.declared.rows.Box4.{Box4 as BoxValue};
ghost use Rattle.topo_base.specs.declared.rows.FaceRow.{FaceRow as FaceValue};
ghost use Rattle.drawing.specs.Ring.{is_hole};
ghost use Rattle.drawing.specs.Tables.{box_at, drawn_edge, has_side, universal_face, wider as wider_box};
ghost use Rattle.slab_index.specs.Pieces.{AreTogether, pieces_of_all};
ghost use Rattle.validate_topology.specs.declared.lines.ReportLine.TheVariants.{FaceBoxWrong};
ghost use Rattle.validate_topology.specs.BoxLines.{box_beside, box_of_all, box_with, equal_boxes, least_of, same_box, wrong_boxes};
ghost use Rattle.validate_topology.specs.FaceAbove.{TellsFaces};
ghost use Rattle.validate_topology.specs.Following.{half_edge};
ghost use Rattle.validate_topology.specs.OnlyIf.{only_if};
ghost use Rattle.validate_topology.specs.PlaceLines.{hole_elsewhere as line_elsewhere, hole_line as line_of_hole, hole_lines as lines_of_holes, node_line as line_of_node, node_lines as lines_of_nodes};
ghost use Rattle.validate_topology.specs.Walks.{IsWalk, ring_in};

use crate::above::{face_above, index_of};
use crate::lines::{Report, ReportLine};
use crate::sides::{Side, dart_of, left_of};
use crate::table::Rows;
use crate::walks::Walk;
use slab_index::SlabIndex;
use std::alloc::Global;
use std::sync::ledger::Ledger;
use topo_base::{Box4, EdgeRow, FaceId, FaceRow, Grid, Memory, NodeRow, Steps};

/// The line of a hole that begins with this dart, if this face isn't its own.
fn hole_elsewhere(side: &Side<'_>, face: FaceId, report: &mut Report) -> Result<(), Memory>
    ensures { OnOk result (report.new ≡ report.old ++ line_elsewhere (half_edge side.now) face) }
{
    let own = left_of(side);
    let dart = dart_of(side);
    report.push_if(own.0 != face.0, ReportLine::HoleInOtherFace { dart, face })
}

/// Whether the dart is walked in this direction.
fn is_walked(side: &Side<'_>, is_forward: bool) -> bool
    ensures { result ≡ same_way (half_edge side.now).is_forward is_forward }
{
    if side.is_forward {
        is_forward
    } else {
        !is_forward
    }
}

/// The line of a hole, where it begins with a dart that is walked in this direction.
fn begun_hole<L: Ledger>(
    edges: &Rows<EdgeRow>,
    index: &SlabIndex,
    walk: &Walk<'_>,
    is_forward: bool,
    report: &mut Report,
    steps: &mut Steps<L>,
) -> Result<(), Memory>
    requires index { AreTogether index.now.kept (pieces_of_all edges.now) [] }
    requires walk { IsWalk walk.now }
    requires some { 0 < length walk.now.sides.items }
    requires hole { is_hole (ring_in walk.now) ≡ true }
    ensures { OnOk result ((above : Point → ℕ) → TellsFaces edges.now above → report.new ≡ report.old ++ line_of_hole above is_forward (ring_in walk.now)) }
{
    let side = &walk.sides[0];
    if !is_walked(side, is_forward) {
        return Ok(());
    }
    let face = face_above(edges, index, walk.top, steps);
    hole_elsewhere(side, face, report)?;
    Ok(())
}

/// The line of a ring, where it is a hole and begins with a dart that is walked in this direction.
fn hole_line<L: Ledger>(
    edges: &Rows<EdgeRow>,
    index: &SlabIndex,
    walk: &Walk<'_>,
    is_forward: bool,
    report: &mut Report,
    steps: &mut Steps<L>,
) -> Result<(), Memory>
    requires index { AreTogether index.now.kept (pieces_of_all edges.now) [] }
    requires walk { IsWalk walk.now }
    ensures { OnOk result ((above : Point → ℕ) → TellsFaces edges.now above → report.new ≡ report.old ++ line_of_hole above is_forward (ring_in walk.now)) }
{
    if walk.is_shell {
        return Ok(());
    }
    if walk.sides.is_empty() {
        return Ok(());
    }
    begun_hole(edges, index, walk, is_forward, report, steps)?;
    Ok(())
}

/// The lines of the holes that begin with a dart that is walked back, from the last to the first.
fn backward_holes<L: Ledger>(
    edges: &Rows<EdgeRow>,
    index: &SlabIndex,
    walks: &[Walk<'_>],
    report: &mut Report,
    steps: &mut Steps<L>,
) -> Result<(), Memory>
    requires index { AreTogether index.now.kept (pieces_of_all edges.now) [] }
    requires walks { All IsWalk walks.now }
    ensures { OnOk result ((above : Point → ℕ) → TellsFaces edges.now above → report.new ≡ report.old ++ flat_map (line_of_hole above false) (reverse (map ring_in walks.now))) }
{
    let mut left = walks.len();
    while left > 0 {
        left -= 1;
        hole_line(edges, index, &walks[left], false, report, steps)?;
    }
    Ok(())
}

/// The lines of the other holes.
fn forward_holes<L: Ledger>(
    edges: &Rows<EdgeRow>,
    index: &SlabIndex,
    walks: &[Walk<'_>],
    report: &mut Report,
    steps: &mut Steps<L>,
) -> Result<(), Memory>
    requires index { AreTogether index.now.kept (pieces_of_all edges.now) [] }
    requires walks { All IsWalk walks.now }
    ensures { OnOk result ((above : Point → ℕ) → TellsFaces edges.now above → report.new ≡ report.old ++ flat_map (line_of_hole above true) (map ring_in walks.now)) }
{
    for walk in walks {
        hole_line(edges, index, walk, true, report, steps)?;
    }
    Ok(())
}

/// The lines of all holes, by the signed numbers of their least darts.
fn holes_elsewhere<L: Ledger>(
    edges: &Rows<EdgeRow>,
    index: &SlabIndex,
    walks: &[Walk<'_>],
    report: &mut Report,
    steps: &mut Steps<L>,
) -> Result<(), Memory>
    requires index { AreTogether index.now.kept (pieces_of_all edges.now) [] }
    requires walks { All IsWalk walks.now }
    ensures { OnOk result ((above : Point → ℕ) → TellsFaces edges.now above → report.new ≡ report.old ++ lines_of_holes above (map ring_in walks.now)) }
{
    backward_holes(edges, index, walks, report, steps)?;
    forward_holes(edges, index, walks, report, steps)?;
    Ok(())
}

/// Whether these are two faces.
fn differ(one: FaceId, other: FaceId) -> bool
    ensures { result ≡ not (one == other) }
{
    one.0 != other.0
}

/// The line of a node, where it has a containing face.
fn node_line<L: Ledger>(
    edges: &Rows<EdgeRow>,
    index: &SlabIndex,
    row: &NodeRow,
    report: &mut Report,
    steps: &mut Steps<L>,
) -> Result<(), Memory>
    requires { AreTogether index.now.kept (pieces_of_all edges.now) [] }
    ensures { OnOk result ((above : Point → ℕ) → TellsFaces edges.now above → report.new ≡ report.old ++ line_of_node above row.now row.now.containing_face) }
{
    let Some(own) = row.containing_face else {
        return Ok(());
    };
    let node = row.node_id;
    let face = face_above(edges, index, row.geom, steps);
    let wrong = differ(own, face);
    report.push_if(wrong, ReportLine::NodeInOtherFace { node, face })?;
    Ok(())
}

fn nodes_elsewhere<L: Ledger>(
    edges: &Rows<EdgeRow>,
    index: &SlabIndex,
    nodes: &[NodeRow],
    report: &mut Report,
    steps: &mut Steps<L>,
) -> Result<(), Memory>
    requires { AreTogether index.now.kept (pieces_of_all edges.now) [] }
    ensures { OnOk result ((above : Point → ℕ) → TellsFaces edges.now above → report.new ≡ report.old ++ lines_of_nodes above nodes.now) }
{
    for row in nodes {
        node_line(edges, index, row, report, steps)?;
    }
    Ok(())
}

fn box_between(min_x: i64, min_y: i64, max_x: i64, max_y: i64) -> Box4
    ensures { result ≡ record { min_x = min_x; min_y = min_y; max_x = max_x; max_y = max_y } }
{
    Box4 {
        min_x,
        min_y,
        max_x,
        max_y,
    }
}

/// The least box of a point.
fn box_of(point: &Grid) -> Box4
    ensures { result ≡ box_at point.now }
{
    let (x, y) = (point.x(), point.y());
    box_between(x, y, x, y)
}

fn lower_x(mbr: &Box4, point: &Grid) -> i64
    ensures { result ≡ int_min mbr.now.min_x point.now.x }
{
    mbr.min_x.min(point.x())
}

fn lower_y(mbr: &Box4, point: &Grid) -> i64
    ensures { result ≡ int_min mbr.now.min_y point.now.y }
{
    mbr.min_y.min(point.y())
}

fn upper_x(mbr: &Box4, point: &Grid) -> i64
    ensures { result ≡ int_max mbr.now.max_x point.now.x }
{
    mbr.max_x.max(point.x())
}

fn upper_y(mbr: &Box4, point: &Grid) -> i64
    ensures { result ≡ int_max mbr.now.max_y point.now.y }
{
    mbr.max_y.max(point.y())
}

/// The least box of a box and a point.
fn grown(mbr: &Box4, point: &Grid) -> Box4
    ensures { result ≡ wider_box mbr.now point.now }
{
    let (min_x, min_y) = (lower_x(mbr, point), lower_y(mbr, point));
    let (max_x, max_y) = (upper_x(mbr, point), upper_y(mbr, point));
    box_between(min_x, min_y, max_x, max_y)
}

/// The least box of a box, if there is one, and a point.
fn wider(mbr: &Option<Box4>, point: &Grid) -> Box4
    ensures { box_with mbr.now point.now ≡ Some result }
{
    match mbr {
        None => box_of(point),
        Some(mbr) => grown(mbr, point),
    }
}

/// The least box of a box, if there is one, and these points.
fn widest(mbr: Option<Box4>, points: &[Grid]) -> Option<Box4>
    ensures { result ≡ box_of_all mbr points.now }
{
    let mut wide = mbr;
    for point in points {
        wide = Some(wider(&wide, point));
    }
    wide
}

/// Widens the box of a listed face.
fn widen(faces: &Rows<FaceRow>, face: FaceId, points: &[Grid], boxes: &mut Vec<Option<Box4>>)
    requires { vec_len boxes.old ≡ length faces.now }
    ensures len { vec_len boxes.new ≡ vec_len boxes.old }
    ensures widened { (least : ℕ → Option BoxValue) → boxes.old.items ≡ map (λ (f : FaceValue). least f.face_id) faces.now → boxes.new.items ≡ map (λ (f : FaceValue). if f.face_id == face then box_of_all (least face) points.now else least f.face_id) faces.now }
{
    let _ = faces.rows();
    let Some(place) = faces.place_of(face.0) else {
        return;
    };
    boxes[place] = widest(boxes[place], points);
}

/// Widens the boxes of two faces, which may be one.
fn widen_both(
    faces: &Rows<FaceRow>,
    left: FaceId,
    right: FaceId,
    points: &[Grid],
    boxes: &mut Vec<Option<Box4>>,
)
    requires { vec_len boxes.old ≡ length faces.now }
    ensures len { vec_len boxes.new ≡ vec_len boxes.old }
    ensures widened { (least : ℕ → Option BoxValue) → boxes.old.items ≡ map (λ (f : FaceValue). least f.face_id) faces.now → boxes.new.items ≡ map (λ (f : FaceValue). if left == f.face_id || right == f.face_id then box_of_all (least f.face_id) points.now else least f.face_id) faces.now }
{
    widen(faces, left, points, boxes);
    if left.0 == right.0 {
        return;
    }
    widen(faces, right, points, boxes);
}

/// Widens the boxes of the faces on the sides of an edge.
fn widen_sides(faces: &Rows<FaceRow>, row: &EdgeRow, boxes: &mut Vec<Option<Box4>>)
    requires { vec_len boxes.old ≡ length faces.now }
    ensures len { vec_len boxes.new ≡ vec_len boxes.old }
    ensures widened { (least : ℕ → Option BoxValue) → boxes.old.items ≡ map (λ (f : FaceValue). least f.face_id) faces.now → boxes.new.items ≡ map (λ (f : FaceValue). if has_side f.face_id (drawn_edge row.now) then box_of_all (least f.face_id) row.now.geom else least f.face_id) faces.now }
{
    let points = row.geom.vertices();
    widen_both(faces, row.left_face, row.right_face, points, boxes);
}

/// No box for each listed face.
fn no_boxes(alloc: Global, faces: &[FaceRow]) -> Result<Vec<Option<Box4>>, Memory>
    ensures len { IfOk result (λ v. vec_len v ≡ length faces.now) }
    ensures none { IfOk result (λ v. v.items ≡ map (λ (f : FaceValue). box_beside [] f.face_id) faces.now) }
{
    let mut boxes = Vec::with_capacity(alloc, faces.len())?;
    for _row in faces {
        boxes.push(None)?;
    }
    Ok(boxes)
}

/// The least box of each listed face.
fn boxes_of(
    alloc: Global,
    edges: &[EdgeRow],
    faces: &Rows<FaceRow>,
) -> Result<Vec<Option<Box4>>, Memory>
    ensures len { IfOk result (λ v. vec_len v ≡ length faces.now) }
    ensures boxes { IfOk result (λ v. v.items ≡ map (λ (f : FaceValue). box_beside (map drawn_edge edges.now) f.face_id) faces.now) }
{
    let mut boxes = no_boxes(alloc, faces.rows())?;
    for row in edges {
        widen_sides(faces, row, &mut boxes);
    }
    Ok(boxes)
}

/// Whether two boxes are one.
fn is_equal(a: &Box4, b: &Box4) -> bool
    ensures { result ≡ equal_boxes a.now b.now }
{
    a.min_x == b.min_x && a.min_y == b.min_y && a.max_x == b.max_x && a.max_y == b.max_y
}

/// Whether both are the same box, or none.
fn is_same_box(mbr: &Option<Box4>, other: &Option<Box4>) -> bool
    ensures { result ≡ same_box mbr.now other.now }
{
    match mbr {
        None => match other {
            None => true,
            Some(_) => false,
        },
        Some(a) => match other {
            None => false,
            Some(b) => is_equal(a, b),
        },
    }
}

fn face_box_wrong(row: &FaceRow, least: &Option<Box4>, report: &mut Report) -> Result<(), Memory>
    ensures { OnOk result (report.new ≡ report.old ++ only_if (not (same_box row.now.mbr least.now)) (FaceBoxWrong row.now.face_id)) }
{
    let face = row.face_id;
    let wrong = !is_same_box(&row.mbr, least);
    report.push_if(wrong, ReportLine::FaceBoxWrong { face })
}

fn boxes_wrong(faces: &[FaceRow], boxes: &[Option<Box4>], report: &mut Report) -> Result<(), Memory>
    requires { length boxes.now ≡ length faces.now }
    ensures { OnOk result ((least : ℕ → Option BoxValue) → boxes.now ≡ map (λ (f : FaceValue). least f.face_id) faces.now → report.new ≡ report.old ++ wrong_boxes least faces.now) }
{
    for index in 0..faces.len() {
        face_box_wrong(&faces[index], &boxes[index], report)?;
    }
    Ok(())
}

fn face_boxes_wrong(
    alloc: Global,
    edges: &[EdgeRow],
    faces: &Rows<FaceRow>,
    report: &mut Report,
) -> Result<(), Memory>
    ensures { OnOk result (report.new ≡ report.old ++ wrong_boxes (least_of (map drawn_edge edges.now)) (universal_face ∷ faces.now)) }
{
    let boxes = boxes_of(alloc, edges, faces)?;
    boxes_wrong(faces.rows(), &boxes, report)?;
    Ok(())
}

/// The lines on what lies in another face, and on boxes.
pub fn place_lines<L: Ledger>(
    alloc: Global,
    edges: &Rows<EdgeRow>,
    nodes: &[NodeRow],
    faces: &Rows<FaceRow>,
    walks: &[Walk<'_>],
    report: &mut Report,
    steps: &mut Steps<L>,
) -> Result<(), Memory>
    requires { All IsWalk walks.now }
    ensures { OnOk result ((above : Point → ℕ) → TellsFaces edges.now above → report.new ≡ report.old ++ lines_of_holes above (map ring_in walks.now) ++ lines_of_nodes above nodes.now ++ wrong_boxes (least_of (map drawn_edge edges.now)) (universal_face ∷ faces.now)) }
{
    let listed = edges.rows();
    let index = index_of(alloc, listed)?;
    holes_elsewhere(edges, &index, walks, report, steps)?;
    nodes_elsewhere(edges, &index, nodes, report, steps)?;
    face_boxes_wrong(alloc, listed, faces, report)?;
    Ok(())
}
