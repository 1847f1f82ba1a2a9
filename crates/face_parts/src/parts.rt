// The part of a divided face that has a point or a ring.
ghost use Rattle.std.specs.Prelude.{◌≡◌, ◌≤◌, ◌+◌};
ghost use Rattle.topo_base.specs.Darts.{same_dart};
ghost use Rattle.face_rings.specs.Border.{has_dart};
ghost use Rattle.face_parts.specs.Divided.{part_of_point, part_of_ring, part_of_start, start_of, start_of_ring, vertex_along};

use crate::cut::Cut;
use std::sync::ledger::Ledger;
use topo_base::{Dart, EdgeId, EdgeRow, FaceId, Grid, Steps, is_same_dart};
use topo_tables::Tables;

/// A face that an edge divides, the edge, and the faces that the parts on its left and on its right are.
#[derive(Clone, Copy, Debug, PartialEq, Eq)]
pub struct FaceParts {
    pub face: FaceId,
    pub edge: EdgeId,
    pub left_part: FaceId,
    pub right_part: FaceId,
}

/// Whether the dart is one of these.
pub fn has_dart(ring: &[Dart], dart: &Dart) -> bool
    ensures { result ≡ has_dart ring.now dart.now }
{
    for other in ring {
        if is_same_dart(dart, other) {
            return true;
        }
    }
    false
}

/// The vertex from which the edge leaves, or the one from which it leaves backward.
fn vertex_along(forward: bool, row: &EdgeRow) -> Grid
    ensures { result ≡ vertex_along forward row.now }
{
    let vertices = row.geom.vertices();
    if forward {
        vertices[0]
    } else {
        vertices[vertices.len() - 1]
    }
}

/// The vertex from which a dart leaves. None where its edge isn't there. Takes one step.
fn start_of<L: Ledger>(tables: &Tables, dart: &Dart, steps: &mut Steps<L>) -> Option<Grid>
    ensures start { result ≡ start_of tables.now.rows.edges dart.now }
    ensures counted { steps.new ≡ steps.old + 1 }
{
    match tables.edge(dart.edge, steps) {
        None => None,
        Some(row) => Some(vertex_along(dart.forward, row)),
    }
}

/// The vertex from which the first dart of a ring leaves. None where it has no dart, or where the dart's
/// edge isn't there. Takes at most one step.
fn start_of_ring<L: Ledger>(tables: &Tables, ring: &[Dart], steps: &mut Steps<L>) -> Option<Grid>
    ensures start { result ≡ start_of_ring tables.now.rows.edges ring.now }
    ensures counted { steps.new ≤ steps.old + 1 }
{
    match ring.first() {
        None => None,
        Some(dart) => start_of(tables, dart, steps),
    }
}

/// The part that has the point.
pub(crate) fn part_of_point(parts: &FaceParts, cut: &Cut, p: Grid) -> FaceId
    ensures { result ≡ part_of_point parts.now cut.now p }
{
    if cut.is_on_left(p) {
        parts.left_part
    } else {
        parts.right_part
    }
}

/// The part that has a ring which the edge isn't in, by where its first dart begins. Takes at most one
/// step.
fn part_of_island<L: Ledger>(
    tables: &Tables,
    parts: &FaceParts,
    cut: &Cut,
    ring: &[Dart],
    steps: &mut Steps<L>,
) -> FaceId
    ensures part { result ≡ part_of_start parts.now cut.now (start_of_ring tables.now.rows.edges ring.now) }
    ensures counted { steps.new ≤ steps.old + 1 }
{
    match start_of_ring(tables, ring, steps) {
        None => parts.right_part,
        Some(start) => part_of_point(parts, cut, start),
    }
}

/// The part that has a ring, which begins with its least dart. Takes at most one step.
pub(crate) fn part_of_ring<L: Ledger>(
    tables: &Tables,
    parts: &FaceParts,
    cut: &Cut,
    ring: &[Dart],
    steps: &mut Steps<L>,
) -> FaceId
    ensures part { result ≡ part_of_ring parts.now cut.now tables.now.rows.edges ring.now }
    ensures counted { steps.new ≤ steps.old + 1 }
{
    let edge = parts.edge;
    let forward = true;
    if has_dart(ring, &Dart { edge, forward }) {
        return parts.left_part;
    }
    let forward = false;
    if has_dart(ring, &Dart { edge, forward }) {
        return parts.right_part;
    }
    part_of_island(tables, parts, cut, ring, steps)
}
