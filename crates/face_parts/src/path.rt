//! The closed walk through the vertices of a ring's darts.

ghost use Rattle.std.specs.Prelude.{◌≡◌, ◌+◌, ◌++◌, ◌≤◌, IfOk, IsTrue, OnOk, drop, length, nat_le, reverse};
ghost use Rattle.drawing.specs.Drawing.{Drawing};
ghost use Rattle.drawing.specs.HalfEdge.{HalfEdge, half_edges};
ghost use Rattle.plane.specs.ClosedWalk.{closed_segments};
ghost use Rattle.drawing.specs.Ring.{ring_of, ring_segments};
ghost use Rattle.drawing.specs.Rows.{has_row};
ghost use Rattle.drawing.specs.Writes.{edge_row_id};
ghost use Rattle.face_parts.specs.Paths.{IsRingOf, are_edges, path_of, path_part, without_last};

use grid_rays::Ring;
use std::alloc::Global;
use std::sync::ledger::Ledger;
use topo_base::{Dart, Grid, Line, Memory, Steps};
use topo_tables::Tables;

/// Adds the vertices of a line, all but the last.
fn push_forward(path: &mut Vec<Grid>, line: &Line) -> Result<(), Memory>
    ensures { OnOk result (path.new.items ≡ path.old.items ++ without_last line.now) }
{
    let vertices = line.vertices();
    let (front, _) = vertices.split_at(vertices.len() - 1);
    path.extend_from_slice(front)?;
    Ok(())
}

/// Adds these vertices from the last to the first.
fn push_reversed(path: &mut Vec<Grid>, vertices: &[Grid]) -> Result<(), Memory>
    ensures { OnOk result (path.new.items ≡ path.old.items ++ reverse vertices.now) }
{
    let mut left = vertices.len();
    while left > 0 {
        left -= 1;
        path.push(vertices[left])?;
    }
    Ok(())
}

/// Adds the vertices of a line walked back, all but the last.
fn push_backward(path: &mut Vec<Grid>, line: &Line) -> Result<(), Memory>
    ensures { OnOk result (path.new.items ≡ path.old.items ++ without_last (reverse line.now)) }
{
    let (_, behind) = line.vertices().split_at(1);
    push_reversed(path, behind)
}

/// Adds the vertices of a dart's line as the dart is walked, all but the last. Takes one step.
fn push_dart<L: Ledger>(
    path: &mut Vec<Grid>,
    tables: &Tables,
    dart: &Dart,
    steps: &mut Steps<L>,
) -> Result<(), Memory>
    requires { IsTrue (has_row edge_row_id tables.now.rows.edges dart.now.edge) }
    ensures path { OnOk result (path.new.items ≡ path.old.items ++ path_part tables.now.rows.edges dart.now) }
    ensures counted { steps.new ≡ steps.old + 1 }
{
    let Some(row) = tables.edge(dart.edge, steps) else {
        unreachable!();
    };
    if dart.forward {
        push_forward(path, &row.geom)
    } else {
        push_backward(path, &row.geom)
    }
}

/// The vertices of the lines of these darts as they are walked, of each all but the last.
fn vertices_along<L: Ledger>(
    alloc: Global,
    tables: &Tables,
    darts: &[Dart],
    steps: &mut Steps<L>,
) -> Result<Vec<Grid>, Memory>
    requires { IsTrue (are_edges tables.now.rows.edges darts.now) }
    ensures path { IfOk result (λ path. path.items ≡ path_of tables.now.rows.edges darts.now) }
    ensures counted { steps.new ≤ steps.old + length darts.now }
{
    let mut path = Vec::new(alloc);
    for dart in darts {
        push_dart(&mut path, tables, dart, steps)?;
    }
    Ok(path)
}

/// The closed walk along the darts of a ring: the vertices of each dart's line as the dart is walked,
/// all but the last, where the next dart begins. Where the darts are a ring of a plain drawing, its
/// segments are those of the ring's half-edges. A step is one access of a row.
pub fn ring_path<L: Ledger>(
    alloc: Global,
    tables: &Tables,
    ring: &[Dart],
    steps: &mut Steps<L>,
) -> Result<Ring, Memory>
    requires known { IsTrue (are_edges tables.now.rows.edges ring.now) }
    requires long { IsTrue (nat_le 2 (length (path_of tables.now.rows.edges ring.now))) }
    ensures path { IfOk result (λ r. r ≡ path_of tables.now.rows.edges ring.now) }
    ensures segments { (T : Drawing) (h : HalfEdge) → IsRingOf tables.now.rows.edges ring.now T h
        → IfOk result (λ r. closed_segments r ≡ ring_segments (ring_of (half_edges T) h)) }
    ensures counted { steps.new ≤ steps.old + length ring.now }
{
    match Ring::of(vertices_along(alloc, tables, ring, steps)?) {
        Ok(path) => Ok(path),
        Err(_) => unreachable!(),
    }
}
