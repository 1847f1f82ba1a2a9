//! A triangle, two rings in one face, a dangling edge, a figure of eight, and a dart that is its own next.

ghost use Rattle.std.specs.Prelude.{◌≡◌, true, false};

use crate::{BorderDart, FaceContent, face_rings, ring_of};
use std::test::Fail;
use topo_base::{Dart, EdgeId, EdgeRow, FaceId, Grid, Line, NodeId};

fn forward(edge: u32) -> Dart
    ensures { result ≡ record { edge = edge; forward = true } }
{
    Dart {
        edge: EdgeId(edge),
        forward: true,
    }
}

fn backward(edge: u32) -> Dart
    ensures { result ≡ record { edge = edge; forward = false } }
{
    Dart {
        edge: EdgeId(edge),
        forward: false,
    }
}

fn row(dart: Dart, next: Dart) -> BorderDart
    ensures { result ≡ record { dart = dart; next = next } }
{
    BorderDart { dart, next }
}

#[test]
fn triangle(rt: HostRuntime) -> Result<(), Fail> {
    let rows = FaceContent::of(vec![in rt.alloc();
        row(forward(1), forward(2)),
        row(forward(2), forward(3)),
        row(forward(3), forward(1)),
    ]?);
    let ring = ring_of(rt.alloc(), &rows, forward(2))?;
    assert_eq!(rt;
        ring.as_slice(),
        [forward(2), forward(3), forward(1)].as_slice()
    );
    Ok(())
}

// The face round a triangle has an island: two rings.
#[test]
fn two_rings(rt: HostRuntime) -> Result<(), Fail> {
    let rows = FaceContent::of(vec![in rt.alloc();
        row(forward(1), forward(3)),
        row(forward(2), forward(1)),
        row(forward(3), forward(2)),
        row(backward(4), backward(5)),
        row(backward(5), backward(4)),
    ]?);
    let rings = face_rings(rt.alloc(), &rows)?;
    assert_eq!(rt; rings.len(), 2);
    assert_eq!(rt;
        rings[0].as_slice(),
        [forward(1), forward(3), forward(2)].as_slice()
    );
    assert_eq!(rt; rings[1].as_slice(), [backward(4), backward(5)].as_slice());
    Ok(())
}

// Edge 4 dangles from the end of edge 1 into the triangle, so its ring takes it both ways.
#[test]
fn dangling_edge(rt: HostRuntime) -> Result<(), Fail> {
    let rows = FaceContent::of(vec![in rt.alloc();
        row(forward(1), forward(4)),
        row(forward(2), forward(3)),
        row(forward(3), forward(1)),
        row(forward(4), backward(4)),
        row(backward(4), forward(2)),
    ]?);
    let rings = face_rings(rt.alloc(), &rows)?;
    assert_eq!(rt; rings.len(), 1);
    let walked = [forward(1), forward(4), backward(4), forward(2), forward(3)];
    assert_eq!(rt; rings[0].as_slice(), walked.as_slice());
    Ok(())
}

// Two closed edges at one node: each has a face inside, and the face outside has one ring of both.
#[test]
fn figure_of_eight(rt: HostRuntime) -> Result<(), Fail> {
    let inside = FaceContent::of(vec![in rt.alloc(); row(forward(1), forward(1))]?);
    let ring = ring_of(rt.alloc(), &inside, forward(1))?;
    assert_eq!(rt; ring.as_slice(), [forward(1)].as_slice());
    let outside = FaceContent::of(vec![in rt.alloc();
        row(backward(1), backward(2)),
        row(backward(2), backward(1)),
    ]?);
    let rings = face_rings(rt.alloc(), &outside)?;
    assert_eq!(rt; rings.len(), 1);
    assert_eq!(rt; rings[0].as_slice(), [backward(1), backward(2)].as_slice());
    Ok(())
}

// An isolated edge has its face on both sides. Where an edge comes at its end, two links change.
#[test]
fn coming_edge(rt: HostRuntime) -> Result<(), Fail> {
    let mut vertices = Vec::new(rt.alloc());
    vertices.push(Grid::of(0, 0).expect(&rt, "off the grid"))?;
    vertices.push(Grid::of(3, 4).expect(&rt, "off the grid"))?;
    let edge = EdgeRow {
        edge_id: EdgeId(1),
        start_node: NodeId(1),
        end_node: NodeId(2),
        next_left_edge: backward(1),
        next_right_edge: forward(1),
        left_face: FaceId(0),
        right_face: FaceId(0),
        geom: Line::of(vertices).expect(&rt, "too few vertices"),
    };
    let mut rows = FaceContent::of_rows(rt.alloc(), &[&edge], FaceId(0))?;
    assert_eq!(rt;
        rows.darts(),
        [row(forward(1), backward(1)), row(backward(1), forward(1))].as_slice()
    );
    rows.set_next(&forward(1), forward(2));
    rows.push(row(forward(2), backward(2)))?;
    rows.push(row(backward(2), backward(1)))?;
    let ring = ring_of(rt.alloc(), &rows, backward(1))?;
    let walked = [backward(1), forward(1), forward(2), backward(2)];
    assert_eq!(rt; ring.as_slice(), walked.as_slice());
    Ok(())
}

#[test]
fn own_next(rt: HostRuntime) -> Result<(), Fail> {
    let rows = FaceContent::of(vec![in rt.alloc(); row(backward(7), backward(7))]?);
    let rings = face_rings(rt.alloc(), &rows)?;
    assert_eq!(rt; rings.len(), 1);
    assert_eq!(rt; rings[0].as_slice(), [backward(7)].as_slice());
    Ok(())
}
