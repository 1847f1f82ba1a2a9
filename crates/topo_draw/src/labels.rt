// Where the ids of nodes and edges are written.
use crate::frame::Spot;
use crate::middle::Middle;
use crate::room::{Patch, Room};

/// How wide an id is that is written in this size.
pub fn width_of(id: u32, size: f64) -> f64 {
    let mut digits = 1.0;
    let mut rest = id;
    for _ in 0..9 {
        rest = rest / 10;
        if 0 < rest {
            digits = digits + 1.0;
        }
    }
    0.64 * size * digits
}

/// How high an id is that is written in this size.
pub fn height_of(size: f64) -> f64 {
    0.76 * size
}

/// The sides of a node on which its id may stand, in the order in which they are tried.
const SIDES: [(f64, f64); 8] = [
    (1.0, -1.0),
    (-1.0, -1.0),
    (1.0, 1.0),
    (-1.0, 1.0),
    (0.0, -1.0),
    (0.0, 1.0),
    (1.0, 0.0),
    (-1.0, 0.0),
];

/// A free place for the id of a node, which is taken then.
pub fn place_at_node(room: &mut Room, at: &Spot, id: u32, radius: f64, size: f64) -> Option<Patch> {
    let (width, height) = (width_of(id, size), height_of(size));
    let reach = radius + 120.0;
    for (x, y) in SIDES {
        let patch = Patch {
            middle: at.moved(x * (reach + width / 2.0), y * (reach + height / 2.0)),
            width,
            height,
        };
        if room.try_take(&patch) {
            return Some(patch);
        }
    }
    None
}

/// A free place for the id of an edge, beside its middle, on its left or else on its right, which is taken then.
pub fn place_at_edge(
    room: &mut Room,
    middle: &Middle,
    id: u32,
    gap: f64,
    size: f64,
) -> Option<Patch> {
    let (width, height) = (width_of(id, size), height_of(size));
    let reach = (middle.x * height / 2.0).abs() + (middle.y * width / 2.0).abs();
    for (side, more) in [(1.0, 0.0), (-1.0, 0.0), (1.0, 0.5), (-1.0, 0.5)] {
        let far = side * (gap + reach + more * size);
        let patch = Patch {
            middle: middle.at.moved(middle.y * far, -middle.x * far),
            width,
            height,
        };
        if room.try_take(&patch) {
            return Some(patch);
        }
    }
    None
}
