// A place in a face where there is room for its id.
use crate::frame::Spot;
use crate::rings::{Ring, Step};
use crate::room::{Patch, Room};
use std::alloc::{AllocError, Global};
use std::num::{nearest_i64_to_f64, saturating_f64_to_i64};

/// A segment of a face's border.
#[derive(Clone, Copy)]
pub struct Side {
    from: Spot,
    to: Spot,
}

/// Adds the segments of a line.
fn push_sides(sides: &mut Vec<Side>, spots: &[Spot]) -> Result<(), AllocError> {
    let mut last: Option<Spot> = None;
    for spot in spots {
        if let Some(from) = last {
            sides.push(Side { from, to: *spot })?;
        }
        last = Some(*spot);
    }
    Ok(())
}

fn push_ring(sides: &mut Vec<Side>, steps: &[Step], lines: &[Vec<Spot>]) -> Result<(), AllocError> {
    for step in steps {
        if let Some(spots) = lines.get(step.place) {
            push_sides(sides, spots)?;
        }
    }
    Ok(())
}

/// The segments of the border of a face, whose rings these are. A segment with the face on both sides comes twice.
pub fn sides_of(
    alloc: Global,
    rings: &[Ring],
    lines: &[Vec<Spot>],
) -> Result<Vec<Side>, AllocError> {
    let mut sides = Vec::new(alloc);
    for ring in rings {
        push_ring(&mut sides, &ring.steps, lines)?;
    }
    Ok(sides)
}

/// Where a segment crosses the height y.
fn crossing_at_height(side: &Side, y: f64) -> Option<f64> {
    let (a, b) = (side.from, side.to);
    if (a.y <= y) == (b.y <= y) {
        return None;
    }
    Some(a.x + (b.x - a.x) * (y - a.y) / (b.y - a.y))
}

/// Where a segment crosses the upright line at x.
fn crossing_at_upright(side: &Side, x: f64) -> Option<f64> {
    let (a, b) = (side.from, side.to);
    if (a.x <= x) == (b.x <= x) {
        return None;
    }
    Some(a.y + (b.y - a.y) * (x - a.x) / (b.x - a.x))
}

/// The crossings with the height y, ascending, in whole units.
fn crossings_at_height(alloc: Global, sides: &[Side], y: f64) -> Result<Vec<i64>, AllocError> {
    let mut crossings = Vec::new(alloc);
    for side in sides {
        if let Some(x) = crossing_at_height(side, y) {
            crossings.push(saturating_f64_to_i64(x))?;
        }
    }
    crossings.sort_unstable();
    Ok(crossings)
}

/// The crossings with the upright line at x, ascending, in whole units.
fn crossings_at_upright(alloc: Global, sides: &[Side], x: f64) -> Result<Vec<i64>, AllocError> {
    let mut crossings = Vec::new(alloc);
    for side in sides {
        if let Some(y) = crossing_at_upright(side, x) {
            crossings.push(saturating_f64_to_i64(y))?;
        }
    }
    crossings.sort_unstable();
    Ok(crossings)
}

/// A part of a straight line that lies in a face.
#[derive(Clone, Copy)]
struct Span {
    from: f64,
    to: f64,
}

impl Span {
    fn length(&self) -> f64 {
        self.to - self.from
    }

    fn middle(&self) -> f64 {
        (self.from + self.to) / 2.0
    }
}

/// The longest part inside, of those between the first and second crossing, the third and fourth, and so on.
fn longest(crossings: &[i64]) -> Option<Span> {
    let mut longest: Option<Span> = None;
    for pair in crossings.chunks(2) {
        if let [from, to] = pair {
            let span = Span {
                from: nearest_i64_to_f64(*from),
                to: nearest_i64_to_f64(*to),
            };
            if longest.is_none_or(|old| old.length() < span.length()) {
                longest = Some(span);
            }
        }
    }
    longest
}

/// The part inside in which a place is.
fn around(crossings: &[i64], place: f64) -> Option<Span> {
    for pair in crossings.chunks(2) {
        if let [from, to] = pair {
            let span = Span {
                from: nearest_i64_to_f64(*from),
                to: nearest_i64_to_f64(*to),
            };
            if span.from <= place && place <= span.to {
                return Some(span);
            }
        }
    }
    None
}

/// A place inside, and the side of the largest square about it that might be inside too: twice the way to the nearest
/// border straight across or down.
#[derive(Clone, Copy)]
struct Place {
    at: Spot,
    room: f64,
}

/// The lesser of two lengths.
fn lesser(first: f64, second: f64) -> f64 {
    if first < second { first } else { second }
}

/// The best place at the height y.
fn place_at(alloc: Global, sides: &[Side], y: f64) -> Result<Option<Place>, AllocError> {
    let Some(across) = longest(&crossings_at_height(alloc, sides, y)?) else {
        return Ok(None);
    };
    let x = across.middle();
    let Some(down) = around(&crossings_at_upright(alloc, sides, x)?, y) else {
        return Ok(None);
    };
    let way = lesser(y - down.from, down.to - y);
    Ok(Some(Place {
        at: Spot { x, y },
        room: lesser(across.length(), 2.0 * way),
    }))
}

/// The least and the greatest height.
fn heights(sides: &[Side]) -> Option<Span> {
    let mut heights: Option<Span> = None;
    for side in sides {
        let y = side.from.y;
        heights = match heights {
            None => Some(Span { from: y, to: y }),
            Some(old) if y < old.from => Some(Span { from: y, ..old }),
            Some(old) if old.to < y => Some(Span { to: y, ..old }),
            Some(old) => Some(old),
        };
    }
    heights
}

/// At how many heights a place is looked for.
const HEIGHTS: u32 = 15;

/// The height of that number, which is a share of the whole: the middle first, and then those above and below it.
fn share_of(number: u32) -> f64 {
    let way = f64::from((number % HEIGHTS + 1) / 2);
    let middle = f64::from(HEIGHTS + 1) / 2.0;
    let part = if number % 2 == 0 {
        middle + way
    } else {
        middle - way
    };
    part / f64::from(HEIGHTS + 1)
}

/// The roomiest place for a box of this size in a face whose border these segments are, where the box is free.
pub fn place_inside(
    alloc: Global,
    sides: &[Side],
    room: &Room,
    width: f64,
    height: f64,
) -> Result<Option<Patch>, AllocError> {
    let Some(heights) = heights(sides) else {
        return Ok(None);
    };
    let mut best: Option<Place> = None;
    for number in 0..HEIGHTS {
        let y = heights.from + heights.length() * share_of(number);
        if let Some(place) = place_at(alloc, sides, y)?
            && height <= place.room
            && best.is_none_or(|old| old.room < place.room)
            && room.is_free(&patch(place.at, width, height))
        {
            best = Some(place);
        }
    }
    Ok(best.map(|place| patch(place.at, width, height)))
}

fn patch(middle: Spot, width: f64, height: f64) -> Patch {
    Patch {
        middle,
        width,
        height,
    }
}
