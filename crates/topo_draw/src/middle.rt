// The middle of a line, where its direction is shown.
use crate::frame::Spot;

/// The middle of the segment in which the middle of a line lies, the direction of the segment, of length 1, and its
/// length. So no arrow stands at a bend.
#[derive(Clone, Copy)]
pub struct Middle {
    pub at: Spot,
    pub x: f64,
    pub y: f64,
    pub length: f64,
}

/// The length of a line.
fn length_of(spots: &[Spot]) -> f64 {
    let mut length = 0.0;
    let mut last = None;
    for spot in spots {
        if let Some(before) = last {
            length = length + spot.distance(&before);
        }
        last = Some(*spot);
    }
    length
}

/// The middle of a segment of this length.
fn half_way(from: &Spot, to: &Spot, length: f64) -> Middle {
    let (x, y) = (to.x - from.x, to.y - from.y);
    Middle {
        at: from.moved(x / 2.0, y / 2.0),
        x: x / length,
        y: y / length,
        length,
    }
}

/// The middle of a line, where it has a length.
pub fn middle_of(spots: &[Spot]) -> Option<Middle> {
    let mut rest = length_of(spots) / 2.0;
    let mut last: Option<Spot> = None;
    for spot in spots {
        if let Some(before) = last {
            let segment = before.distance(spot);
            if segment > 0.0 && rest <= segment {
                return Some(half_way(&before, spot, segment));
            }
            rest = rest - segment;
        }
        last = Some(*spot);
    }
    None
}
