// From the coordinates of the grid to those of the picture.
use crate::tables::Tables;
use std::num::{nearest_i64_to_f64, nearest_u64_to_f64};
use topo_base::{Box4, Grid};

/// The longer side of a small drawing, in units of the picture: a hundredth of a pixel.
const SIDE: f64 = 36_000.0;

/// How many nodes and edges a small drawing has at most.
const FEW: f64 = 24.0;

/// How many nodes and edges a drawing has at most that isn't drawn with a finer pen.
const MANY: f64 = 384.0;

/// What is left free on each side of the drawing.
const MARGIN: f64 = 3_000.0;

/// A place in the picture, to the right and below its upper left corner.
#[derive(Clone, Copy)]
pub struct Spot {
    pub x: f64,
    pub y: f64,
}

impl Spot {
    /// The spot that is so far away.
    pub fn moved(&self, x: f64, y: f64) -> Spot {
        Spot {
            x: self.x + x,
            y: self.y + y,
        }
    }

    pub fn distance(&self, other: &Spot) -> f64 {
        let x = other.x - self.x;
        let y = other.y - self.y;
        (x * x + y * y).sqrt()
    }
}

/// The least box that has this point too.
fn with_point(extent: Option<Box4>, point: &Grid) -> Option<Box4> {
    let (x, y) = (point.x(), point.y());
    match extent {
        None => Some(Box4 {
            min_x: x,
            min_y: y,
            max_x: x,
            max_y: y,
        }),
        Some(old) => Some(Box4 {
            min_x: old.min_x.min(x),
            min_y: old.min_y.min(y),
            max_x: old.max_x.max(x),
            max_y: old.max_y.max(y),
        }),
    }
}

fn with_points(extent: Option<Box4>, points: &[Grid]) -> Option<Box4> {
    let mut extent = extent;
    for point in points {
        extent = with_point(extent, point);
    }
    extent
}

fn nodes_extent(tables: &Tables) -> Option<Box4> {
    let mut extent = None;
    for row in &tables.nodes {
        extent = with_point(extent, &row.geom);
    }
    extent
}

/// The least box that has all nodes and lines.
fn extent_of(tables: &Tables) -> Option<Box4> {
    let mut extent = nodes_extent(tables);
    for row in &tables.edges {
        extent = with_points(extent, row.geom.vertices());
    }
    extent
}

/// Where the drawing stands in the picture, and how large both are.
#[derive(Clone, Copy)]
pub struct Frame {
    left: f64,
    top: f64,
    scale: f64,
    pub width: f64,
    pub height: f64,
    /// What the sizes of dots, arrows and ids are multiplied by: 1, and less where there is much to draw.
    pub pen: f64,
}

/// The number of nodes and edges.
fn count_of(tables: &Tables) -> f64 {
    let count = (tables.nodes.len() as u64).saturating_add(tables.edges.len() as u64);
    nearest_u64_to_f64(count)
}

/// The longer side of a drawing with so many nodes and edges: it grows with the root of their number up to four times.
fn side_of(count: f64) -> f64 {
    if count <= FEW {
        SIDE
    } else if count <= MANY {
        SIDE * (count / FEW).sqrt()
    } else {
        SIDE * (MANY / FEW).sqrt()
    }
}

/// The pen for so many nodes and edges.
fn pen_of(count: f64) -> f64 {
    if count <= MANY {
        return 1.0;
    }
    let pen = (MANY / count).sqrt();
    if pen < 0.1 { 0.1 } else { pen }
}

impl Frame {
    /// The frame of no point.
    fn empty() -> Frame {
        Frame {
            left: 0.0,
            top: 0.0,
            scale: 1.0,
            width: 2.0 * MARGIN,
            height: 2.0 * MARGIN,
            pen: 1.0,
        }
    }

    /// The frame of these tables. The longer side of the drawing has a length that depends on the number of nodes and
    /// edges alone; a single point stands in the middle of a small picture.
    pub fn of(tables: &Tables) -> Frame {
        let Some(extent) = extent_of(tables) else {
            return Frame::empty();
        };
        let count = count_of(tables);
        let left = nearest_i64_to_f64(extent.min_x);
        let top = nearest_i64_to_f64(extent.max_y);
        let across = nearest_i64_to_f64(extent.max_x) - left;
        let down = top - nearest_i64_to_f64(extent.min_y);
        let longer = if across < down { down } else { across };
        let scale = if longer > 0.0 {
            side_of(count) / longer
        } else {
            1.0
        };
        Frame {
            left,
            top,
            scale,
            width: across * scale + 2.0 * MARGIN,
            height: down * scale + 2.0 * MARGIN,
            pen: pen_of(count),
        }
    }

    /// Where a point stands.
    pub fn spot(&self, point: &Grid) -> Spot {
        let x = nearest_i64_to_f64(point.x()) - self.left;
        let y = self.top - nearest_i64_to_f64(point.y());
        Spot {
            x: x * self.scale + MARGIN,
            y: y * self.scale + MARGIN,
        }
    }
}
