// The edges of a picture, their directions and their ids.
use crate::colours::feature_colour;
use crate::frame::Spot;
use crate::labels::place_at_edge;
use crate::middle::{Middle, middle_of};
use crate::picture::Picture;
use crate::svg::{push_group_end, push_id, push_more, push_move, push_spots, whole};
use std::alloc::AllocError;

/// The edges that features of the layer list, wider and below the others.
pub fn push_marked_edges(svg: &mut String, picture: &Picture<'_>) -> Result<(), AllocError> {
    let Some(marks) = &picture.marks else {
        return Ok(());
    };
    let width = whole(900.0 * picture.frame.pen);
    writeln!(
        svg,
        "<g fill=\"none\" stroke-width=\"{width}\" stroke-opacity=\"0.7\" stroke-linecap=\"round\" stroke-linejoin=\"round\">"
    )?;
    for (owner, spots) in marks.edges.iter().zip(picture.lines.iter()) {
        if let Some(feature) = owner {
            push_marked_edge(svg, spots, *feature)?;
        }
    }
    push_group_end(svg)
}

fn push_marked_edge(svg: &mut String, spots: &[Spot], feature: u32) -> Result<(), AllocError> {
    let colour = feature_colour(feature);
    write!(svg, "<path stroke=\"{colour}\" d=\"")?;
    push_spots(svg, spots)?;
    writeln!(svg, "\"><title>feature {feature}</title></path>")
}

fn push_edge(svg: &mut String, spots: &[Spot], edge: u32) -> Result<(), AllocError> {
    write!(svg, "<path d=\"")?;
    push_spots(svg, spots)?;
    writeln!(svg, "\"><title>edge {edge}</title></path>")
}

/// The lines of all edges.
pub fn push_edges(svg: &mut String, picture: &Picture<'_>) -> Result<(), AllocError> {
    let width = whole(160.0 * picture.frame.pen);
    writeln!(
        svg,
        "<g fill=\"none\" stroke=\"#3c4650\" stroke-width=\"{width}\" stroke-linejoin=\"round\">"
    )?;
    for (row, spots) in picture.tables.edges.iter().zip(picture.lines.iter()) {
        push_edge(svg, spots, row.edge_id.0)?;
    }
    push_group_end(svg)
}

/// How long an arrow is on a segment of this length.
fn arrow_of(picture: &Picture<'_>, length: f64) -> f64 {
    let full = 1000.0 * picture.frame.pen;
    if length < full / 2.0 {
        full / 2.0
    } else if length < full {
        length
    } else {
        full
    }
}

/// An arrow head in the middle of a line, in its direction.
fn push_arrow(svg: &mut String, middle: &Middle, long: f64) -> Result<(), AllocError> {
    let (x, y) = (middle.x * long, middle.y * long);
    let tip = middle.at.moved(0.5 * x, 0.5 * y);
    let left = middle.at.moved(0.4 * y - 0.5 * x, -0.4 * x - 0.5 * y);
    let notch = middle.at.moved(-0.25 * x, -0.25 * y);
    let right = middle.at.moved(-0.4 * y - 0.5 * x, 0.4 * x - 0.5 * y);
    write!(svg, "<path d=\"")?;
    push_move(svg, 'M', &tip)?;
    push_more(svg, &[left, notch, right])?;
    writeln!(svg, "Z\"/>")
}

fn push_arrow_of(
    svg: &mut String,
    picture: &Picture<'_>,
    spots: &[Spot],
) -> Result<(), AllocError> {
    match middle_of(spots) {
        Some(middle) => push_arrow(svg, &middle, arrow_of(picture, middle.length)),
        None => Ok(()),
    }
}

/// The directions of all edges.
pub fn push_arrows(svg: &mut String, picture: &Picture<'_>) -> Result<(), AllocError> {
    writeln!(svg, "<g fill=\"#3c4650\">")?;
    for spots in &picture.lines {
        push_arrow_of(svg, picture, spots)?;
    }
    push_group_end(svg)
}

/// How high the id of an edge is.
fn size_of(picture: &Picture<'_>) -> f64 {
    1200.0 * picture.frame.pen
}

/// The id of the edge of this place, where there is room.
fn push_edge_id(
    svg: &mut String,
    picture: &mut Picture<'_>,
    place: usize,
    edge: u32,
) -> Result<(), AllocError> {
    let size = size_of(picture);
    let Some(middle) = picture.lines.get(place).and_then(|spots| middle_of(spots)) else {
        return Ok(());
    };
    let gap = 0.45 * arrow_of(picture, middle.length) + 150.0 * picture.frame.pen;
    match place_at_edge(&mut picture.room, &middle, edge, gap, size) {
        Some(patch) => push_id(svg, &patch, size, edge),
        None => Ok(()),
    }
}

/// The ids of the edges.
pub fn push_edge_ids(svg: &mut String, picture: &mut Picture<'_>) -> Result<(), AllocError> {
    let size = whole(size_of(picture));
    writeln!(
        svg,
        "<g font-size=\"{size}\" font-style=\"italic\" fill=\"#3c4650\">"
    )?;
    let tables = picture.tables;
    for (place, row) in tables.edges.iter().enumerate() {
        push_edge_id(svg, picture, place, row.edge_id.0)?;
    }
    push_group_end(svg)
}
