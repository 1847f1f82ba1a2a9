// The faces of a picture, and their ids.
use crate::colours::{face_colour, feature_colour};
use crate::inside::{place_inside, sides_of};
use crate::labels::{height_of, width_of};
use crate::picture::Picture;
use crate::rings::{Ring, Step, rings_of_face};
use crate::room::Patch;
use crate::svg::{push_back, push_group_end, push_id, push_more, push_move, whole};
use std::alloc::AllocError;

/// The way of a step, behind its first spot.
fn push_step(svg: &mut String, picture: &Picture<'_>, step: &Step) -> Result<(), AllocError> {
    match picture.lines.get(step.place).map(|spots| spots.as_slice()) {
        Some([_, rest @ ..]) if step.forward => push_more(svg, rest),
        Some([front @ .., _]) => push_back(svg, front),
        _ => Ok(()),
    }
}

/// The first spot of a step.
fn push_start(svg: &mut String, picture: &Picture<'_>, step: &Step) -> Result<(), AllocError> {
    match picture.lines.get(step.place).map(|spots| spots.as_slice()) {
        Some([first, ..]) if step.forward => push_move(svg, 'M', first),
        Some([.., last]) => push_move(svg, 'M', last),
        _ => Ok(()),
    }
}

/// A closed part of a path, along a ring.
fn push_ring(svg: &mut String, picture: &Picture<'_>, ring: &Ring) -> Result<(), AllocError> {
    if let Some(first) = ring.steps.first() {
        push_start(svg, picture, first)?;
    }
    for step in &ring.steps {
        push_step(svg, picture, step)?;
    }
    write!(svg, "Z")
}

fn push_rings(svg: &mut String, picture: &Picture<'_>, rings: &[Ring]) -> Result<(), AllocError> {
    for ring in rings {
        push_ring(svg, picture, ring)?;
    }
    Ok(())
}

/// The feature that lists the face of this place, where a layer is shown.
fn owner_of(picture: &Picture<'_>, place: usize) -> Option<u32> {
    match &picture.marks {
        Some(marks) => marks.faces.get(place).copied().flatten(),
        None => None,
    }
}

/// The colour of the face of this place: that of the feature that lists it, where a layer is shown.
fn colour_of(picture: &Picture<'_>, place: usize, face: u32) -> &'static str {
    if picture.marks.is_none() {
        return face_colour(face);
    }
    match owner_of(picture, place) {
        Some(feature) => feature_colour(feature),
        None => "#efefef",
    }
}

/// The title of a face.
fn push_title(
    svg: &mut String,
    picture: &Picture<'_>,
    place: usize,
    face: u32,
) -> Result<(), AllocError> {
    match owner_of(picture, place) {
        Some(feature) => write!(svg, "<title>face {face}, feature {feature}</title>"),
        None => write!(svg, "<title>face {face}</title>"),
    }
}

/// A face: its area is that of all its rings, where each crossing goes from inside to outside or back.
fn push_face(
    svg: &mut String,
    picture: &Picture<'_>,
    place: usize,
    face: u32,
) -> Result<(), AllocError> {
    let rings = rings_of_face(&picture.rings, face);
    if face == 0 || rings.is_empty() {
        return Ok(());
    }
    let colour = colour_of(picture, place, face);
    write!(svg, "<path fill=\"{colour}\" d=\"")?;
    push_rings(svg, picture, rings)?;
    write!(svg, "\">")?;
    push_title(svg, picture, place, face)?;
    writeln!(svg, "</path>")
}

/// All faces but face 0.
pub fn push_faces(svg: &mut String, picture: &Picture<'_>) -> Result<(), AllocError> {
    let opacity = if picture.marks.is_none() { "1" } else { "0.6" };
    writeln!(svg, "<g fill-rule=\"evenodd\" fill-opacity=\"{opacity}\">")?;
    for (place, row) in picture.tables.faces.iter().enumerate() {
        push_face(svg, picture, place, row.face_id.0)?;
    }
    push_group_end(svg)
}

/// How high the id of a face is.
fn size_of(picture: &Picture<'_>) -> f64 {
    1700.0 * picture.frame.pen
}

/// Where the id of a face has room.
fn place_of_id(picture: &Picture<'_>, face: u32) -> Result<Option<Patch>, AllocError> {
    let rings = rings_of_face(&picture.rings, face);
    if face == 0 || rings.is_empty() {
        return Ok(None);
    }
    let size = size_of(picture);
    let sides = sides_of(picture.alloc, rings, &picture.lines)?;
    let (width, height) = (width_of(face, size), height_of(size));
    place_inside(picture.alloc, &sides, &picture.room, width, height)
}

/// The id of a face, where there is room.
fn push_face_id(svg: &mut String, picture: &mut Picture<'_>, face: u32) -> Result<(), AllocError> {
    let size = size_of(picture);
    match place_of_id(picture, face)? {
        Some(patch) => {
            picture.room.take(&patch);
            push_id(svg, &patch, size, face)
        }
        None => Ok(()),
    }
}

/// The ids of the faces.
pub fn push_face_ids(svg: &mut String, picture: &mut Picture<'_>) -> Result<(), AllocError> {
    let size = whole(size_of(picture));
    writeln!(
        svg,
        "<g font-size=\"{size}\" font-weight=\"bold\" fill=\"#4a5560\">"
    )?;
    let tables = picture.tables;
    for row in &tables.faces {
        push_face_id(svg, picture, row.face_id.0)?;
    }
    push_group_end(svg)
}
