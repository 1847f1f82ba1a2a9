// The elements of SVG that a drawing is made of.
ghost use Rattle.std.specs.Prelude.{IfOk, string_bytes};
ghost use Rattle.topo_draw.specs.Picture.{IsPicture};

use crate::frame::{Frame, Spot};
use crate::room::Patch;
use std::alloc::{AllocError, Global};
use std::num::saturating_f64_to_i64;

/// A coordinate or a length in whole units of the picture.
pub fn whole(length: f64) -> i64 {
    saturating_f64_to_i64(length.round())
}

/// The attributes and the white ground of a picture.
fn head(alloc: Global, frame: &Frame) -> Result<String, AllocError> {
    let (width, height) = (whole(frame.width), whole(frame.height));
    let (across, down) = (whole(frame.width / 100.0), whole(frame.height / 100.0));
    format!(in alloc;
        "xmlns=\"http://www.w3.org/2000/svg\" viewBox=\"0 0 {width} {height}\" width=\"{across}\" height=\"{down}\">\n<rect width=\"100%\" height=\"100%\" fill=\"#ffffff\"/>\n"
    )
}

/// The text of a picture that is made of these elements.
pub fn picture_text(alloc: Global, frame: &Frame, elements: &str) -> Result<String, AllocError>
    ensures { IfOk result (λ svg. IsPicture (string_bytes svg)) }
{
    let head = head(alloc, frame)?;
    let mut svg = String::from_str(alloc, "<svg ")?;
    svg.push_str(head.as_str())?;
    svg.push_str(elements)?;
    svg.push_str("</svg>\n")?;
    Ok(svg)
}

/// Opens the group of all ids, which have a white border.
pub fn push_ids_head(svg: &mut String, pen: f64) -> Result<(), AllocError> {
    let width = whole(300.0 * pen);
    writeln!(
        svg,
        "<g font-family=\"Helvetica,Arial,sans-serif\" text-anchor=\"middle\" stroke=\"#ffffff\" stroke-opacity=\"0.75\" stroke-width=\"{width}\" stroke-linejoin=\"round\" paint-order=\"stroke\">"
    )
}

pub fn push_group_end(svg: &mut String) -> Result<(), AllocError> {
    writeln!(svg, "</g>")
}

/// A spot of a path, behind a letter.
pub fn push_move(svg: &mut String, letter: char, spot: &Spot) -> Result<(), AllocError> {
    let (x, y) = (whole(spot.x), whole(spot.y));
    write!(svg, "{letter}{x} {y}")
}

/// The spots of a path.
pub fn push_spots(svg: &mut String, spots: &[Spot]) -> Result<(), AllocError> {
    let mut letter = 'M';
    for spot in spots {
        push_move(svg, letter, spot)?;
        letter = 'L';
    }
    Ok(())
}

/// More spots of a path.
pub fn push_more(svg: &mut String, spots: &[Spot]) -> Result<(), AllocError> {
    for spot in spots {
        push_move(svg, 'L', spot)?;
    }
    Ok(())
}

/// More spots of a path, from the last to the first.
pub fn push_back(svg: &mut String, spots: &[Spot]) -> Result<(), AllocError> {
    for spot in spots.iter().rev() {
        push_move(svg, 'L', spot)?;
    }
    Ok(())
}

/// A circle, and the word and id of what it shows.
pub fn push_circle(
    svg: &mut String,
    at: &Spot,
    radius: f64,
    word: &str,
    id: u32,
) -> Result<(), AllocError> {
    let (x, y, r) = (whole(at.x), whole(at.y), whole(radius));
    writeln!(
        svg,
        "<circle cx=\"{x}\" cy=\"{y}\" r=\"{r}\"><title>{word} {id}</title></circle>"
    )
}

/// An id in the middle of a box.
pub fn push_id(svg: &mut String, patch: &Patch, size: f64, id: u32) -> Result<(), AllocError> {
    let x = whole(patch.middle.x);
    let y = whole(patch.middle.y + 0.36 * size);
    writeln!(svg, "<text x=\"{x}\" y=\"{y}\">{id}</text>")
}
