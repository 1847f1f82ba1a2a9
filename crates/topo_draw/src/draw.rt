// A whole drawing.
ghost use Rattle.std.specs.Prelude.{IfOk, string_bytes};
ghost use Rattle.topo_draw.specs.Picture.{IsPicture};

use crate::areas::{push_face_ids, push_faces};
use crate::end::TableEnd;
use crate::picture::Picture;
use crate::points::{push_marked_nodes, push_node_ids, push_nodes};
use crate::svg::{picture_text, push_group_end, push_ids_head};
use crate::tables::Tables;
use crate::ways::{push_arrows, push_edge_ids, push_edges, push_marked_edges};
use std::alloc::{AllocError, Global};

/// What lies below the ids.
fn push_shapes(svg: &mut String, picture: &Picture<'_>) -> Result<(), AllocError> {
    push_faces(svg, picture)?;
    push_marked_edges(svg, picture)?;
    push_edges(svg, picture)?;
    push_arrows(svg, picture)?;
    push_marked_nodes(svg, picture)?;
    push_nodes(svg, picture)
}

/// The ids: those of faces first, since they find fewer places.
fn push_ids(svg: &mut String, picture: &mut Picture<'_>) -> Result<(), AllocError> {
    picture.take_lines();
    picture.take_nodes();
    push_ids_head(svg, picture.frame.pen)?;
    push_face_ids(svg, picture)?;
    push_node_ids(svg, picture)?;
    push_edge_ids(svg, picture)?;
    push_group_end(svg)
}

/// The elements of the drawing of these tables, with the features of a layer.
fn elements(picture: &mut Picture<'_>) -> Result<String, AllocError> {
    let mut svg = String::new(picture.alloc);
    push_shapes(&mut svg, picture)?;
    push_ids(&mut svg, picture)?;
    Ok(svg)
}

/// The text of the drawing of these tables, with the features of the layer of this name.
pub fn drawing(alloc: Global, tables: &Tables, layer: Option<&[u8]>) -> Result<String, TableEnd>
    ensures { IfOk result (λ svg. IsPicture (string_bytes svg)) }
{
    let layer = match layer {
        None => None,
        Some(name) => match tables.layer_named(name) {
            None => return Err(TableEnd::NoLayer),
            found => found,
        },
    };
    let mut picture = Picture::of(alloc, tables, layer)?;
    let elements = elements(&mut picture)?;
    match picture_text(alloc, &picture.frame, elements.as_str()) {
        Ok(svg) => Ok(svg),
        Err(_) => Err(TableEnd::Memory),
    }
}
