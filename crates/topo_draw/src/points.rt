// The nodes of a picture and their ids.
use crate::colours::feature_colour;
use crate::labels::place_at_node;
use crate::picture::Picture;
use crate::svg::{push_circle, push_group_end, push_id, whole};
use std::alloc::AllocError;
use topo_base::NodeRow;

/// A ring round a node that a feature lists.
fn push_marked_node(
    svg: &mut String,
    picture: &Picture<'_>,
    row: &NodeRow,
    feature: u32,
) -> Result<(), AllocError> {
    let colour = feature_colour(feature);
    write!(svg, "<g fill=\"{colour}\">")?;
    let at = picture.frame.spot(&row.geom);
    push_circle(svg, &at, 2.2 * picture.radius(), "feature", feature)?;
    push_group_end(svg)
}

/// The nodes that features of the layer list, larger and below the others.
pub fn push_marked_nodes(svg: &mut String, picture: &Picture<'_>) -> Result<(), AllocError> {
    let Some(marks) = &picture.marks else {
        return Ok(());
    };
    writeln!(svg, "<g fill-opacity=\"0.7\">")?;
    for (owner, row) in marks.nodes.iter().zip(picture.tables.nodes.iter()) {
        if let Some(feature) = owner {
            push_marked_node(svg, picture, row, *feature)?;
        }
    }
    push_group_end(svg)
}

/// The nodes that are isolated, or those that aren't.
fn push_these(
    svg: &mut String,
    picture: &Picture<'_>,
    are_isolated: bool,
    radius: f64,
) -> Result<(), AllocError> {
    for row in &picture.tables.nodes {
        if row.containing_face.is_some() == are_isolated {
            let at = picture.frame.spot(&row.geom);
            push_circle(svg, &at, radius, "node", row.node_id.0)?;
        }
    }
    push_group_end(svg)
}

/// All nodes: full circles, and hollow ones for isolated nodes.
pub fn push_nodes(svg: &mut String, picture: &Picture<'_>) -> Result<(), AllocError> {
    writeln!(svg, "<g fill=\"#14202b\">")?;
    push_these(svg, picture, false, picture.radius())?;
    let width = whole(200.0 * picture.frame.pen);
    writeln!(
        svg,
        "<g fill=\"#ffffff\" stroke=\"#14202b\" stroke-width=\"{width}\">"
    )?;
    push_these(svg, picture, true, picture.radius())
}

/// How high the id of a node is.
fn size_of(picture: &Picture<'_>) -> f64 {
    1250.0 * picture.frame.pen
}

/// The id of a node, where there is room.
fn push_node_id(
    svg: &mut String,
    picture: &mut Picture<'_>,
    row: &NodeRow,
) -> Result<(), AllocError> {
    let size = size_of(picture);
    let at = picture.frame.spot(&row.geom);
    let radius = picture.radius();
    match place_at_node(&mut picture.room, &at, row.node_id.0, radius, size) {
        Some(patch) => push_id(svg, &patch, size, row.node_id.0),
        None => Ok(()),
    }
}

/// The ids of the nodes.
pub fn push_node_ids(svg: &mut String, picture: &mut Picture<'_>) -> Result<(), AllocError> {
    let size = whole(size_of(picture));
    writeln!(svg, "<g font-size=\"{size}\" fill=\"#14202b\">")?;
    let tables = picture.tables;
    for row in &tables.nodes {
        push_node_id(svg, picture, row)?;
    }
    push_group_end(svg)
}
