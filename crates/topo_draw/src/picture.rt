// What a picture is made from.
use crate::end::TableEnd;
use crate::frame::{Frame, Spot};
use crate::marks::Marks;
use crate::rings::{Ring, rings_of};
use crate::room::{Patch, Room};
use crate::tables::Tables;
use std::alloc::{AllocError, Global};
use topo_base::{EdgeRow, LayerRow};

/// The tables with what follows from them for a picture.
#[derive(Drop)]
pub struct Picture<'a> {
    pub alloc: Global,
    pub tables: &'a Tables,
    pub rings: Vec<Ring>,
    /// What the features of the layer list, where one is named.
    pub marks: Option<Marks>,
    pub frame: Frame,
    /// The line of each edge, by its place.
    pub lines: Vec<Vec<Spot>>,
    /// What is free for ids.
    pub room: Room,
}

fn line_of(alloc: Global, frame: &Frame, row: &EdgeRow) -> Result<Vec<Spot>, AllocError> {
    let mut spots = Vec::new(alloc);
    for vertex in row.geom.vertices() {
        spots.push(frame.spot(vertex))?;
    }
    Ok(spots)
}

fn lines_of(alloc: Global, frame: &Frame, tables: &Tables) -> Result<Vec<Vec<Spot>>, AllocError> {
    let mut lines = Vec::new(alloc);
    for row in &tables.edges {
        lines.push(line_of(alloc, frame, row)?)?;
    }
    Ok(lines)
}

fn marks_of(
    alloc: Global,
    tables: &Tables,
    layer: Option<&LayerRow>,
) -> Result<Option<Marks>, AllocError> {
    match layer {
        None => Ok(None),
        Some(layer) => Ok(Some(Marks::of(alloc, tables, layer.layer_id.0)?)),
    }
}

impl<'a> Picture<'a> {
    /// The picture of these tables, with the features of a layer.
    pub fn of(
        alloc: Global,
        tables: &'a Tables,
        layer: Option<&LayerRow>,
    ) -> Result<Picture<'a>, TableEnd> {
        let frame = Frame::of(tables);
        Ok(Picture {
            alloc,
            tables,
            rings: rings_of(alloc, tables)?,
            marks: marks_of(alloc, tables, layer)?,
            frame,
            lines: lines_of(alloc, &frame, tables)?,
            room: Room::of(alloc, &frame)?,
        })
    }

    /// How large a node is.
    pub fn radius(&self) -> f64 {
        420.0 * self.frame.pen
    }

    /// Takes the room of all lines.
    pub fn take_lines(&mut self) {
        for spots in &self.lines {
            self.room.take_line(spots);
        }
    }

    /// Takes the room of all nodes.
    pub fn take_nodes(&mut self) {
        let side = 2.0 * self.radius();
        for row in &self.tables.nodes {
            self.room.take(&Patch {
                middle: self.frame.spot(&row.geom),
                width: side,
                height: side,
            });
        }
    }
}
