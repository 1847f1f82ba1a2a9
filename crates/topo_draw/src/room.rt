// What is free for ids.
use crate::frame::{Frame, Spot};
use std::alloc::{AllocError, Global};
use std::num::{nearest_i64_to_f64, saturating_f64_to_i64, saturating_f64_to_usize};

/// The number of cells in a row of a picture that is a square, and of rows.
const CELLS: usize = 512;

/// The same number.
const ACROSS: f64 = 512.0;

/// A box in the picture, by its middle and its sides.
#[derive(Clone, Copy)]
pub struct Patch {
    pub middle: Spot,
    pub width: f64,
    pub height: f64,
}

/// Which cells of the picture have something in them.
#[derive(Drop)]
pub struct Room {
    taken: Vec<bool>,
    width: f64,
    height: f64,
    /// The side of a cell.
    cell: f64,
}

/// Where a cell stands among all.
fn place_of(row: usize, column: usize) -> usize {
    row.min(CELLS - 1) * CELLS + column.min(CELLS - 1)
}

impl Room {
    /// A picture with nothing in it.
    pub fn of(alloc: Global, frame: &Frame) -> Result<Room, AllocError> {
        let longer = if frame.width < frame.height {
            frame.height
        } else {
            frame.width
        };
        Ok(Room {
            taken: vec![in alloc; false; CELLS * CELLS]?,
            width: frame.width,
            height: frame.height,
            cell: longer / ACROSS,
        })
    }

    /// The row or column in which a coordinate is.
    fn cell_of(&self, coordinate: f64) -> usize {
        saturating_f64_to_usize(coordinate / self.cell).min(CELLS - 1)
    }

    fn take_cell(&mut self, row: usize, column: usize) {
        if let Some(cell) = self.taken.get_mut(place_of(row, column)) {
            *cell = true;
        }
    }

    /// Takes the cell in which a spot is.
    pub fn take_spot(&mut self, spot: &Spot) {
        let (row, column) = (self.cell_of(spot.y), self.cell_of(spot.x));
        self.take_cell(row, column);
    }

    fn take_columns(&mut self, row: usize, first: usize, last: usize) {
        for column in first..=last {
            self.take_cell(row, column);
        }
    }

    /// Takes the cells of a box.
    pub fn take(&mut self, patch: &Patch) {
        let (left, top) = (
            patch.middle.x - patch.width / 2.0,
            patch.middle.y - patch.height / 2.0,
        );
        let (first, last) = (self.cell_of(left), self.cell_of(left + patch.width));
        for row in self.cell_of(top)..=self.cell_of(top + patch.height) {
            self.take_columns(row, first, last);
        }
    }

    fn are_columns_free(&self, row: usize, first: usize, last: usize) -> bool {
        for column in first..=last {
            if self.taken.get(place_of(row, column)).copied() != Some(false) {
                return false;
            }
        }
        true
    }

    /// Whether a box is in the picture, and nothing is in its cells.
    pub fn is_free(&self, patch: &Patch) -> bool {
        let (left, top) = (
            patch.middle.x - patch.width / 2.0,
            patch.middle.y - patch.height / 2.0,
        );
        let (right, bottom) = (left + patch.width, top + patch.height);
        if left < 0.0 || top < 0.0 || self.width < right || self.height < bottom {
            return false;
        }
        for row in self.cell_of(top)..=self.cell_of(bottom) {
            if !self.are_columns_free(row, self.cell_of(left), self.cell_of(right)) {
                return false;
            }
        }
        true
    }

    /// Takes a box, where it is free. Whether it was.
    pub fn try_take(&mut self, patch: &Patch) -> bool {
        let is_free = self.is_free(patch);
        if is_free {
            self.take(patch);
        }
        is_free
    }

    /// Takes the cells through which a segment goes.
    fn take_segment(&mut self, from: &Spot, to: &Spot) {
        let parts = saturating_f64_to_i64(from.distance(to) / (self.cell / 2.0)).max(1);
        let share = 1.0 / nearest_i64_to_f64(parts);
        let (x, y) = ((to.x - from.x) * share, (to.y - from.y) * share);
        let mut spot = *from;
        for _ in 0..parts {
            spot = spot.moved(x, y);
            self.take_spot(&spot);
        }
    }

    /// Takes the cells through which a line goes.
    pub fn take_line(&mut self, spots: &[Spot]) {
        let mut last: Option<Spot> = None;
        for spot in spots {
            if let Some(before) = last {
                self.take_segment(&before, spot);
            }
            last = Some(*spot);
        }
    }
}
