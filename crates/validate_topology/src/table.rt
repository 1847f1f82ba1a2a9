ghost use Rattle.std.specs.Prelude.{◌≡◌, ◌<◌, ◌++◌, ◌∷◌, [], ℕ, nat_lt, IsTrue, IfOk, IfSome, OnErr, length, slice_get, option_and_then, if◌then◌else◌};
ghost use Rattle.std.specs.Option.{option_copied};
ghost use Rattle.drawing.specs.Rows.{has_row, row_at};
ghost use Rattle.validate_topology.specs.Ascending.{last_number, numbers_ascend};

use std::alloc::Global;
use std::marker::Model;
use topo_base::{EdgeRow, FaceRow, FeatureRow, LayerRow, Memory, NodeRow};

/// A row that has an id of its own.
pub trait Row {
    ghost number: { Self → ℕ };

    fn number(&self) -> u32
        ensures { result ≡ number self.now };
}

impl Row for NodeRow {
    ghost number = { λ r. r.node_id };

    fn number(&self) -> u32 {
        self.node_id.0
    }
}

impl Row for EdgeRow {
    ghost number = { λ r. r.edge_id };

    fn number(&self) -> u32 {
        self.edge_id.0
    }
}

impl Row for FaceRow {
    ghost number = { λ r. r.face_id };

    fn number(&self) -> u32 {
        self.face_id.0
    }
}

impl Row for LayerRow {
    ghost number = { λ r. r.layer_id };

    fn number(&self) -> u32 {
        self.layer_id.0
    }
}

impl Row for FeatureRow {
    ghost number = { λ r. r.feature_id };

    fn number(&self) -> u32 {
        self.feature_id.0
    }
}

/// The rows of one kind, whose ids ascend from 1 on. Contracts see the list of them.
#[derive(Drop)]
pub struct Rows<R: Row + Drop> {
    rows: Vec<R>,
    last: u32,
}

impl<R: Row + Drop> Model for Rows<R> {
    ghost use Rattle.std.specs.Prelude.{◌≡◌, List, IsTrue};
    ghost use Rattle.validate_topology.specs.Ascending.{last_number, numbers_ascend};

    ghost Value = { List R };

    ghost view = { λ t. t.rows.items };

    ghost invariant = { λ t. IsTrue (numbers_ascend R.number 0 t.rows.items) × (t.last ≡ last_number R.number 0 t.rows.items) };
}

impl<R: Row + Drop> Rows<R> {
    /// No rows. Takes no memory.
    pub fn new(alloc: Global) -> Rows<R>
        ensures { result ≡ [] }
    {
        Rows {
            rows: Vec::new(alloc),
            last: 0,
        }
    }

    /// The rows in order.
    pub fn rows(&self) -> &[R]
        ensures rows { result.now ≡ self.now }
        ensures ascend { IsTrue (numbers_ascend R.number 0 self.now) }
    {
        &self.rows
    }

    /// Puts a row behind the others, where its id is greater than theirs, and says whether it was.
    pub fn push(&mut self, row: R) -> Result<bool, Memory>
        ensures greater { IfOk result (λ b. b ≡ nat_lt (last_number R.number 0 self.old) (R.number row)) }
        ensures rows { IfOk result (λ b. self.new ≡ (if b then self.old ++ row ∷ [] else self.old)) }
        ensures err { OnErr result (self.new ≡ self.old) }
    {
        let number = row.number();
        if number <= self.last {
            return Ok(false);
        }
        self.rows.push(row)?;
        self.last = number;
        Ok(true)
    }

    /// The place of the row with this id, counted from 0. None where no row has it.
    pub fn place_of(&self, id: u32) -> Option<usize>
        ensures within { IfSome result (λ i. i < length self.now) }
        ensures lookup { row_at R.number self.now id ≡ option_and_then (slice_get self.now) result }
    {
        let rows = &self.rows;
        rows.binary_search_by(|row| row.number().cmp(&id)).ok()
    }

    /// The row with this id. None where no row has it.
    pub fn get(&self, id: u32) -> Option<&R>
        ensures { option_copied result ≡ row_at R.number self.now id }
    {
        match self.place_of(id) {
            None => None,
            Some(place) => self.rows.get(place),
        }
    }

    /// Whether a row has this id.
    pub fn has(&self, id: u32) -> bool
        ensures { result ≡ has_row R.number self.now id }
    {
        self.get(id).is_some()
    }
}
