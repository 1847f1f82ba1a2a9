ghost use Rattle.std.specs.Prelude.{◌≡◌, ◌++◌, ◌∷◌, [], None, IsTrue, IfOk, OnErr, if◌then◌else◌};
ghost use Rattle.drawing.specs.Relations.{row_before};
ghost use Rattle.validate_topology.specs.RelationOrder.{comes_behind, last_relation, relations_ascend};
ghost use Rattle.validate_topology.specs.Raw.{no_rows};

use crate::table::Rows;
use std::alloc::Global;
use std::marker::Model;
use topo_base::{
    Box4, Counters, EdgeRow, FaceRow, FeatureRow, LayerRow, Memory, NodeRow, RelationRow,
};

/// The rows of the relation table, by feature, then type, then element, each once. Contracts see the list of them.
#[derive(Drop)]
pub struct RelationRows {
    rows: Vec<RelationRow>,
}

impl Model for RelationRows {
    ghost use Rattle.std.specs.Prelude.{List, None, IsTrue};
    ghost use Rattle.topo_base.specs.declared.rows.RelationRow.{RelationRow as RowValue};
    ghost use Rattle.validate_topology.specs.RelationOrder.{relations_ascend};

    ghost Value = { List RowValue };

    ghost view = { λ r. r.rows.items };

    ghost invariant = { λ r. IsTrue (relations_ascend None r.rows.items) };
}

/// Whether a row comes before another: by feature, then by type, then by element.
fn comes_before(a: &RelationRow, b: &RelationRow) -> bool
    ensures { result ≡ row_before a.now b.now }
{
    if a.topogeo_id.0 < b.topogeo_id.0 {
        return true;
    }
    if a.topogeo_id.0 == b.topogeo_id.0 && a.element_type < b.element_type {
        return true;
    }
    a.topogeo_id.0 == b.topogeo_id.0
        && a.element_type == b.element_type
        && a.element_id < b.element_id
}

/// Whether a row comes after the last of others.
fn stands_behind(rows: &[RelationRow], row: &RelationRow) -> bool
    ensures { result ≡ comes_behind (last_relation None rows.now) row.now }
{
    match rows.last() {
        None => true,
        Some(last) => comes_before(last, row),
    }
}

impl RelationRows {
    /// No rows. Takes no memory.
    pub fn new(alloc: Global) -> RelationRows
        ensures { result ≡ [] }
    {
        RelationRows {
            rows: Vec::new(alloc),
        }
    }

    /// The rows in order.
    pub fn rows(&self) -> &[RelationRow]
        ensures rows { result.now ≡ self.now }
        ensures ascend { IsTrue (relations_ascend None self.now) }
    {
        &self.rows
    }

    /// Puts a row behind the others, where it comes after them, and says whether it was.
    pub fn push(&mut self, row: RelationRow) -> Result<bool, Memory>
        ensures behind { IfOk result (λ b. b ≡ comes_behind (last_relation None self.old) row) }
        ensures rows { IfOk result (λ b. self.new ≡ (if b then self.old ++ row ∷ [] else self.old)) }
        ensures err { OnErr result (self.new ≡ self.old) }
    {
        if !stands_behind(&self.rows, &row) {
            return Ok(false);
        }
        self.rows.push(row)?;
        Ok(true)
    }
}

/// The tables as a dump has them: rows with links and boxes, whatever they say. Face 0, which every dump has and
/// which has no box, isn't among the faces.
#[derive(Drop)]
pub struct RawTables {
    pub next: Counters,
    pub nodes: Rows<NodeRow>,
    pub edges: Rows<EdgeRow>,
    pub faces: Rows<FaceRow>,
    pub layers: Rows<LayerRow>,
    pub features: Rows<FeatureRow>,
    pub relations: RelationRows,
}

impl RawTables {
    /// The tables with these next ids, and no rows but face 0. Takes no memory.
    pub fn new(alloc: Global, next: Counters) -> RawTables
        ensures { result ≡ no_rows next }
    {
        RawTables {
            next,
            nodes: Rows::new(alloc),
            edges: Rows::new(alloc),
            faces: Rows::new(alloc),
            layers: Rows::new(alloc),
            features: Rows::new(alloc),
            relations: RelationRows::new(alloc),
        }
    }
}
