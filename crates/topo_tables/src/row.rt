ghost use Rattle.std.specs.Prelude.{◌≡◌, ℕ, IfOk};
ghost use Rattle.drawing.specs.Drawing.{node_id_of, layer_id_of, feature_id_of};
ghost use Rattle.drawing.specs.Writes.{edge_row_id, face_row_id};

use std::alloc::Global;
use topo_base::{EdgeRow, FaceRow, FeatureRow, LayerRow, Memory, NodeRow};

/// A row that has an id of its own.
pub trait Row {
    ghost number: { Self → ℕ };

    fn number(&self) -> u32
        ensures { result ≡ number self.now };

    fn copy(&self, alloc: Global) -> Result<Self, Memory>
        ensures { IfOk result (λ r. r ≡ self.now) };
}

/// A change of a row, which keeps its id.
pub trait Change<R: Row> {
    ghost changed: { Self → R → R };

    fn make(self, row: &mut R)
        ensures { row.new ≡ changed self row.old };

    ghost keeps: { (c : Self) (r : R) → R.number (changed c r) ≡ R.number r };
}

impl Row for NodeRow {
    ghost number = { λ r. node_id_of r };

    fn number(&self) -> u32 {
        self.node_id.0
    }

    fn copy(&self, _: Global) -> Result<Self, Memory> {
        Ok(*self)
    }
}

impl Row for EdgeRow {
    ghost number = { λ r. edge_row_id r };

    fn number(&self) -> u32 {
        self.edge_id.0
    }

    fn copy(&self, alloc: Global) -> Result<Self, Memory> {
        Ok(EdgeRow {
            edge_id: self.edge_id,
            start_node: self.start_node,
            end_node: self.end_node,
            next_left_edge: self.next_left_edge,
            next_right_edge: self.next_right_edge,
            left_face: self.left_face,
            right_face: self.right_face,
            geom: self.geom.copy(alloc)?,
        })
    }
}

impl Row for FaceRow {
    ghost number = { λ r. face_row_id r };

    fn number(&self) -> u32 {
        self.face_id.0
    }

    fn copy(&self, _: Global) -> Result<Self, Memory> {
        Ok(*self)
    }
}

impl Row for LayerRow {
    ghost number = { λ r. layer_id_of r };

    fn number(&self) -> u32 {
        self.layer_id.0
    }

    fn copy(&self, alloc: Global) -> Result<Self, Memory> {
        Ok(LayerRow {
            layer_id: self.layer_id,
            level: self.level,
            child_id: self.child_id,
            feature_type: self.feature_type,
            name: self.name.copy(alloc)?,
        })
    }
}

impl Row for FeatureRow {
    ghost number = { λ r. feature_id_of r };

    fn number(&self) -> u32 {
        self.feature_id.0
    }

    fn copy(&self, _: Global) -> Result<Self, Memory> {
        Ok(*self)
    }
}
