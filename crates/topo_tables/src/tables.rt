ghost use Rattle.std.specs.Prelude.{◌≡◌, ◌+◌, ◌<◌, ◌^◌, ◌∷◌, IfOk, OnOk, OnErr};
ghost use Rattle.std.specs.List.{list_any};
ghost use Rattle.std.specs.Option.{option_copied};
ghost use Rattle.topo_base.specs.Point.{same_point};
ghost use Rattle.topo_base.specs.declared.rows.NodeRow.{NodeRow as NodeValue};
ghost use Rattle.drawing.specs.Drawing.{nothing_drawn, node_id_of, layer_id_of, feature_id_of, has_face};
ghost use Rattle.drawing.specs.Places.{rows_of, in_slot};
ghost use Rattle.drawing.specs.Rows.{row_at};
ghost use Rattle.drawing.specs.Writes.{edge_row_id, face_row_id, with_node_row};
ghost use Rattle.drawing.specs.Tables.{tables_of, drawn, universal_face};

use crate::places::Places;
use std::alloc::Global;
use std::marker::Model;
use std::sync::ledger::Ledger;
use topo_base::{
    Counters, EdgeId, EdgeRow, FaceId, FaceRow, FeatureId, FeatureRow, Grid, LayerId, LayerRow,
    Memory, NodeId, NodeRow, RelationRow, Steps,
};

/// The tables of a topology: nodes, edges with their links, faces with their boxes, layers,
/// features and relation rows, and the next id of each table. Contracts see the rows ascending by id,
/// and for how many rows more each table has room.
#[derive(Drop)]
pub struct Tables {
    pub(crate) nodes: Places<NodeRow>,
    pub(crate) edges: Places<EdgeRow>,
    /// Face 0, which always is there and has no box.
    pub(crate) universe: FaceRow,
    /// The faces but face 0.
    pub(crate) faces: Places<FaceRow>,
    pub(crate) layers: Places<LayerRow>,
    pub(crate) features: Places<FeatureRow>,
    pub(crate) relations: Vec<RelationRow>,
}

impl Model for Tables {
    ghost use Rattle.std.specs.Prelude.{◌≡◌, ◌∷◌, ◌-◌, vec_len, vec_capacity};
    ghost use Rattle.drawing.specs.Tables.{universal_face};
    ghost use Rattle.topo_tables.specs.Room.{Held};

    ghost Value = { Held };

    ghost view = { λ t. record {
      rows = record {
        next_ids = record { node = t.nodes.next_id; edge = t.edges.next_id; face = t.faces.next_id; layer = t.layers.next_id; feature = t.features.next_id };
        nodes = t.nodes.rows;
        edges = t.edges.rows;
        faces = universal_face ∷ t.faces.rows;
        layers = t.layers.rows;
        features = t.features.rows;
        relations = t.relations.items;
      };
      room = record { nodes = t.nodes.room; edges = t.edges.room; faces = t.faces.room; layers = t.layers.room; features = t.features.room; relations = vec_capacity t.relations - vec_len t.relations };
    } };

    ghost invariant = { λ t. t.universe ≡ universal_face };
}

impl Tables {
    /// Face 0 alone. Takes no memory.
    pub fn empty(alloc: Global) -> Tables
        ensures { result.rows ≡ tables_of nothing_drawn }
    {
        Tables {
            nodes: Places::new(alloc),
            edges: Places::new(alloc),
            universe: FaceRow {
                face_id: FaceId(0),
                mbr: None,
            },
            faces: Places::new(alloc),
            layers: Places::new(alloc),
            features: Places::new(alloc),
            relations: Vec::new(alloc),
        }
    }

    /// The rows of the nodes at the places of their ids, the first of which is 1.
    pub fn nodes(&self) -> &[Option<NodeRow>]
        ensures { rows_of result.now ≡ self.now.rows.nodes }
    {
        self.nodes.slots()
    }

    /// The rows of the edges at the places of their ids, the first of which is 1.
    pub fn edges(&self) -> &[Option<EdgeRow>]
        ensures { rows_of result.now ≡ self.now.rows.edges }
    {
        self.edges.slots()
    }

    /// The rows of the faces but face 0 at the places of their ids, the first of which is 1.
    pub fn faces(&self) -> &[Option<FaceRow>]
        ensures { universal_face ∷ rows_of result.now ≡ self.now.rows.faces }
    {
        self.faces.slots()
    }

    /// The rows of the layers at the places of their ids, the first of which is 1.
    pub fn layers(&self) -> &[Option<LayerRow>]
        ensures { rows_of result.now ≡ self.now.rows.layers }
    {
        self.layers.slots()
    }

    /// The rows of the features at the places of their ids, the first of which is 1.
    pub fn features(&self) -> &[Option<FeatureRow>]
        ensures { rows_of result.now ≡ self.now.rows.features }
    {
        self.features.slots()
    }

    /// The relation rows, ascending by feature, type and element.
    pub fn relations(&self) -> &[RelationRow]
        ensures { result.now ≡ self.now.rows.relations }
    {
        &self.relations
    }

    /// The next id of each table.
    pub fn counters(&self) -> Counters
        ensures { result ≡ self.now.rows.next_ids }
    {
        Counters {
            node: self.nodes.next_id(),
            edge: self.edges.next_id(),
            face: self.faces.next_id(),
            layer: self.layers.next_id(),
            feature: self.features.next_id(),
        }
    }

    /// Whether the face is there.
    pub fn has_face(&self, face: FaceId) -> bool
        ensures { result ≡ has_face (drawn self.now.rows) face }
    {
        face.0 == 0 || self.faces.has(face.0)
    }

    /// The node of this id. None exactly where it isn't there. Takes one step.
    pub fn node<L: Ledger>(&self, id: NodeId, steps: &mut Steps<L>) -> Option<&NodeRow>
        ensures row { option_copied result ≡ row_at node_id_of self.now.rows.nodes id }
        ensures steps { steps.new ≡ steps.old + 1 }
    {
        steps.tick();
        self.nodes.get(id.0)
    }

    /// The edge of this id. None exactly where it isn't there. Takes one step.
    pub fn edge<L: Ledger>(&self, id: EdgeId, steps: &mut Steps<L>) -> Option<&EdgeRow>
        ensures row { option_copied result ≡ row_at edge_row_id self.now.rows.edges id }
        ensures steps { steps.new ≡ steps.old + 1 }
    {
        steps.tick();
        self.edges.get(id.0)
    }

    /// The face of this id. None exactly where it isn't there. Takes one step.
    pub fn face<L: Ledger>(&self, id: FaceId, steps: &mut Steps<L>) -> Option<&FaceRow>
        ensures row { option_copied result ≡ row_at face_row_id self.now.rows.faces id }
        ensures steps { steps.new ≡ steps.old + 1 }
    {
        steps.tick();
        if id.0 == 0 {
            Some(&self.universe)
        } else {
            self.faces.get(id.0)
        }
    }

    /// The layer of this id. None exactly where it isn't there. Takes one step.
    pub fn layer<L: Ledger>(&self, id: LayerId, steps: &mut Steps<L>) -> Option<&LayerRow>
        ensures row { option_copied result ≡ row_at layer_id_of self.now.rows.layers id }
        ensures steps { steps.new ≡ steps.old + 1 }
    {
        steps.tick();
        self.layers.get(id.0)
    }

    /// The feature of this id. None exactly where it isn't there. Takes one step.
    pub fn feature<L: Ledger>(&self, id: FeatureId, steps: &mut Steps<L>) -> Option<&FeatureRow>
        ensures row { option_copied result ≡ row_at feature_id_of self.now.rows.features id }
        ensures steps { steps.new ≡ steps.old + 1 }
    {
        steps.tick();
        self.features.get(id.0)
    }

    /// Tables with the same rows and the same next ids.
    pub fn copy(&self, alloc: Global) -> Result<Tables, Memory>
        ensures { IfOk result (λ t. t.rows ≡ self.now.rows) }
    {
        Ok(Tables {
            nodes: self.nodes.copy(alloc)?,
            edges: self.edges.copy(alloc)?,
            universe: self.universe,
            faces: self.faces.copy(alloc)?,
            layers: self.layers.copy(alloc)?,
            features: self.features.copy(alloc)?,
            relations: Vec::from_slice(alloc, &self.relations)?,
        })
    }
}
