use std::alloc::Global;
use topo_base::{EdgeRow, FaceRow, FeatureRow, LayerRow, NodeRow, RelationRow};

/// The rows of the tables, each table ascending by its ids.
#[derive(Drop)]
pub struct Tables {
    pub nodes: Vec<NodeRow>,
    pub edges: Vec<EdgeRow>,
    pub faces: Vec<FaceRow>,
    pub layers: Vec<LayerRow>,
    pub features: Vec<FeatureRow>,
    pub relations: Vec<RelationRow>,
}

impl Tables {
    pub fn new(alloc: Global) -> Tables {
        Tables {
            nodes: Vec::new(alloc),
            edges: Vec::new(alloc),
            faces: Vec::new(alloc),
            layers: Vec::new(alloc),
            features: Vec::new(alloc),
            relations: Vec::new(alloc),
        }
    }

    /// The place of a node among the nodes.
    pub fn node_place(&self, id: u32) -> Option<usize> {
        self.nodes
            .binary_search_by_key(&id, |row| row.node_id.0)
            .ok()
    }

    /// The place of an edge among the edges.
    pub fn edge_place(&self, id: u32) -> Option<usize> {
        self.edges
            .binary_search_by_key(&id, |row| row.edge_id.0)
            .ok()
    }

    /// The place of a face among the faces.
    pub fn face_place(&self, id: u32) -> Option<usize> {
        self.faces
            .binary_search_by_key(&id, |row| row.face_id.0)
            .ok()
    }

    /// The place of a feature among the features.
    pub fn feature_place(&self, id: u32) -> Option<usize> {
        self.features
            .binary_search_by_key(&id, |row| row.feature_id.0)
            .ok()
    }

    /// The place of the layer with this id among the layers.
    pub fn layer_place(&self, id: u32) -> Option<usize> {
        self.layers
            .binary_search_by_key(&id, |row| row.layer_id.0)
            .ok()
    }

    /// The layer of this name.
    pub fn layer_named(&self, name: &[u8]) -> Option<&LayerRow> {
        self.layers.iter().find(|row| row.name.as_bytes() == name)
    }

    /// The line of the text in which the edge of this place stands, counted from 1: the next ids stand in the first.
    pub fn line_of_edge(&self, place: usize) -> u64 {
        (self.nodes.len() as u64)
            .saturating_add(place as u64)
            .saturating_add(2)
    }
}
