// What the features of a layer list.
use crate::tables::Tables;
use std::alloc::{AllocError, Global};
use topo_base::RelationRow;

/// By the place of a row: the feature that lists it, and the one with the least id where several do.
pub type Owners = Vec<Option<u32>>;

/// The nodes, edges and faces to which the features of a layer descend.
#[derive(Drop)]
pub struct Marks {
    pub nodes: Owners,
    pub edges: Owners,
    pub faces: Owners,
}

/// Names the owner of a place that has none.
fn own(owners: &mut Owners, place: Option<usize>, owner: u32) {
    if let Some(place) = place
        && let Some(slot) = owners.get_mut(place)
        && slot.is_none()
    {
        *slot = Some(owner);
    }
}

fn owner_at(owners: &Owners, place: Option<usize>) -> Option<u32> {
    match place {
        Some(place) => owners.get(place).copied().flatten(),
        None => None,
    }
}

/// The features of a layer, each its own owner.
fn features_of(alloc: Global, tables: &Tables, layer: u32) -> Result<Owners, AllocError> {
    let mut owners = Vec::new(alloc);
    for row in &tables.features {
        let own = row.layer_id.0 == layer;
        owners.push(if own { Some(row.feature_id.0) } else { None })?;
    }
    Ok(owners)
}

/// The features that those of a layer list, with their owners.
fn one_level_down(
    alloc: Global,
    tables: &Tables,
    layer: u32,
    owners: &Owners,
) -> Result<Owners, AllocError> {
    let mut below = vec![in alloc; None; tables.features.len()]?;
    for row in &tables.relations {
        if row.layer_id.0 == layer
            && let Some(owner) = owner_at(owners, tables.feature_place(row.topogeo_id.0))
        {
            own(&mut below, tables.feature_place(row.element_id), owner);
        }
    }
    Ok(below)
}

/// The child of a layer.
fn child_of(tables: &Tables, layer: u32) -> Option<u32> {
    let row = tables.layers.get(tables.layer_place(layer)?)?;
    row.child_id.map(|child| child.0)
}

/// The layer without a child on which a layer stands, and its features with their owners. Layers that stand on one
/// another in a circle are gone round once.
fn lowest_of(alloc: Global, tables: &Tables, layer: u32) -> Result<(u32, Owners), AllocError> {
    let mut lowest = layer;
    let mut owners = features_of(alloc, tables, layer)?;
    for _ in 0..tables.layers.len() {
        if let Some(child) = child_of(tables, lowest) {
            owners = one_level_down(alloc, tables, lowest, &owners)?;
            lowest = child;
        }
    }
    Ok((lowest, owners))
}

impl Marks {
    pub fn none(alloc: Global, tables: &Tables) -> Result<Marks, AllocError> {
        Ok(Marks {
            nodes: vec![in alloc; None; tables.nodes.len()]?,
            edges: vec![in alloc; None; tables.edges.len()]?,
            faces: vec![in alloc; None; tables.faces.len()]?,
        })
    }

    /// Marks the element of a row.
    fn mark(&mut self, tables: &Tables, row: &RelationRow, owner: u32) {
        match row.element_type {
            1 => own(&mut self.nodes, tables.node_place(row.element_id), owner),
            2 => own(&mut self.edges, tables.edge_place(row.element_id), owner),
            3 => own(&mut self.faces, tables.face_place(row.element_id), owner),
            _ => {}
        }
    }

    /// Marks what the features of a layer without a child list.
    fn mark_all(&mut self, tables: &Tables, layer: u32, owners: &Owners) {
        for row in &tables.relations {
            if row.layer_id.0 == layer
                && let Some(owner) = owner_at(owners, tables.feature_place(row.topogeo_id.0))
            {
                self.mark(tables, row, owner);
            }
        }
    }

    /// What the features of a layer list, down through the layers on which it stands.
    pub fn of(alloc: Global, tables: &Tables, layer: u32) -> Result<Marks, AllocError> {
        let mut marks = Marks::none(alloc, tables)?;
        let (lowest, owners) = lowest_of(alloc, tables, layer)?;
        if child_of(tables, lowest).is_none() {
            marks.mark_all(tables, lowest, &owners);
        }
        Ok(marks)
    }
}
