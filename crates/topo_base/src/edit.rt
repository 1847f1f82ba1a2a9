ghost use Rattle.std.specs.Prelude.{◌≡◌, ◌<◌, ◌≤◌, length, OnErr, IfOk, IfErr};

use crate::{EdgeId, FaceId, FeatureId, Grid, Kind, LayerId, Line, Name, NodeId};
use std::marker::Model;

/// An element as a feature lists it: an id, and its type or, in a hierarchical layer, the child layer.
#[derive(Clone, Copy, Debug, PartialEq, Eq)]
pub struct Pair {
    pub id: u32,
    pub element_type: u32,
}

/// At most 4096 elements, as `createtopogeom` lists them.
#[derive(Debug, Drop)]
pub struct PairList {
    pairs: Vec<Pair>,
}

impl Model for PairList {
    ghost use Rattle.std.specs.Prelude.{List, length, ◌≤◌};
    ghost use Rattle.topo_base.specs.declared.edit.Pair.{Pair};

    ghost Value = { List Pair };

    ghost view = { λ l. l.pairs.items };

    ghost invariant = { λ l. length l.pairs.items ≤ 4096 };
}

impl PairList {
    /// The list of these pairs, or the pairs where there are more than 4096.
    pub fn of(pairs: Vec<Pair>) -> Result<PairList, Vec<Pair>>
        ensures list { IfOk result (λ l. l ≡ pairs.items) }
        ensures back { IfErr result (λ v. v ≡ pairs) }
        ensures long { OnErr result (4096 < length pairs.items) }
    {
        if pairs.len() > 4096 {
            Err(pairs)
        } else {
            Ok(PairList { pairs })
        }
    }

    pub fn pairs(&self) -> &[Pair]
        ensures pairs { result.now ≡ self.now }
        ensures short { length self.now ≤ 4096 }
    {
        &self.pairs
    }
}

/// One edit of a topology.
#[derive(Debug, Drop)]
pub enum Edit {
    AddIsoNode {
        face: Option<FaceId>,
        geom: Grid,
    },
    MoveIsoNode {
        node: NodeId,
        geom: Grid,
    },
    RemoveIsoNode {
        node: NodeId,
    },
    AddIsoEdge {
        start: NodeId,
        end: NodeId,
        line: Line,
    },
    RemoveIsoEdge {
        edge: EdgeId,
    },
    AddEdgeModFace {
        start: NodeId,
        end: NodeId,
        line: Line,
    },
    AddEdgeNewFaces {
        start: NodeId,
        end: NodeId,
        line: Line,
    },
    RemEdgeModFace {
        edge: EdgeId,
    },
    RemEdgeNewFace {
        edge: EdgeId,
    },
    ModEdgeSplit {
        edge: EdgeId,
        geom: Grid,
    },
    NewEdgesSplit {
        edge: EdgeId,
        geom: Grid,
    },
    ModEdgeHeal {
        edge: EdgeId,
        other: EdgeId,
    },
    NewEdgeHeal {
        edge: EdgeId,
        other: EdgeId,
    },
    AddLayer {
        name: Name,
        kind: Kind,
        child: Option<LayerId>,
    },
    CreateTopoGeom {
        layer: LayerId,
        elements: PairList,
    },
    AddElement {
        feature: FeatureId,
        id: u32,
        element_type: u32,
    },
    RemElement {
        feature: FeatureId,
        id: u32,
        element_type: u32,
    },
    DropFeature {
        feature: FeatureId,
    },
}

/// An accepted edit, and who made it.
#[derive(Debug, Drop)]
pub struct Entry {
    pub editor: u32,
    pub edit: Edit,
}
