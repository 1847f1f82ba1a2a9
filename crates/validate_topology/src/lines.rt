ghost use Rattle.std.specs.Prelude.{◌≡◌, ◌++◌, ◌∷◌, [], OnOk};
ghost use Rattle.validate_topology.specs.OnlyIf.{is_empty};

use std::alloc::Global;
use std::marker::Model;
use topo_base::{Dart, EdgeId, FaceId, FeatureId, LayerId, Memory, NodeId};

/// One line of a report: what is wrong, and where.
#[derive(Clone, Copy, Debug, PartialEq, Eq)]
pub enum ReportLine {
    /// The id of the row isn't below the next id of its table.
    NodePastNext {
        node: NodeId,
    },
    EdgePastNext {
        edge: EdgeId,
    },
    FacePastNext {
        face: FaceId,
    },
    LayerPastNext {
        layer: LayerId,
    },
    FeaturePastNext {
        feature: FeatureId,
    },
    /// The containing face of the node isn't listed.
    NodeWithoutFace {
        node: NodeId,
        face: FaceId,
    },
    /// A start or end node of the edge isn't listed.
    EdgeWithoutNode {
        edge: EdgeId,
        node: NodeId,
    },
    /// A face on a side of the edge isn't listed.
    EdgeWithoutFace {
        edge: EdgeId,
        face: FaceId,
    },
    /// The edge of a link isn't listed.
    EdgeWithoutNext {
        edge: EdgeId,
        next: Dart,
    },
    /// The layer has no child, and a level other than 0.
    LayerLevelWrong {
        layer: LayerId,
    },
    /// The child isn't listed, isn't one level below, or has another type.
    LayerChildWrong {
        layer: LayerId,
        child: LayerId,
    },
    /// Two layers have one name.
    LayerNameTaken {
        layer: LayerId,
        other: LayerId,
    },
    /// The layer of the feature isn't listed.
    FeatureWithoutLayer {
        feature: FeatureId,
        layer: LayerId,
    },
    /// No feature with this id and this layer is listed.
    RelationWithoutFeature {
        feature: FeatureId,
        layer: LayerId,
    },
    /// The type isn't the number of the layer's type, or its child.
    RelationKindWrong {
        feature: FeatureId,
        element_type: u32,
    },
    /// The feature lists face 0.
    RelationUniverse {
        feature: FeatureId,
    },
    /// The element isn't listed.
    RelationWithoutElement {
        feature: FeatureId,
        element: u32,
    },
    /// Two nodes have one point.
    CoincidentNodes {
        node: NodeId,
        other: NodeId,
    },
    /// The first vertex isn't the point of the start node.
    EdgeStartMismatch {
        edge: EdgeId,
        node: NodeId,
    },
    /// The last vertex isn't the point of the end node.
    EdgeEndMismatch {
        edge: EdgeId,
        node: NodeId,
    },
    /// The line of the edge isn't simple.
    EdgeNotSimple {
        edge: EdgeId,
    },
    /// The point of the node lies on the line and is neither its first vertex nor its last.
    EdgeCrossesNode {
        edge: EdgeId,
        node: NodeId,
    },
    /// Two edges have a common point that isn't a first or last vertex of both.
    EdgeCrossesEdge {
        edge: EdgeId,
        other: EdgeId,
    },
    /// The node has an edge and a containing face.
    NodeJoinedWithFace {
        node: NodeId,
        face: FaceId,
    },
    /// The node has neither.
    NodeIsolatedWithoutFace {
        node: NodeId,
    },
    /// The link isn't the edge that is next: `next` is.
    NextLeftWrong {
        edge: EdgeId,
        next: Dart,
    },
    NextRightWrong {
        edge: EdgeId,
        next: Dart,
    },
    /// A dart and the one after it have different faces on their left.
    RingSidesDiffer {
        dart: Dart,
        next: Dart,
    },
    /// The face has so many shells among its rings, and not one, or as face 0 none.
    FaceShells {
        face: FaceId,
        count: u64,
    },
    /// The face above the top vertex of a hole isn't the face of the hole.
    HoleInOtherFace {
        dart: Dart,
        face: FaceId,
    },
    /// The face above an isolated node isn't its containing face.
    NodeInOtherFace {
        node: NodeId,
        face: FaceId,
    },
    /// The box isn't the least one.
    FaceBoxWrong {
        face: FaceId,
    },
}

/// The lines of a report, in order. Contracts see the list of them.
#[derive(Drop)]
pub struct Report {
    lines: Vec<ReportLine>,
}

impl Model for Report {
    ghost use Rattle.std.specs.Prelude.{List};
    ghost use Rattle.validate_topology.specs.declared.lines.ReportLine.{ReportLine as LineValue};

    ghost Value = { List LineValue };

    ghost view = { λ r. r.lines.items };
}

impl Report {
    ghost use Rattle.validate_topology.specs.OnlyIf.{only_if};

    /// No lines. Takes no memory.
    pub fn new(alloc: Global) -> Report
        ensures { result ≡ [] }
    {
        Report {
            lines: Vec::new(alloc),
        }
    }

    /// The lines in order.
    pub fn lines(&self) -> &[ReportLine]
        ensures { result.now ≡ self.now }
    {
        &self.lines
    }

    /// Whether there are none.
    pub fn is_empty(&self) -> bool
        ensures { result ≡ is_empty self.now }
    {
        self.lines.is_empty()
    }

    /// Puts a line last.
    pub fn push(&mut self, line: ReportLine) -> Result<(), Memory>
        ensures { OnOk result (self.new ≡ self.old ++ line ∷ []) }
    {
        self.lines.push(line)?;
        Ok(())
    }

    /// Puts a line last, where what it says holds.
    pub fn push_if(&mut self, holds: bool, line: ReportLine) -> Result<(), Memory>
        ensures { OnOk result (self.new ≡ self.old ++ only_if holds line) }
    {
        if holds {
            return self.push(line);
        }
        Ok(())
    }
}
