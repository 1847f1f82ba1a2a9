// A row from the words of its line, behind the first.
use crate::flaw::Flaw;
use crate::line::Words;
use std::alloc::Global;
use topo_base::{
    EdgeId, EdgeRow, FaceId, FaceRow, FeatureId, FeatureRow, LayerId, LayerRow, NodeId, NodeRow,
    RelationRow,
};

/// The five next ids, of which nothing is drawn.
pub fn next_ids(words: &mut Words<'_>) -> Result<(), Flaw> {
    for _ in 0..5 {
        words.next_id()?;
    }
    Ok(())
}

pub fn node_row(words: &mut Words<'_>) -> Result<NodeRow, Flaw> {
    Ok(NodeRow {
        node_id: NodeId(words.own_id()?),
        containing_face: words.option()?.map(|face| FaceId(face)),
        geom: words.point()?,
    })
}

pub fn edge_row(alloc: Global, words: &mut Words<'_>) -> Result<EdgeRow, Flaw> {
    Ok(EdgeRow {
        edge_id: EdgeId(words.own_id()?),
        start_node: NodeId(words.count()?),
        end_node: NodeId(words.count()?),
        next_left_edge: words.dart()?,
        next_right_edge: words.dart()?,
        left_face: FaceId(words.count()?),
        right_face: FaceId(words.count()?),
        geom: words.line(alloc)?,
    })
}

/// A row of the faces: the first is that of face 0, which has no box.
pub fn face_row(words: &mut Words<'_>, is_first: bool) -> Result<FaceRow, Flaw> {
    let row = FaceRow {
        face_id: FaceId(words.count()?),
        mbr: words.corners()?,
    };
    if is_first && (row.face_id.0 != 0 || row.mbr.is_some()) {
        return Err(Flaw::NoFaceZero);
    }
    Ok(row)
}

pub fn layer_row(alloc: Global, words: &mut Words<'_>) -> Result<LayerRow, Flaw> {
    Ok(LayerRow {
        layer_id: LayerId(words.own_id()?),
        level: words.count()?,
        child_id: words.option()?.map(|child| LayerId(child)),
        feature_type: words.kind()?,
        name: words.name(alloc)?,
    })
}

pub fn feature_row(words: &mut Words<'_>) -> Result<FeatureRow, Flaw> {
    Ok(FeatureRow {
        feature_id: FeatureId(words.own_id()?),
        layer_id: LayerId(words.count()?),
    })
}

pub fn relation_row(words: &mut Words<'_>) -> Result<RelationRow, Flaw> {
    Ok(RelationRow {
        topogeo_id: FeatureId(words.count()?),
        layer_id: LayerId(words.count()?),
        element_id: words.count()?,
        element_type: words.count()?,
    })
}
