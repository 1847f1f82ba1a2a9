// The rows of a dump, from the words behind the first.
ghost use Rattle.std.specs.Prelude.{◌≡◌, ◌&&◌, Some, codes};
ghost use Rattle.std.specs.Str.{bytes_eq};
ghost use Rattle.table_dump.specs.Lines.{words_of, words_behind};
ghost use Rattle.table_dump.specs.Words.{Gives, whole};
ghost use Rattle.table_dump.specs.Rows.{alone, next_in, counters_at, node_at, edge_at, face_at, layer_at, feature_at, relation_at, is_universal};

use crate::ends::LineEnd;
use crate::fields::{dart, kind, line, mbr, name, named_id, next_id, option_id, own_id, point};
use crate::pieces::{front_word, next_word};
use std::alloc::Global;
use topo_base::{
    Counters, Dart, EdgeId, EdgeRow, FaceId, FaceRow, FeatureId, FeatureRow, Grid, LayerId,
    LayerRow, NodeId, RelationRow,
};

/// Something that was read, where no word is left behind it.
fn ended<T: Drop>(read: T, rest: &[u8]) -> Result<T, LineEnd>
    ensures { Gives (λ x. x) result (whole (read, words_behind rest.now)) }
{
    match rest {
        [] => Ok(read),
        [_, ..] => Err(LineEnd::Bad),
    }
}

#[tactic(auto, unfolding(crate::specs::Rows::counters_at))]
fn counters(words: &[u8]) -> Result<Counters, LineEnd>
    ensures { Gives (λ x. x) result (alone counters_at (words_behind words.now)) }
{
    let (node, rest) = next_id(words)?;
    let (edge, rest) = next_id(rest)?;
    let (face, rest) = next_id(rest)?;
    let (layer, rest) = next_id(rest)?;
    let (feature, rest) = next_id(rest)?;
    let next = Counters {
        node,
        edge,
        face,
        layer,
        feature,
    };
    ended(next, rest)
}

/// The next ids, where the line is that of these.
#[tactic(auto, unfolding(crate::specs::Rows::next_in))]
pub fn read_next(line: &[u8]) -> Result<Counters, LineEnd>
    ensures { Gives (λ x. x) result (next_in (words_of line.now)) }
{
    let (first, words) = front_word(line);
    if first == b"next".as_slice() {
        counters(words)
    } else {
        Err(LineEnd::Bad)
    }
}

/// A node's id, containing face and point.
#[derive(Clone, Copy)]
pub struct NodeFields {
    pub id: u32,
    pub face: Option<u32>,
    pub geom: Grid,
}

#[tactic(auto, unfolding(crate::specs::Rows::node_at))]
pub fn node_fields(words: &[u8]) -> Result<NodeFields, LineEnd>
    ensures { Gives (λ x. record { node_id = x.id; containing_face = x.face; geom = x.geom }) result (alone node_at (words_behind words.now)) }
{
    let (id, rest) = own_id(words)?;
    let (face, rest) = option_id(rest)?;
    match point(rest) {
        Ok((geom, rest)) => ended(NodeFields { id, face, geom }, rest),
        Err(end) => Err(end),
    }
}

/// An edge as it is walked.
fn dart_of(edge: u32, forward: bool) -> Dart
    ensures { result ≡ record { edge = edge; forward = forward } }
{
    Dart {
        edge: EdgeId(edge),
        forward,
    }
}

#[tactic(auto, unfolding(crate::specs::Rows::edge_at))]
pub fn edge_row(alloc: Global, words: &[u8]) -> Result<EdgeRow, LineEnd>
    ensures { Gives (λ x. x) result (alone edge_at (words_behind words.now)) }
{
    let (edge, rest) = own_id(words)?;
    let (start, rest) = named_id(rest)?;
    let (end, rest) = named_id(rest)?;
    let (next_left, is_left_forward, rest) = dart(rest)?;
    let (next_right, is_right_forward, rest) = dart(rest)?;
    let (left, rest) = named_id(rest)?;
    let (right, rest) = named_id(rest)?;
    match line(alloc, rest) {
        Ok((geom, rest)) => ended(
            EdgeRow {
                edge_id: EdgeId(edge),
                start_node: NodeId(start),
                end_node: NodeId(end),
                next_left_edge: dart_of(next_left, is_left_forward),
                next_right_edge: dart_of(next_right, is_right_forward),
                left_face: FaceId(left),
                right_face: FaceId(right),
                geom,
            },
            rest,
        ),
        Err(end) => Err(end),
    }
}

/// Whether these are the words of face 0.
fn are_universal(id: &[u8], mbr: &[u8]) -> bool
    ensures { result ≡ (bytes_eq id.now (codes "0") && bytes_eq mbr.now (codes "-")) }
{
    id == b"0".as_slice() && mbr == b"-".as_slice()
}

/// Whether the words are those of face 0.
pub fn is_face_0(words: &[u8]) -> bool
    ensures { result ≡ is_universal (words_behind words.now) }
{
    let Some((id, rest)) = next_word(words) else {
        return false;
    };
    let Some((mbr, rest)) = next_word(rest) else {
        return false;
    };
    match rest {
        [] => are_universal(id, mbr),
        [_, ..] => false,
    }
}

#[tactic(auto, unfolding(crate::specs::Rows::face_at))]
pub fn face_row(words: &[u8]) -> Result<FaceRow, LineEnd>
    ensures { Gives (λ x. x) result (alone face_at (words_behind words.now)) }
{
    let (id, rest) = own_id(words)?;
    let (mbr, rest) = mbr(rest)?;
    let row = FaceRow {
        face_id: FaceId(id),
        mbr: Some(mbr),
    };
    ended(row, rest)
}

/// A layer as it may be named.
fn layer_of(id: Option<u32>) -> Option<LayerId>
    ensures { result ≡ id }
{
    match id {
        None => None,
        Some(id) => Some(LayerId(id)),
    }
}

#[tactic(auto, unfolding(crate::specs::Rows::layer_at))]
pub fn layer_row(alloc: Global, words: &[u8]) -> Result<LayerRow, LineEnd>
    ensures { Gives (λ x. x) result (alone layer_at (words_behind words.now)) }
{
    let (id, rest) = own_id(words)?;
    let (level, rest) = named_id(rest)?;
    let (child, rest) = option_id(rest)?;
    let (feature_type, rest) = kind(rest)?;
    match name(alloc, rest) {
        Ok((name, rest)) => ended(
            LayerRow {
                layer_id: LayerId(id),
                level,
                child_id: layer_of(child),
                feature_type,
                name,
            },
            rest,
        ),
        Err(end) => Err(end),
    }
}

#[tactic(auto, unfolding(crate::specs::Rows::feature_at))]
pub fn feature_row(words: &[u8]) -> Result<FeatureRow, LineEnd>
    ensures { Gives (λ x. x) result (alone feature_at (words_behind words.now)) }
{
    let (id, rest) = own_id(words)?;
    let (layer, rest) = named_id(rest)?;
    let row = FeatureRow {
        feature_id: FeatureId(id),
        layer_id: LayerId(layer),
    };
    ended(row, rest)
}

#[tactic(auto, unfolding(crate::specs::Rows::relation_at))]
pub fn relation_row(words: &[u8]) -> Result<RelationRow, LineEnd>
    ensures { Gives (λ x. x) result (alone relation_at (words_behind words.now)) }
{
    let (feature, rest) = named_id(words)?;
    let (layer, rest) = named_id(rest)?;
    let (element_id, rest) = named_id(rest)?;
    let (element_type, rest) = named_id(rest)?;
    let row = RelationRow {
        topogeo_id: FeatureId(feature),
        layer_id: LayerId(layer),
        element_id,
        element_type,
    };
    ended(row, rest)
}
