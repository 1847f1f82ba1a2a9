// The edits of isolated nodes and edges, read from the bytes behind their tags.
ghost use Rattle.std.specs.Prelude.{ℕ};
ghost use Rattle.topo_base.specs.declared.edit.Edit.TheVariants.{AddIsoNode, MoveIsoNode, RemoveIsoNode, AddIsoEdge, RemoveIsoEdge};
ghost use Rattle.entry_codec.specs.Gives.{Gives};
ghost use Rattle.entry_codec.specs.Reading.{made, both, number_at, option_at, point_at, edge_at, isolated_at};

use crate::CodecEnd;
use crate::parts::{line_of, number_of, option_of, point_of};
use std::alloc::Global;
use topo_base::{EdgeId, Edit, FaceId, NodeId};

/// A node in a face or in any, at a point.
fn add_iso_node(bytes: &[u8]) -> Result<(Edit, &[u8]), CodecEnd>
    ensures { Gives (λ x. (x.0, x.1.now)) result (made (λ p. AddIsoNode p.0 p.1) (both option_at point_at) bytes.now) }
{
    let (face, rest) = option_of(bytes)?;
    let face = face.map(|face| FaceId(face));
    match point_of(rest) {
        Ok((geom, rest)) => Ok((Edit::AddIsoNode { face, geom }, rest)),
        Err(end) => Err(end),
    }
}

/// A node and its new point.
fn move_iso_node(bytes: &[u8]) -> Result<(Edit, &[u8]), CodecEnd>
    ensures { Gives (λ x. (x.0, x.1.now)) result (made (λ p. MoveIsoNode p.0 p.1) (both number_at point_at) bytes.now) }
{
    let (node, rest) = number_of(bytes)?;
    let node = NodeId(node);
    match point_of(rest) {
        Ok((geom, rest)) => Ok((Edit::MoveIsoNode { node, geom }, rest)),
        Err(end) => Err(end),
    }
}

/// A node that goes.
fn remove_iso_node(bytes: &[u8]) -> Result<(Edit, &[u8]), CodecEnd>
    ensures { Gives (λ x. (x.0, x.1.now)) result (made (λ n. RemoveIsoNode n) number_at bytes.now) }
{
    let (node, rest) = number_of(bytes)?;
    let node = NodeId(node);
    Ok((Edit::RemoveIsoNode { node }, rest))
}

/// The ends and the line of an edge.
fn add_iso_edge(alloc: Global, bytes: &[u8]) -> Result<(Edit, &[u8]), CodecEnd>
    ensures { Gives (λ x. (x.0, x.1.now)) result (made (λ p. AddIsoEdge p.0 p.1.0 p.1.1) edge_at bytes.now) }
{
    let (start, rest) = number_of(bytes)?;
    let (end, rest) = number_of(rest)?;
    let start = NodeId(start);
    let end = NodeId(end);
    match line_of(alloc, rest) {
        Ok((line, rest)) => Ok((Edit::AddIsoEdge { start, end, line }, rest)),
        Err(end) => Err(end),
    }
}

/// An edge that goes.
fn remove_iso_edge(bytes: &[u8]) -> Result<(Edit, &[u8]), CodecEnd>
    ensures { Gives (λ x. (x.0, x.1.now)) result (made (λ n. RemoveIsoEdge n) number_at bytes.now) }
{
    let (edge, rest) = number_of(bytes)?;
    let edge = EdgeId(edge);
    Ok((Edit::RemoveIsoEdge { edge }, rest))
}

/// The edit of isolated nodes and edges that has this tag, from the bytes behind it.
#[tactic(auto, unfolding(crate::specs::Reading::isolated_at))]
pub fn isolated_edit(alloc: Global, tag: u8, bytes: &[u8]) -> Result<(Edit, &[u8]), CodecEnd>
    ensures { Gives (λ x. (x.0, x.1.now)) result (isolated_at tag bytes.now) }
{
    match tag {
        1 => add_iso_node(bytes),
        2 => move_iso_node(bytes),
        3 => remove_iso_node(bytes),
        4 => add_iso_edge(alloc, bytes),
        5 => remove_iso_edge(bytes),
        _ => Err(CodecEnd::NoEntry),
    }
}
