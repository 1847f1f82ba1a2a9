// The edits of edges among others, read from the bytes behind their tags.
ghost use Rattle.std.specs.Prelude.{ℕ};
ghost use Rattle.topo_base.specs.declared.edit.Edit.TheVariants.{AddEdgeModFace, AddEdgeNewFaces, RemEdgeModFace, RemEdgeNewFace, ModEdgeSplit, NewEdgesSplit, ModEdgeHeal, NewEdgeHeal};
ghost use Rattle.entry_codec.specs.Gives.{Gives};
ghost use Rattle.entry_codec.specs.Reading.{made, both, number_at, point_at, edge_at, joined_at};

use crate::CodecEnd;
use crate::parts::{line_of, number_of, point_of};
use std::alloc::Global;
use topo_base::{EdgeId, Edit, NodeId};

/// The ends and the line of an edge that divides a face.
fn add_edge_mod_face(alloc: Global, bytes: &[u8]) -> Result<(Edit, &[u8]), CodecEnd>
    ensures { Gives (λ x. (x.0, x.1.now)) result (made (λ p. AddEdgeModFace p.0 p.1.0 p.1.1) edge_at bytes.now) }
{
    let (start, rest) = number_of(bytes)?;
    let (end, rest) = number_of(rest)?;
    let start = NodeId(start);
    let end = NodeId(end);
    match line_of(alloc, rest) {
        Ok((line, rest)) => Ok((Edit::AddEdgeModFace { start, end, line }, rest)),
        Err(end) => Err(end),
    }
}

/// The ends and the line of an edge that makes two faces of one.
fn add_edge_new_faces(alloc: Global, bytes: &[u8]) -> Result<(Edit, &[u8]), CodecEnd>
    ensures { Gives (λ x. (x.0, x.1.now)) result (made (λ p. AddEdgeNewFaces p.0 p.1.0 p.1.1) edge_at bytes.now) }
{
    let (start, rest) = number_of(bytes)?;
    let (end, rest) = number_of(rest)?;
    let start = NodeId(start);
    let end = NodeId(end);
    match line_of(alloc, rest) {
        Ok((line, rest)) => Ok((Edit::AddEdgeNewFaces { start, end, line }, rest)),
        Err(end) => Err(end),
    }
}

/// An edge that goes, and one face stays.
fn rem_edge_mod_face(bytes: &[u8]) -> Result<(Edit, &[u8]), CodecEnd>
    ensures { Gives (λ x. (x.0, x.1.now)) result (made (λ n. RemEdgeModFace n) number_at bytes.now) }
{
    let (edge, rest) = number_of(bytes)?;
    let edge = EdgeId(edge);
    Ok((Edit::RemEdgeModFace { edge }, rest))
}

/// An edge that goes, and a new face comes.
fn rem_edge_new_face(bytes: &[u8]) -> Result<(Edit, &[u8]), CodecEnd>
    ensures { Gives (λ x. (x.0, x.1.now)) result (made (λ n. RemEdgeNewFace n) number_at bytes.now) }
{
    let (edge, rest) = number_of(bytes)?;
    let edge = EdgeId(edge);
    Ok((Edit::RemEdgeNewFace { edge }, rest))
}

/// An edge and the point that splits it.
fn mod_edge_split(bytes: &[u8]) -> Result<(Edit, &[u8]), CodecEnd>
    ensures { Gives (λ x. (x.0, x.1.now)) result (made (λ p. ModEdgeSplit p.0 p.1) (both number_at point_at) bytes.now) }
{
    let (edge, rest) = number_of(bytes)?;
    let edge = EdgeId(edge);
    match point_of(rest) {
        Ok((geom, rest)) => Ok((Edit::ModEdgeSplit { edge, geom }, rest)),
        Err(end) => Err(end),
    }
}

/// An edge and the point where two new ones meet.
fn new_edges_split(bytes: &[u8]) -> Result<(Edit, &[u8]), CodecEnd>
    ensures { Gives (λ x. (x.0, x.1.now)) result (made (λ p. NewEdgesSplit p.0 p.1) (both number_at point_at) bytes.now) }
{
    let (edge, rest) = number_of(bytes)?;
    let edge = EdgeId(edge);
    match point_of(rest) {
        Ok((geom, rest)) => Ok((Edit::NewEdgesSplit { edge, geom }, rest)),
        Err(end) => Err(end),
    }
}

/// Two edges that become the first.
fn mod_edge_heal(bytes: &[u8]) -> Result<(Edit, &[u8]), CodecEnd>
    ensures { Gives (λ x. (x.0, x.1.now)) result (made (λ p. ModEdgeHeal p.0 p.1) (both number_at number_at) bytes.now) }
{
    let (edge, rest) = number_of(bytes)?;
    let (other, rest) = number_of(rest)?;
    let edge = EdgeId(edge);
    let other = EdgeId(other);
    Ok((Edit::ModEdgeHeal { edge, other }, rest))
}

/// Two edges that become a new one.
fn new_edge_heal(bytes: &[u8]) -> Result<(Edit, &[u8]), CodecEnd>
    ensures { Gives (λ x. (x.0, x.1.now)) result (made (λ p. NewEdgeHeal p.0 p.1) (both number_at number_at) bytes.now) }
{
    let (edge, rest) = number_of(bytes)?;
    let (other, rest) = number_of(rest)?;
    let edge = EdgeId(edge);
    let other = EdgeId(other);
    Ok((Edit::NewEdgeHeal { edge, other }, rest))
}

/// The edit of edges among others that has this tag, from the bytes behind it.
#[tactic(auto, unfolding(crate::specs::Reading::joined_at))]
pub fn joined_edit(alloc: Global, tag: u8, bytes: &[u8]) -> Result<(Edit, &[u8]), CodecEnd>
    ensures { Gives (λ x. (x.0, x.1.now)) result (joined_at tag bytes.now) }
{
    match tag {
        6 => add_edge_mod_face(alloc, bytes),
        7 => add_edge_new_faces(alloc, bytes),
        8 => rem_edge_mod_face(bytes),
        9 => rem_edge_new_face(bytes),
        10 => mod_edge_split(bytes),
        11 => new_edges_split(bytes),
        12 => mod_edge_heal(bytes),
        13 => new_edge_heal(bytes),
        _ => Err(CodecEnd::NoEntry),
    }
}
