// Pairs of nodes and edges that are in each other's way. Pieces stand by how far to the right they begin, so a piece
// is compared with those behind it until one begins beyond its end.
ghost use Rattle.std.specs.Prelude.{◌≡◌, ◌⊎◌, ◌&&◌, ◌==◌, not, Some, None, if◌then◌else◌, IfOk, OnOk, MatchOption, Contains};
ghost use Rattle.validate_topology.specs.declared.conflicts.ConflictKind.TheVariants.{Coincident, Crossing, Inside};
ghost use Rattle.validate_topology.specs.declared.conflicts.Conflict.{Conflict as ConflictValue};
ghost use Rattle.validate_topology.specs.Conflicts.{AreCoincident, AreCrossing, IsConflictOf, IsNodeInside};
ghost use Rattle.validate_topology.specs.Pairs.{AreAllOf};
ghost use Rattle.validate_topology.specs.Pieces.{AreAmong, AreFound, AreFoundOf, AreInOrder, Conflicts as ConflictsOf, IsOfOne, IsOfTwo, IsTheConflict, pair_of as ordered_pair};

use crate::conflicts::{Conflict, ConflictKind, Conflicts, pair_of, pairs_in_order};
use crate::crossing::{is_inside_piece, pieces_cross};
use crate::pairs::IdPair;
use crate::pieces::{Owner, Piece, pieces_of};
use grid_lines::is_same_point;
use std::alloc::Global;
use std::sync::ledger::Ledger;
use topo_base::{EdgeId, EdgeRow, Memory, NodeId, NodeRow, Steps};

/// A conflict, where it holds.
fn conflict_if(holds: bool, kind: ConflictKind, pair: IdPair) -> Option<Conflict>
    ensures { result ≡ (if holds then Some (record { kind = kind; pair = pair }) else None) }
{
    if holds {
        Some(Conflict { kind, pair })
    } else {
        None
    }
}

/// The conflict of two nodes.
fn of_nodes(a: NodeId, b: NodeId, is_same: bool) -> Option<Conflict>
    ensures { result ≡ (if (not (a == b) && is_same) then Some (record { kind = Coincident; pair = ordered_pair a b }) else None) }
{
    conflict_if(
        a.0 != b.0 && is_same,
        ConflictKind::Coincident,
        pair_of(a.0, b.0),
    )
}

/// The conflict of an edge and a node.
fn of_node(edge: EdgeId, node: NodeId, is_inside: bool) -> Option<Conflict>
    ensures { result ≡ (if is_inside then Some (record { kind = Inside; pair = record { first = edge; second = node } }) else None) }
{
    let pair = IdPair {
        first: edge.0,
        second: node.0,
    };
    conflict_if(is_inside, ConflictKind::Inside, pair)
}

/// The conflict of two edges.
fn of_edges(a: EdgeId, b: EdgeId, is_crossed: bool) -> Option<Conflict>
    ensures { result ≡ (if (not (a == b) && is_crossed) then Some (record { kind = Crossing; pair = ordered_pair a b }) else None) }
{
    conflict_if(
        a.0 != b.0 && is_crossed,
        ConflictKind::Crossing,
        pair_of(a.0, b.0),
    )
}

/// The conflict of the owners of two pieces that these pieces show.
fn conflict_of<L: Ledger>(one: &Piece, other: &Piece, steps: &mut Steps<L>) -> Option<Conflict>
    ensures { MatchOption result ((c : ConflictValue) → ConflictsOf one.now other.now c → ⊥) (IsTheConflict one.now other.now) }
{
    match &one.owner {
        Owner::Node(a) => match &other.owner {
            Owner::Node(b) => of_nodes(*a, *b, is_same_point(&one.from, &other.from)),
            Owner::Edge(b, ends) => of_node(*b, *a, is_inside_piece(&one.from, ends, other)),
        },
        Owner::Edge(a, ends) => match &other.owner {
            Owner::Node(b) => of_node(*a, *b, is_inside_piece(&other.from, ends, one)),
            Owner::Edge(b, others) => {
                of_edges(*a, *b, pieces_cross(ends, others, one, other, steps))
            }
        },
    }
}

/// The same, where pieces without a common height have none.
fn level_conflict<L: Ledger>(one: &Piece, other: &Piece, steps: &mut Steps<L>) -> Option<Conflict>
    ensures { MatchOption result ((c : ConflictValue) → ConflictsOf one.now other.now c → ⊥) (IsTheConflict one.now other.now) }
{
    if one.is_level_with(other) {
        conflict_of(one, other, steps)
    } else {
        None
    }
}

/// Puts the conflict of two pieces behind others.
fn compare<L: Ledger>(
    one: &Piece,
    other: &Piece,
    found: &mut Vec<Conflict>,
    steps: &mut Steps<L>,
) -> Result<(), Memory>
    ensures kept { OnOk result (AreAmong found.old.items found.new.items) }
    ensures all { OnOk result ((c : ConflictValue) → ConflictsOf one.now other.now c → Contains found.new.items c) }
    ensures only { OnOk result ((c : ConflictValue) → Contains found.new.items c → Contains found.old.items c ⊎ ConflictsOf one.now other.now c) }
{
    if let Some(conflict) = level_conflict(one, other, steps) {
        found.push(conflict)?;
    }
    Ok(())
}

/// Compares a piece with those behind it, up to the first that begins beyond its end.
fn compare_all<L: Ledger>(
    one: &Piece,
    others: &[Piece],
    found: &mut Vec<Conflict>,
    steps: &mut Steps<L>,
) -> Result<(), Memory>
    requires { AreInOrder others.now }
    ensures kept { OnOk result (AreAmong found.old.items found.new.items) }
    ensures all { OnOk result (AreFoundOf one.now others.now found.new.items) }
    ensures only { OnOk result ((c : ConflictValue) → Contains found.new.items c → Contains found.old.items c ⊎ IsOfOne one.now others.now c) }
{
    for other in others {
        if other.is_beyond(one) {
            return Ok(());
        }
        compare(one, other, found, steps)?;
    }
    Ok(())
}

/// Compares each piece with those behind it.
fn compare_each<L: Ledger>(
    alloc: Global,
    pieces: &[Piece],
    steps: &mut Steps<L>,
) -> Result<Vec<Conflict>, Memory>
    requires { AreInOrder pieces.now }
    ensures all { IfOk result (λ v. AreFound pieces.now v.items) }
    ensures only { IfOk result (λ v. (c : ConflictValue) → Contains v.items c → IsOfTwo pieces.now c) }
{
    let mut found = Vec::new(alloc);
    for index in 0..pieces.len() {
        let (_, others) = pieces.split_at(index + 1);
        compare_all(&pieces[index], others, &mut found, steps)?;
    }
    Ok(found)
}

/// All conflicts of nodes and edges, maybe some of them more than once.
fn all_conflicts<L: Ledger>(
    alloc: Global,
    nodes: &[NodeRow],
    edges: &[EdgeRow],
    steps: &mut Steps<L>,
) -> Result<Vec<Conflict>, Memory>
    ensures all { IfOk result (λ v. (c : ConflictValue) → IsConflictOf nodes.now edges.now c.kind c.pair → Contains v.items c) }
    ensures only { IfOk result (λ v. (c : ConflictValue) → Contains v.items c → IsConflictOf nodes.now edges.now c.kind c.pair) }
{
    let pieces = pieces_of(alloc, nodes, edges)?;
    compare_each(alloc, &pieces, steps)
}

/// All that is in the way of something else, in order.
pub fn conflicts_of<L: Ledger>(
    alloc: Global,
    nodes: &[NodeRow],
    edges: &[EdgeRow],
    steps: &mut Steps<L>,
) -> Result<Conflicts, Memory>
    ensures nodes { IfOk result (λ c. AreAllOf (AreCoincident nodes.now) c.nodes.items) }
    ensures inside { IfOk result (λ c. AreAllOf (IsNodeInside nodes.now edges.now) c.inside.items) }
    ensures edges { IfOk result (λ c. AreAllOf (AreCrossing edges.now) c.edges.items) }
{
    let found = all_conflicts(alloc, nodes, edges, steps)?;
    Ok(Conflicts {
        nodes: pairs_in_order(alloc, &found, ConflictKind::Coincident)?,
        inside: pairs_in_order(alloc, &found, ConflictKind::Inside)?,
        edges: pairs_in_order(alloc, &found, ConflictKind::Crossing)?,
    })
}
