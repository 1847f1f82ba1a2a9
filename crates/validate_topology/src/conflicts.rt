// What is in the way of what.
ghost use Rattle.std.specs.Prelude.{◌≡◌, IfOk};
ghost use Rattle.validate_topology.specs.Pairs.{AreAllOf};
ghost use Rattle.validate_topology.specs.Pieces.{IsAmong, pair_of as ordered_pair, pairs_of_kind};

use crate::pairs::{IdPair, in_order};
use std::alloc::Global;
use topo_base::Memory;

/// Two nodes with one point, the smaller id first; an edge and a node inside it; or two edges that cross, the smaller
/// id first.
#[derive(Clone, Copy, Debug, PartialEq, Eq)]
pub enum ConflictKind {
    Coincident,
    Inside,
    Crossing,
}

/// Two rows that are in each other's way.
#[derive(Clone, Copy, Debug)]
pub struct Conflict {
    pub kind: ConflictKind,
    pub pair: IdPair,
}

/// All pairs of rows that are in each other's way, in order and each once.
#[derive(Drop)]
pub struct Conflicts {
    /// Two nodes with one point, the smaller id first.
    pub nodes: Vec<IdPair>,
    /// An edge and a node inside it.
    pub inside: Vec<IdPair>,
    /// Two edges that cross, the smaller id first.
    pub edges: Vec<IdPair>,
}

/// Two ids, the smaller one first.
pub fn pair_of(a: u32, b: u32) -> IdPair
    ensures { result ≡ ordered_pair a b }
{
    IdPair {
        first: a.min(b),
        second: a.max(b),
    }
}

/// The pairs of the conflicts of one kind.
fn pairs_of(
    alloc: Global,
    conflicts: &[Conflict],
    kind: ConflictKind,
) -> Result<Vec<IdPair>, Memory>
    ensures { IfOk result (λ v. v.items ≡ pairs_of_kind kind conflicts.now) }
{
    let mut pairs = Vec::new(alloc);
    for conflict in conflicts {
        if conflict.kind == kind {
            pairs.push(conflict.pair)?;
        }
    }
    Ok(pairs)
}

/// The same in order and each once.
pub fn pairs_in_order(
    alloc: Global,
    conflicts: &[Conflict],
    kind: ConflictKind,
) -> Result<Vec<IdPair>, Memory>
    ensures { IfOk result (λ v. AreAllOf (IsAmong conflicts.now kind) v.items) }
{
    Ok(in_order(pairs_of(alloc, conflicts, kind)?))
}
