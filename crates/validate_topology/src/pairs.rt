// Pairs of rows.
ghost use Rattle.validate_topology.specs.Pairs.{IsInOrder};

/// The ids of two rows.
#[derive(Clone, Copy, Debug, PartialEq, Eq, PartialOrd, Ord)]
pub struct IdPair {
    pub first: u32,
    pub second: u32,
}

/// Pairs of ids in order, each once.
pub fn in_order(mut pairs: Vec<IdPair>) -> Vec<IdPair>
    ensures { IsInOrder pairs.items result.items }
{
    pairs.sort_unstable();
    pairs.dedup();
    pairs
}
