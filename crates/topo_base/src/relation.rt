/// How two segments lie to one another.
#[derive(Clone, Copy, Debug, PartialEq, Eq)]
pub enum Relation {
    /// They have no common point.
    Apart,
    /// They have one common point, and it is an end of both.
    TouchEnds,
    /// They have one common point, and it is not an end of both.
    Meet,
    /// They have more than one common point.
    Overlap,
}

/// On which side of a straight line, seen along a segment on it, a point lies.
#[derive(Clone, Copy, Debug, PartialEq, Eq)]
pub enum Side {
    Left,
    On,
    Right,
}
