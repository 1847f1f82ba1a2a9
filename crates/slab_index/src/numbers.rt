// Slabs by their numbers.
ghost use Rattle.std.specs.Prelude.{◌≡◌, ◌<◌, ◌≤◌, ◌^◌};
ghost use Rattle.topo_base.specs.Point.{IsCoordinate};
ghost use Rattle.slab_index.specs.Slabs.{leaf, common, slab_of as slab_number};
ghost use Rattle.slab_index.specs.Held.{IsInSlab};

use crate::piece::Piece;

/// How many slabs hold a point.
pub const LEVELS: usize = 43;

/// What is added to a coordinate for the number of its leaf.
const FIRST_LEAF: i64 = (1 << 42) + (1 << 40);

/// The number of the slab that is one unit wide and holds x.
pub fn leaf_of(x: i64) -> u64
    requires { IsCoordinate x }
    ensures { result ≡ leaf x }
{
    (x + FIRST_LEAF).unsigned_abs()
}

/// The number of the smallest slab that holds the leaves of both numbers.
fn common_of(a: u64, b: u64) -> u64
    ensures { result ≡ common 42 a b }
{
    let mut left = a;
    let mut right = b;
    for _ in 0..LEVELS - 1 {
        if left == right {
            return left;
        }
        left /= 2;
        right /= 2;
    }
    left
}

/// The number of the slab of a segment.
pub fn slab_of(piece: &Piece) -> u64
    ensures number { result ≡ slab_number piece.now }
    ensures in_slab { IsInSlab result piece.now }
{
    common_of(leaf_of(piece.start.x()), leaf_of(piece.end.x()))
}
