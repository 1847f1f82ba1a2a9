ghost use Rattle.std.specs.Prelude.{◌≡◌, ◌-ℤ◌, ◌≤◌, ◌^◌, pos};
ghost use Rattle.topo_base.specs.Point.{IsCoordinate};
ghost use Rattle.slab_index.specs.Reach.{top, bottom};

use topo_base::{EdgeId, Grid};

/// A segment of an edge, in the direction of the edge.
#[derive(Clone, Copy, Debug)]
pub struct Piece {
    pub edge: EdgeId,
    pub start: Grid,
    pub end: Grid,
}

/// How far up a segment reaches.
pub fn top_of(piece: &Piece) -> i64
    ensures value { result ≡ top piece.now }
    ensures range { IsCoordinate result }
{
    piece.start.y().max(piece.end.y())
}

/// How far down a segment reaches.
fn bottom_of(piece: &Piece) -> i64
    ensures value { result ≡ bottom piece.now }
    ensures range { IsCoordinate result }
{
    piece.start.y().min(piece.end.y())
}

/// How high a segment is, from its bottom to its top.
pub fn rise_of(piece: &Piece) -> u64
    ensures value { pos result ≡ top piece.now -ℤ bottom piece.now }
    ensures high { result ≤ 2 ^ 41 }
{
    top_of(piece).abs_diff(bottom_of(piece))
}

/// A height that no segment's bottom is below, if none of them is higher than this and each reaches as far up as the
/// given one.
pub fn floor_of(piece: &Piece, rise: u64) -> i64
    requires { rise ≤ 2 ^ 41 }
    ensures { result ≡ top piece.now -ℤ pos rise }
{
    top_of(piece) - rise.cast_signed()
}
