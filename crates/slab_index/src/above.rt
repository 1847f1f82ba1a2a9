ghost use Rattle.std.specs.Prelude.{◌≡◌};
ghost use Rattle.slab_index.specs.Above.{is_found_lower, dart_beside as dart_left_of};

use crate::heights::{area_of, is_lower, is_over};
use crate::piece::{Piece, top_of};
use crate::visits::Look;
use topo_base::{Dart, Grid};

/// The lowest segment over a point among those seen so far.
#[derive(Drop)]
pub struct LookAbove {
    pub point: Grid,
    pub lowest: Option<Piece>,
}

/// Whether a segment is over the point, and lower there than the lowest one so far, if there is one.
fn is_found(point: &Grid, piece: &Piece, lowest: &Option<Piece>) -> bool
    ensures { result ≡ is_found_lower point.now lowest.now piece.now }
{
    match lowest {
        None => is_over(point, piece),
        Some(other) => is_over(point, piece) && is_lower(point, piece, other),
    }
}

impl Look for LookAbove {
    ghost use Rattle.slab_index.specs.Above.{with_lower, IsFoundOver};

    ghost with_one = { λ look piece. record look { lowest = with_lower look.point look.lowest piece } };

    ghost is_sound = { λ look. IsFoundOver look.point look.lowest };

    fn see(&mut self, piece: &Piece) {
        if is_found(&self.point, piece, &self.lowest) {
            self.lowest = Some(*piece);
        }
    }

    fn lowest_top(&self) -> i64 {
        self.point.y() + 1
    }

    fn is_done_at(&self, height: i64) -> bool {
        match &self.lowest {
            None => false,
            Some(piece) => top_of(piece) < height,
        }
    }
}

/// The segment's dart with p on its left, if p is on one of its sides.
pub fn dart_beside(p: &Grid, piece: &Piece) -> Dart
    ensures { result ≡ dart_left_of p.now piece.now }
{
    Dart {
        edge: piece.edge,
        forward: 0 < area_of(&piece.start, &piece.end, p),
    }
}
