ghost use Rattle.std.specs.Prelude.{◌≡◌};
ghost use Rattle.plane.specs.Orientation.{is_straight};
ghost use Rattle.plane.specs.Segment.{is_between, on_segment as is_on_segment};
ghost use Rattle.slab_index.specs.Above.{segment_of};
ghost use Rattle.slab_index.specs.On.{is_found_less};

use crate::heights::area_of;
use crate::piece::Piece;
use crate::visits::Look;
use topo_base::{EdgeId, Grid};

/// The least edge on which a point lies, among those of the segments seen so far.
#[derive(Drop)]
pub struct LookOn {
    pub point: Grid,
    pub least: Option<EdgeId>,
}

fn is_amid(a: i64, m: i64, b: i64) -> bool
    ensures { result ≡ is_between a m b }
{
    (a <= m && m <= b) || (b <= m && m <= a)
}

fn is_aligned(p: &Grid, piece: &Piece) -> bool
    ensures { result ≡ is_straight piece.now.start piece.now.end p.now }
{
    area_of(&piece.start, &piece.end, p) == 0
}

fn is_amid_across(p: &Grid, piece: &Piece) -> bool
    ensures { result ≡ is_between piece.now.start.x p.now.x piece.now.end.x }
{
    is_amid(piece.start.x(), p.x(), piece.end.x())
}

fn is_amid_upward(p: &Grid, piece: &Piece) -> bool
    ensures { result ≡ is_between piece.now.start.y p.now.y piece.now.end.y }
{
    is_amid(piece.start.y(), p.y(), piece.end.y())
}

/// Whether p lies on the closed segment.
fn is_on(p: &Grid, piece: &Piece) -> bool
    ensures { result ≡ is_on_segment p.now (segment_of piece.now) }
{
    is_aligned(p, piece) && is_amid_across(p, piece) && is_amid_upward(p, piece)
}

/// Whether the point lies on the segment, and no segment of an edge with a lesser id, or the same, was found before.
fn is_found(point: &Grid, piece: &Piece, least: &Option<EdgeId>) -> bool
    ensures { result ≡ is_found_less point.now least.now piece.now }
{
    match least {
        None => is_on(point, piece),
        Some(edge) => is_on(point, piece) && piece.edge.0 < edge.0,
    }
}

impl Look for LookOn {
    ghost use Rattle.std.specs.Prelude.{⊤};
    ghost use Rattle.slab_index.specs.On.{with_less};

    ghost with_one = { λ look piece. record look { least = with_less look.point look.least piece } };

    ghost is_sound = { λ _. ⊤ };

    fn see(&mut self, piece: &Piece) {
        if is_found(&self.point, piece, &self.least) {
            self.least = Some(piece.edge);
        }
    }

    fn lowest_top(&self) -> i64 {
        self.point.y()
    }

    fn is_done_at(&self, height: i64) -> bool {
        self.point.y() < height
    }
}
