// Segments are shown one by one, from lower to higher tops, to what looks for something among them.
ghost use Rattle.std.specs.Prelude.{◌≡◌, ◌+◌, ◌≤◌, ◌^◌, ◌≤ℤ◌, ◌<ℤ◌, fold, drop, take, length, All, IsTrue};
ghost use Rattle.slab_index.specs.Reach.{top, bottom, IsRising, IsNoHigher};
ghost use Rattle.slab_index.specs.declared.piece.Piece.{Piece as PieceValue};

use crate::piece::{Piece, floor_of, top_of};
use std::sync::ledger::Ledger;
use topo_base::Steps;

/// What looks for something among segments, and keeps what it has found.
pub trait Look {
    ghost with_one: { Self → PieceValue → Self };

    ghost is_sound: { Self → Type 0 };

    /// Sees one segment more.
    fn see(&mut self, piece: &Piece)
        ensures seen { self.new ≡ with_one self.old piece.now }
        ensures sound { is_sound self.old → is_sound self.new };

    /// The least top that a segment which counts may have.
    fn lowest_top(&self) -> i64
        ensures { (e : PieceValue) → top e <ℤ result → with_one self.now e ≡ self.now };

    /// Whether no segment counts that isn't below this height.
    fn is_done_at(&self, height: i64) -> bool
        requires { is_sound self.now }
        ensures { IsTrue result → (e : PieceValue) → height ≤ℤ bottom e → with_one self.now e ≡ self.now };
}

/// How many segments come first that are wholly below a height.
fn count_below(pieces: &[Piece], height: i64) -> usize
    requires { IsRising pieces.now }
    ensures within { result ≤ length pieces.now }
    ensures below { All (λ e. top e <ℤ height) (take result pieces.now) }
{
    pieces.partition_point(|piece| top_of(piece) < height)
}

/// Shows the segments from the one with this index on, but those that don't count, in one step each.
fn see_from<T: Look, L: Ledger>(
    pieces: &[Piece],
    rise: u64,
    first: usize,
    look: &mut T,
    steps: &mut Steps<L>,
)
    requires rising { IsRising pieces.now }
    requires rise { rise ≤ 2 ^ 41 }
    requires all_no_higher { All (IsNoHigher rise) pieces.now }
    requires first { first ≤ length pieces.now }
    requires sound { T.is_sound look.old }
    ensures seen { look.new ≡ fold T.with_one look.old (drop first pieces.now) }
    ensures sound { T.is_sound look.new }
    ensures steps { steps.new ≤ steps.old + length pieces.now }
{
    for i in first..pieces.len() {
        let piece = &pieces[i];
        if look.is_done_at(floor_of(piece, rise)) {
            return;
        }
        steps.tick();
        look.see(piece);
    }
}

/// Shows segments, but those that don't count, in one step each. None of them is higher than this rise.
pub fn see_rising<T: Look, L: Ledger>(
    pieces: &[Piece],
    rise: u64,
    look: &mut T,
    steps: &mut Steps<L>,
)
    requires rising { IsRising pieces.now }
    requires rise { rise ≤ 2 ^ 41 }
    requires all_no_higher { All (IsNoHigher rise) pieces.now }
    requires sound { T.is_sound look.old }
    ensures seen { look.new ≡ fold T.with_one look.old pieces.now }
    ensures sound { T.is_sound look.new }
    ensures steps { steps.new ≤ steps.old + length pieces.now }
{
    let first = count_below(pieces, look.lowest_top());
    see_from(pieces, rise, first, look, steps);
}
