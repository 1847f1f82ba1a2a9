// The slabs that have segments.
ghost use Rattle.std.specs.Prelude.{◌≡◌, All, ◌+◌, ◌<◌, ℕ, Bool, Some, [], ◌∷◌, ◌++◌, not, nat_eq, filter, fold, length, IfOk, OnOk, OnErr, vec_len, vec_capacity, ◌≤◌};
ghost use Rattle.std.specs.HashMap.{get};
ghost use Rattle.std.specs.List.Sorted.{IsPermutation};
ghost use Rattle.slab_index.specs.Reach.{IsRising, IsNoHigher};
ghost use Rattle.slab_index.specs.Path.{in_slab};
ghost use Rattle.slab_index.specs.Pieces.{is_gone as is_one_of, AreTogether, AreChanged};
ghost use Rattle.slab_index.specs.Held.{IsInSlab, IsInRange, IsSlab, AreSlabs, HaveSameNumbers, IsPlaceOf, number_at, all_kept, all_coming};

use crate::numbers::slab_of;
use crate::piece::{Piece, rise_of, top_of};
use crate::visits::{Look, see_rising};
use std::alloc::Global;
use std::collections::HashMap;
use std::marker::Model;
use std::sync::ledger::Ledger;
use topo_base::{EdgeId, Memory, Steps};

/// A slab: the segments that it keeps, from lower to higher tops, and those that come with the change that is staged, for
/// which there is room. None of them is higher than its rise.
#[derive(Drop)]
struct Slab {
    number: u64,
    rise: u64,
    kept: Vec<Piece>,
    coming: Vec<Piece>,
}

/// The slabs that have segments, or had some, and at which place each stands, by its number. Contracts see the segments
/// that are kept and those that come.
#[derive(Drop)]
pub struct Slabs {
    places: HashMap<u64, usize>,
    slabs: Vec<Slab>,
}

impl Model for Slabs {
    ghost use Rattle.std.specs.Prelude.{nat_eq};
    ghost use Rattle.std.specs.HashMap.{get};
    ghost use Rattle.slab_index.specs.Pieces.{Segments};
    ghost use Rattle.slab_index.specs.Held.{AreSlabs, all_kept, all_coming};

    ghost Value = { Segments };

    ghost view = { λ s. record { kept = all_kept s.slabs.items; coming = all_coming s.slabs.items } };

    ghost invariant = { λ s. AreSlabs (get nat_eq s.places) s.slabs.items };
}

fn slab_without_pieces(alloc: Global, number: u64) -> Slab
    ensures number { result.number ≡ number }
    ensures kept { result.kept.items ≡ [] }
    ensures coming { result.coming.items ≡ [] }
    ensures slab { IsSlab result }
{
    Slab {
        number,
        rise: 0,
        kept: Vec::new(alloc),
        coming: Vec::new(alloc),
    }
}

/// The place of the slab of this number, which comes where there is none.
fn place_of(
    places: &mut HashMap<u64, usize>,
    slabs: &mut Vec<Slab>,
    number: u64,
) -> Result<usize, Memory>
    requires { AreSlabs (get nat_eq places.old) slabs.old.items }
    ensures slabs { AreSlabs (get nat_eq places.new) slabs.new.items }
    ensures kept { all_kept slabs.new.items ≡ all_kept slabs.old.items }
    ensures coming { all_coming slabs.new.items ≡ all_coming slabs.old.items }
    ensures place { IfOk result (λ i. number_at slabs.new.items i ≡ Some number) }
{
    if let Some(place) = places.get(&number) {
        return Ok(*place);
    }
    let alloc = *slabs.allocator();
    let place = slabs.len();
    slabs.reserve(1)?;
    places.insert(number, place)?;
    slabs.push(slab_without_pieces(alloc, number)).unwrap();
    Ok(place)
}

/// Shows the segments that are kept in a slab.
fn see_slab<T: Look, L: Ledger>(slab: &Slab, look: &mut T, steps: &mut Steps<L>)
    requires slab { IsSlab slab.now }
    requires sound { T.is_sound look.old }
    ensures seen { look.new ≡ fold T.with_one look.old slab.now.kept.items }
    ensures sound { T.is_sound look.new }
    ensures steps { steps.new ≤ steps.old + length slab.now.kept.items }
{
    see_rising(&slab.kept, slab.rise, look, steps);
}

fn is_gone(gone: &[EdgeId], piece: &Piece) -> bool
    ensures { result ≡ is_one_of gone.now piece.now }
{
    gone.iter().any(|edge| edge.0 == piece.edge.0)
}

/// Lets the slab have a segment as high as this one.
fn let_rise(slab: &mut Slab, piece: &Piece)
    requires { IsSlab slab.old }
    ensures slab { IsSlab slab.new }
    ensures number { slab.new.number ≡ slab.old.number }
    ensures kept { slab.new.kept.items ≡ slab.old.kept.items }
    ensures coming { slab.new.coming.items ≡ slab.old.coming.items }
    ensures no_higher { IsNoHigher slab.new.rise piece.now }
{
    slab.rise = slab.rise.max(rise_of(piece));
}

/// Takes one segment more for the change that is staged.
fn stage_in(slab: &mut Slab, piece: &Piece) -> Result<(), Memory>
    requires slab { IsSlab slab.old }
    requires own { IsInSlab slab.old.number piece.now }
    ensures slab { IsSlab slab.new }
    ensures number { slab.new.number ≡ slab.old.number }
    ensures kept { slab.new.kept.items ≡ slab.old.kept.items }
    ensures ok { OnOk result (slab.new.coming.items ≡ slab.old.coming.items ++ piece.now ∷ []) }
    ensures err { OnErr result (slab.new.coming.items ≡ slab.old.coming.items) }
{
    let_rise(slab, piece);
    slab.kept.reserve(slab.coming.len() + 1)?;
    slab.coming.push(*piece)?;
    Ok(())
}

/// Takes one segment more in the slab at a place.
fn stage_at(slabs: &mut Vec<Slab>, place: usize, piece: &Piece) -> Result<(), Memory>
    requires slabs { All IsSlab slabs.old.items }
    requires own { IsPlaceOf slabs.old.items place piece.now }
    ensures slabs { All IsSlab slabs.new.items }
    ensures numbers { HaveSameNumbers slabs.old.items slabs.new.items }
    ensures kept { all_kept slabs.new.items ≡ all_kept slabs.old.items }
    ensures ok { OnOk result (AreTogether (all_coming slabs.new.items) (piece.now ∷ []) (all_coming slabs.old.items)) }
{
    stage_in(&mut slabs[place], piece)
}

fn drop_gone(pieces: &mut Vec<Piece>, gone: &[EdgeId])
    ensures pieces { pieces.new.items ≡ filter (λ e. not (is_one_of gone.now e)) pieces.old.items }
    ensures len { vec_len pieces.new ≤ vec_len pieces.old }
    ensures capacity { vec_capacity pieces.new ≡ vec_capacity pieces.old }
{
    pieces.retain(|piece| !is_gone(gone, piece));
}

/// Drops the segments of these edges.
fn drop_in(slab: &mut Slab, gone: &[EdgeId])
    requires { IsSlab slab.old }
    ensures slab { IsSlab slab.new }
    ensures number { slab.new.number ≡ slab.old.number }
    ensures kept { slab.new.kept.items ≡ filter (λ e. not (is_one_of gone.now e)) slab.old.kept.items }
    ensures coming { slab.new.coming.items ≡ slab.old.coming.items }
{
    drop_gone(&mut slab.kept, gone);
}

/// Puts the segments in order, from lower to higher tops.
fn put_in_order(pieces: &mut Vec<Piece>)
    ensures rising { IsRising pieces.new.items }
    ensures permutation { IsPermutation pieces.old.items pieces.new.items }
    ensures len { vec_len pieces.new ≡ vec_len pieces.old }
    ensures capacity { vec_capacity pieces.new ≡ vec_capacity pieces.old }
{
    pieces.sort_unstable_by_key(|piece| top_of(piece));
}

/// Keeps the segments that come.
fn keep_in(slab: &mut Slab)
    requires { IsSlab slab.old }
    ensures slab { IsSlab slab.new }
    ensures number { slab.new.number ≡ slab.old.number }
    ensures kept { IsPermutation (slab.old.kept.items ++ slab.old.coming.items) slab.new.kept.items }
    ensures coming { slab.new.coming.items ≡ [] }
{
    if slab.coming.is_empty() {
        return;
    }
    slab.kept.extend_from_slice(&slab.coming).unwrap();
    slab.coming.clear();
    put_in_order(&mut slab.kept);
}

/// Drops the segments of these edges, and then keeps those that come.
fn settle_in(slab: &mut Slab, gone: &[EdgeId])
    requires { IsSlab slab.old }
    ensures slab { IsSlab slab.new }
    ensures number { slab.new.number ≡ slab.old.number }
    ensures kept { IsPermutation (filter (λ e. not (is_one_of gone.now e)) slab.old.kept.items ++ slab.old.coming.items) slab.new.kept.items }
    ensures coming { slab.new.coming.items ≡ [] }
{
    drop_in(slab, gone);
    keep_in(slab);
}

/// Drops the segments that come.
fn discard_in(slab: &mut Slab)
    requires { IsSlab slab.old }
    ensures slab { IsSlab slab.new }
    ensures number { slab.new.number ≡ slab.old.number }
    ensures kept { slab.new.kept.items ≡ slab.old.kept.items }
    ensures coming { slab.new.coming.items ≡ [] }
{
    slab.coming.clear();
}

/// Makes the change of each slab, in which these edges go.
fn settle_all(slabs: &mut Vec<Slab>, gone: &[EdgeId])
    requires { All IsSlab slabs.old.items }
    ensures slabs { All IsSlab slabs.new.items }
    ensures numbers { HaveSameNumbers slabs.old.items slabs.new.items }
    ensures kept { AreChanged (all_kept slabs.new.items) (all_kept slabs.old.items) gone.now (all_coming slabs.old.items) }
    ensures coming { all_coming slabs.new.items ≡ [] }
{
    for place in 0..slabs.len() {
        settle_in(&mut slabs[place], gone);
    }
}

/// Drops the segments that come in each slab.
fn discard_all(slabs: &mut Vec<Slab>)
    requires { All IsSlab slabs.old.items }
    ensures slabs { All IsSlab slabs.new.items }
    ensures numbers { HaveSameNumbers slabs.old.items slabs.new.items }
    ensures kept { all_kept slabs.new.items ≡ all_kept slabs.old.items }
    ensures coming { all_coming slabs.new.items ≡ [] }
{
    for place in 0..slabs.len() {
        discard_in(&mut slabs[place]);
    }
}

impl Slabs {
    /// No segments. Takes no memory.
    pub fn new(alloc: Global) -> Slabs
        ensures kept { result.kept ≡ [] }
        ensures coming { result.coming ≡ [] }
    {
        Slabs {
            places: HashMap::new(alloc),
            slabs: Vec::new(alloc),
        }
    }

    /// Shows the segments that are kept in the slab of this number, but those that don't count, in one step each.
    pub fn see<T: Look, L: Ledger>(&self, number: u64, look: &mut T, steps: &mut Steps<L>)
        requires { T.is_sound look.old }
        ensures seen { look.new ≡ fold T.with_one look.old (in_slab self.now.kept number) }
        ensures sound { T.is_sound look.new }
        ensures steps { steps.new ≤ steps.old + length (in_slab self.now.kept number) }
        ensures in_range { All IsInRange self.now.kept }
    {
        match self.places.get(&number) {
            Some(place) => see_slab(&self.slabs[*place], look, steps),
            None => (),
        }
    }

    /// Takes one segment more for the change that is staged.
    pub fn stage(&mut self, piece: &Piece) -> Result<(), Memory>
        ensures kept { self.new.kept ≡ self.old.kept }
        ensures ok { OnOk result (AreTogether self.new.coming (piece.now ∷ []) self.old.coming) }
    {
        let place = place_of(&mut self.places, &mut self.slabs, slab_of(piece))?;
        stage_at(&mut self.slabs, place, piece)
    }

    /// Makes the change that is staged, in which these edges go.
    pub fn settle(&mut self, gone: &[EdgeId])
        ensures kept { AreChanged self.new.kept self.old.kept gone.now self.old.coming }
        ensures coming { self.new.coming ≡ [] }
    {
        settle_all(&mut self.slabs, gone);
    }

    /// Drops the change that is staged.
    pub fn discard(&mut self)
        ensures kept { self.new.kept ≡ self.old.kept }
        ensures coming { self.new.coming ≡ [] }
    {
        discard_all(&mut self.slabs);
    }
}
