ghost use Rattle.std.specs.Prelude.{◌≡◌, ◌+◌, ◌≤◌, ◌<◌, [], ◌∷◌, fold, map, drop, true, false, count_by, flat_map, length, All, OnOk, OnErr};
ghost use Rattle.topo_base.specs.Point.{IsCoordinate};
ghost use Rattle.slab_index.specs.Held.{IsInRange};
ghost use Rattle.plane.specs.Line.{segments_of};
ghost use Rattle.slab_index.specs.Slabs.{path, is_near};
ghost use Rattle.slab_index.specs.Above.{IsDartAbove};
ghost use Rattle.slab_index.specs.On.{IsEdgeOn};
ghost use Rattle.slab_index.specs.Path.{on_path};
ghost use Rattle.slab_index.specs.Pieces.{piece_of, pieces_of, pieces_of_all, AreTogether, AreChanged};

use crate::above::{LookAbove, dart_beside};
use crate::numbers::{LEVELS, leaf_of};
use crate::on::LookOn;
use crate::piece::Piece;
use crate::slabs::Slabs;
use crate::visits::Look;
use std::alloc::Global;
use std::marker::Model;
use std::sync::ledger::Ledger;
use topo_base::{Dart, EdgeId, EdgeRow, Grid, Memory, Steps};

/// Shows the segments on the path of p, but those that don't count, in one step a slab and one a segment.
fn see_path<T: Look, L: Ledger>(slabs: &Slabs, p: Grid, look: &mut T, steps: &mut Steps<L>)
    requires { T.is_sound look.old }
    ensures seen { look.new ≡ fold T.with_one look.old (on_path p slabs.now.kept) }
    ensures steps { steps.new ≤ steps.old + 43 + length (on_path p slabs.now.kept) }
    ensures in_range { All IsInRange slabs.now.kept }
    ensures point { IsCoordinate p.x }
{
    let mut number = leaf_of(p.x());
    for _ in 0..LEVELS {
        steps.tick();
        slabs.see(number, look, steps);
        number /= 2;
    }
}

/// The segment of an edge that begins at the vertex with this index.
fn piece_at(edge: EdgeId, vertices: &[Grid], i: usize) -> Piece
    requires { i + 1 < length vertices.now }
    ensures { map (piece_of edge) (segments_of (drop i vertices.now)) ≡ result ∷ map (piece_of edge) (segments_of (drop (i + 1) vertices.now)) }
{
    Piece {
        edge,
        start: vertices[i],
        end: vertices[i + 1],
    }
}

/// Takes the segments of an edge for the change that is staged.
fn stage_edge(slabs: &mut Slabs, row: &EdgeRow) -> Result<(), Memory>
    ensures kept { slabs.new.kept ≡ slabs.old.kept }
    ensures ok { OnOk result (AreTogether slabs.new.coming (pieces_of row.now) slabs.old.coming) }
{
    let vertices = row.geom.vertices();
    for i in 0..vertices.len() - 1 {
        let piece = piece_at(row.edge_id, vertices, i);
        if let Err(stop) = slabs.stage(&piece) {
            return Err(stop);
        }
    }
    Ok(())
}

fn stage_edges(slabs: &mut Slabs, rows: &[EdgeRow]) -> Result<(), Memory>
    ensures kept { slabs.new.kept ≡ slabs.old.kept }
    ensures ok { OnOk result (AreTogether slabs.new.coming (pieces_of_all rows.now) slabs.old.coming) }
{
    for row in rows {
        if let Err(stop) = stage_edge(slabs, row) {
            return Err(stop);
        }
    }
    Ok(())
}

/// An index of edges, by which points are located. Contracts see the segments that are kept, and those that come and the
/// edges that go with the change that is staged.
#[derive(Drop)]
pub struct SlabIndex {
    slabs: Slabs,
    gone: Vec<EdgeId>,
    is_staged: bool,
}

impl Model for SlabIndex {
    ghost use Rattle.slab_index.specs.Index.{Index, IsIndex};

    ghost Value = { Index };

    ghost view = { λ i. record {
      kept = i.slabs.kept;
      coming = i.slabs.coming;
      gone = i.gone.items;
      staged = i.is_staged;
    } };

    ghost invariant = { λ i. IsIndex (record {
      kept = i.slabs.kept;
      coming = i.slabs.coming;
      gone = i.gone.items;
      staged = i.is_staged;
    }) };
}

impl SlabIndex {
    /// No edges. Takes no memory.
    pub fn empty(alloc: Global) -> SlabIndex
        ensures kept { result.kept ≡ [] }
        ensures unstaged { result.staged ≡ false }
    {
        SlabIndex {
            slabs: Slabs::new(alloc),
            gone: Vec::new(alloc),
            is_staged: false,
        }
    }

    /// The first dart straight above p, with p on its left: that of the segment over p that is lowest there, and of those
    /// equal there the one of least slope. None exactly where no segment is over p.
    pub fn find_above<L: Ledger>(&self, p: Grid, steps: &mut Steps<L>) -> Option<Dart>
        ensures above { IsDartAbove p self.now.kept result }
        ensures counted { steps.new ≤ steps.old + 43 + count_by (is_near p) self.now.kept }
    {
        let mut look = LookAbove {
            point: p,
            lowest: None,
        };
        see_path(&self.slabs, p, &mut look, steps);
        match &look.lowest {
            Some(piece) => Some(dart_beside(&p, piece)),
            None => None,
        }
    }

    /// The least edge on which p lies. None exactly where it lies on none.
    pub fn edge_on<L: Ledger>(&self, p: Grid, steps: &mut Steps<L>) -> Option<EdgeId>
        ensures on { IsEdgeOn p self.now.kept result }
        ensures counted { steps.new ≤ steps.old + 43 + count_by (is_near p) self.now.kept }
    {
        let mut look = LookOn {
            point: p,
            least: None,
        };
        see_path(&self.slabs, p, &mut look, steps);
        look.least
    }

    /// Keeps one edge more. After want of memory the index is as before.
    pub fn insert(&mut self, edge: &EdgeRow) -> Result<(), Memory>
        requires { self.old.staged ≡ false }
        ensures unstaged { self.new.staged ≡ false }
        ensures ok { OnOk result (AreTogether self.new.kept (pieces_of edge.now) self.old.kept) }
        ensures err { OnErr result (self.new.kept ≡ self.old.kept) }
    {
        if let Err(stop) = stage_edge(&mut self.slabs, edge) {
            self.slabs.discard();
            return Err(stop);
        }
        self.slabs.settle(&[]);
        Ok(())
    }

    /// Drops an edge. Takes no memory.
    pub fn remove(&mut self, edge: EdgeId)
        requires { self.old.staged ≡ false }
        ensures unstaged { self.new.staged ≡ false }
        ensures kept { AreChanged self.new.kept self.old.kept (edge ∷ []) [] }
    {
        self.slabs.settle(&[edge]);
    }

    /// Takes the room for a change, in which some edges go and others come. The index answers as before. After want of memory
    /// no change is staged.
    pub fn stage(&mut self, gone: &[EdgeId], come: &[EdgeRow]) -> Result<(), Memory>
        requires { self.old.staged ≡ false }
        ensures kept { self.new.kept ≡ self.old.kept }
        ensures staged { OnOk result (self.new.staged ≡ true) }
        ensures gone { OnOk result (self.new.gone ≡ gone.now) }
        ensures coming { OnOk result (AreTogether self.new.coming (pieces_of_all come.now) []) }
        ensures err { OnErr result (self.new.staged ≡ false) }
    {
        self.gone.extend_from_slice(gone)?;
        if let Err(stop) = stage_edges(&mut self.slabs, come) {
            self.slabs.discard();
            self.gone.clear();
            return Err(stop);
        }
        self.is_staged = true;
        Ok(())
    }

    /// Makes the change that is staged. Takes no memory.
    pub fn settle(&mut self)
        requires { self.old.staged ≡ true }
        ensures unstaged { self.new.staged ≡ false }
        ensures kept { AreChanged self.new.kept self.old.kept self.old.gone self.old.coming }
    {
        self.slabs.settle(&self.gone);
        self.gone.clear();
        self.is_staged = false;
    }

    /// Drops the change that is staged. Takes no memory.
    pub fn discard(&mut self)
        requires { self.old.staged ≡ true }
        ensures unstaged { self.new.staged ≡ false }
        ensures kept { self.new.kept ≡ self.old.kept }
    {
        self.slabs.discard();
        self.gone.clear();
        self.is_staged = false;
    }
}
