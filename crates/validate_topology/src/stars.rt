// The darts about each node in clockwise order, and so the dart that is next after each.
ghost use Rattle.std.specs.Prelude.{◌≡◌, ℕ, ◌+◌, ◌*◌, ◌^◌, ◌<◌, ◌≤◌, ◌++◌, ◌==◌, ◌∷◌, [], List, length, map, vec_len, slice_index_or, if◌then◌else◌, All, IfOk, IsTrue, OnOk};
ghost use Rattle.std.specs.Ordering.{is_lt};
ghost use Rattle.topo_base.specs.declared.rows.EdgeRow.{EdgeRow as EdgeValue};
ghost use Rattle.drawing.specs.Star.{leaving as leaving_of};
ghost use Rattle.drawing.specs.Tables.{drawn_edge};
ghost use Rattle.drawing.specs.Vertices.{have_segments};
ghost use Rattle.validate_topology.specs.Following.{AreNext, ArePlainEdges, AreSpokes, HasRowAt, IsSpokeOf, goes_on, half_edge, half_edges_of, some_direction, spoke_less};
ghost use Rattle.validate_topology.specs.declared.stars.Spoke.{Spoke as SpokeValue};

use crate::sides::{Side, leaving, node_of};
use grid_angle::{Dir, clockwise};
use std::alloc::Global;
use std::cmp::Ordering;
use std::marker::Model;
use topo_base::{EdgeRow, Memory};

/// For each dart, by its place among all, the place of the dart that is next. Contracts see the list of them.
#[derive(Drop)]
pub struct Followers {
    places: Vec<usize>,
}

impl Model for Followers {
    ghost use Rattle.std.specs.Prelude.{ℕ, List, length};
    ghost use Rattle.validate_topology.specs.Following.{AreWithin};

    ghost Value = { List ℕ };

    ghost view = { λ f. f.places.items };

    ghost invariant = { λ f. AreWithin (length f.places.items) f.places.items };
}

impl Followers {
    /// How many darts there are.
    pub fn len(&self) -> usize
        ensures { result ≡ length self.now }
    {
        self.places.len()
    }

    /// The place of the dart that is next after the one at a place.
    pub fn next(&self, place: usize) -> usize
        requires { place < length self.now }
        ensures within { result < length self.now }
        ensures next { result ≡ slice_index_or self.now place 0 }
    {
        self.places[place]
    }
}

/// A dart where it leaves its node, its place among all darts, and that of the same edge walked the other way.
#[derive(Clone, Copy)]
struct Spoke {
    node: u32,
    dir: Dir,
    place: usize,
    twin: usize,
}

/// The order of darts: by node, then clockwise from straight up.
fn order_of(a: &Spoke, b: &Spoke) -> Ordering
    ensures { is_lt result ≡ spoke_less a.now b.now }
{
    if a.node != b.node {
        return a.node.cmp(&b.node);
    }
    clockwise(Dir::up(), a.dir, b.dir)
}

fn spoke_of(side: &Side<'_>, place: usize, twin: usize) -> Spoke
    ensures places { (result.place ≡ place) × (result.twin ≡ twin) }
    ensures node { result.node ≡ (half_edge side.now).from_node }
    ensures dir { result.dir ≡ some_direction (leaving_of (half_edge side.now)) }
    ensures long { 2 ≤ length ((half_edge side.now).points) }
{
    Spoke {
        node: node_of(side).0,
        dir: leaving(side),
        place,
        twin,
    }
}

/// The darts of an edge: the forward one has this place, and the other one the next.
fn push_spokes(spokes: &mut Vec<Spoke>, row: &EdgeRow, place: usize) -> Result<(), Memory>
    requires { place + 1 < 2 ^ 64 }
    ensures len { OnOk result (vec_len spokes.new ≡ vec_len spokes.old + 2) }
    ensures places { OnOk result (map (λ (s : SpokeValue). s.place) spokes.new.items ≡ map (λ (s : SpokeValue). s.place) spokes.old.items ++ place ∷ (place + 1) ∷ []) }
    ensures each { OnOk result ((rows : List EdgeValue) → HasRowAt rows row.now place → All (IsSpokeOf (half_edges_of rows)) spokes.old.items → All (IsSpokeOf (half_edges_of rows)) spokes.new.items) }
{
    let forward = Side {
        row,
        is_forward: true,
    };
    let backward = Side {
        row,
        is_forward: false,
    };
    spokes.push(spoke_of(&forward, place, place + 1))?;
    spokes.push(spoke_of(&backward, place + 1, place))?;
    Ok(())
}

/// All darts, node after node, and clockwise about each.
fn spokes_of(alloc: Global, edges: &[EdgeRow]) -> Result<Vec<Spoke>, Memory>
    ensures len { IfOk result (λ v. vec_len v ≡ 2 * length edges.now) }
    ensures spokes { IfOk result (λ v. AreSpokes (half_edges_of edges.now) v.items) }
{
    let mut spokes = Vec::new(alloc);
    for index in 0..edges.len() {
        push_spokes(&mut spokes, &edges[index], 2 * index)?;
    }
    spokes.sort_unstable_by(|a, b| order_of(a, b));
    Ok(spokes)
}

/// The index of the one that follows the one at this index, where that node's first stands at `first`.
fn index_after(spokes: &[Spoke], first: usize, index: usize) -> usize
    requires first { first < length spokes.now }
    requires index { index < length spokes.now }
    ensures within { result < length spokes.now }
    ensures after { (s : SpokeValue) → result ≡ (if goes_on spokes.now index s then index + 1 else first) }
{
    let on = index + 1;
    if on < spokes.len() && spokes[on].node == spokes[index].node {
        on
    } else {
        first
    }
}

/// The index of the first of the same node as the one at this index, where `first` is that of the one before.
fn index_of_first(spokes: &[Spoke], first: usize, index: usize) -> usize
    requires first { first ≤ index }
    requires index { index < length spokes.now }
    ensures within { result ≤ index }
    ensures begins { (s : SpokeValue) → result ≡ (if (slice_index_or spokes.now first s).node == (slice_index_or spokes.now index s).node then first else index) }
{
    if spokes[first].node == spokes[index].node {
        first
    } else {
        index
    }
}

/// For each dart the dart that is next: the first that leaves the node where it arrives, clockwise from the way back.
pub fn followers_of(alloc: Global, edges: &[EdgeRow]) -> Result<Followers, Memory>
    requires { ArePlainEdges edges.now }
    ensures len { IfOk result (λ f. length f ≡ 2 * length edges.now) }
    ensures next { IfOk result (λ f. AreNext (half_edges_of edges.now) f) }
    ensures long { IfOk result (λ _. IsTrue (have_segments (map drawn_edge edges.now))) }
{
    let spokes = spokes_of(alloc, edges)?;
    let mut places = vec![in alloc; 0; spokes.len()]?;
    let mut first = 0;
    for index in 0..spokes.len() {
        first = index_of_first(&spokes, first, index);
        let next = index_after(&spokes, first, index);
        places[spokes[index].twin] = spokes[next].place;
    }
    Ok(Followers { places })
}
