// What an edge that came makes of its face.
ghost use Rattle.std.specs.Prelude.{◌≡◌, ◌==◌, ◌&&◌, not, ◌+◌, ◌<◌, ◌^◌, ◌∷◌, [], IfOk, List, OnOk};
ghost use Rattle.topo_base.specs.Point.{Point};
ghost use Rattle.topo_base.specs.declared.rows.NodeRow.{NodeRow as NodeValue};
ghost use Rattle.drawing.specs.Drawing.{Drawing};
ghost use Rattle.drawing.specs.IsoEdits.{with_edge};
ghost use Rattle.drawing.specs.Tables.{tables_of};
ghost use Rattle.read_set.specs.Drafted.{IsDraftOf};
ghost use Rattle.face_split.specs.Closing.{HasAdded, HasEdgeIn, HasRing, IsRingOnLeft, WasAdded, in_parts, with_edge_in};

use crate::closing::{divide_in_one, divide_in_two};
use crate::dividing::push_box;
use crate::ring::{EdgeRing, ring_at};
use face_parts::{Cut, has_dart, ring_path};
use grid_rays::is_shell;
use read_set::Draft;
use std::alloc::Global;
use std::sync::ledger::Ledger;
use topo_base::{Dart, EdgeId, Element, FaceId, Ids, Memory, Steps};
use topo_tables::Writes;

fn the_edge(edge: EdgeId) -> Ids
    ensures { result ≡ Element.Edge edge ∷ [] }
{
    let mut ids = Ids::new();
    ids.push(Element::Edge(edge));
    ids
}

fn edge_and_face(edge: EdgeId, new: FaceId) -> Ids
    ensures { result ≡ Element.Edge edge ∷ Element.Face new ∷ [] }
{
    let mut ids = Ids::new();
    ids.push(Element::Edge(edge));
    ids.push(Element::Face(new));
    ids
}

/// The edge, a new face, and the one that came next.
fn edge_and_faces(edge: EdgeId, left: FaceId) -> Ids
    requires { left + 1 < 2 ^ 32 }
    ensures { result ≡ Element.Edge edge ∷ Element.Face left ∷ Element.Face (left + 1) ∷ [] }
{
    let mut ids = Ids::new();
    ids.push(Element::Edge(edge));
    ids.push(Element::Face(left));
    ids.push(Element::Face(FaceId(left.0 + 1)));
    ids
}

/// Sets the box of a face that the edge doesn't divide.
fn grow_box<L: Ledger>(
    alloc: Global,
    draft: &mut Draft,
    face: FaceId,
    steps: &mut Steps<L>,
) -> Result<(), Memory>
    requires { HasEdgeIn draft.old.rows face }
    ensures rows { (S : Drawing) (a b : NodeValue) (line : List Point) → WasAdded S a b line face draft.old.rows
        → OnOk result (draft.new.rows ≡ tables_of (with_edge S a b line face)) }
    ensures drafted { (S : Drawing) → IsDraftOf S draft.old → OnOk result (IsDraftOf S draft.new) }
{
    let mut writes = Writes::new(alloc);
    push_box(&mut writes, draft.tables(), face, steps)?;
    draft.write_all(alloc, writes, steps)?;
    Ok(())
}

/// Whether both parts of a face are to be new: face 0 stays.
fn are_both_new(both: bool, face: FaceId) -> bool
    ensures { result ≡ (both && not (face == 0)) }
{
    both && face.0 != 0
}

/// The face is divided by the edge, which closes a ring: into itself and a new face, or into two new
/// faces where these are wanted, and the face isn't face 0.
fn close<L: Ledger>(
    alloc: Global,
    draft: &mut Draft,
    edge: EdgeId,
    face: FaceId,
    rings: &EdgeRing,
    both: bool,
    steps: &mut Steps<L>,
) -> Result<Ids, Memory>
    requires { HasRing draft.old.rows edge face rings.now.border rings.now.ring.items }
    ensures ids { (S : Drawing) (a b : NodeValue) (line : List Point) → WasAdded S a b line face draft.old.rows → edge ≡ S.next_ids.edge
        → IfOk result (λ ids. ids ≡ (in_parts both S a b line face).ids) }
    ensures rows { (S : Drawing) (a b : NodeValue) (line : List Point) → WasAdded S a b line face draft.old.rows → edge ≡ S.next_ids.edge
        → IsRingOnLeft S a b line face rings.now.border rings.now.ring.items
        → OnOk result (draft.new.rows ≡ tables_of (in_parts both S a b line face).drawing) }
    ensures drafted { (S : Drawing) → IsDraftOf S draft.old → OnOk result (IsDraftOf S draft.new) }
{
    let path = ring_path(alloc, draft.tables(), &rings.ring, steps)?;
    let shell = is_shell(&path);
    let cut = Cut::of(path);
    let two = are_both_new(both, face);
    if two {
        let left = divide_in_two(alloc, draft, edge, face, &rings.border, &cut, steps)?;
        return Ok(edge_and_faces(edge, left));
    }
    let new = divide_in_one(alloc, draft, edge, face, &rings.border, &cut, shell, steps)?;
    Ok(edge_and_face(edge, new))
}

/// Makes of the face of an edge that came what it is now: itself with a larger box, where a ring takes
/// the edge both ways, and else its parts. Gives what the reply names.
pub fn finish<L: Ledger>(
    alloc: Global,
    draft: &mut Draft,
    edge: EdgeId,
    face: FaceId,
    both: bool,
    steps: &mut Steps<L>,
) -> Result<Ids, Memory>
    requires { HasAdded draft.old.rows edge face }
    ensures ids { (S : Drawing) (a b : NodeValue) (line : List Point) → WasAdded S a b line face draft.old.rows → edge ≡ S.next_ids.edge
        → IfOk result (λ ids. ids ≡ (with_edge_in both S a b line face).ids) }
    ensures rows { (S : Drawing) (a b : NodeValue) (line : List Point) → WasAdded S a b line face draft.old.rows → edge ≡ S.next_ids.edge
        → OnOk result (draft.new.rows ≡ tables_of (with_edge_in both S a b line face).drawing) }
    ensures drafted { (S : Drawing) → IsDraftOf S draft.old → OnOk result (IsDraftOf S draft.new) }
{
    let rings = ring_at(alloc, draft.tables(), edge, face)?;
    let forward = false;
    if has_dart(&rings.ring, &Dart { edge, forward }) {
        grow_box(alloc, draft, face, steps)?;
        return Ok(the_edge(edge));
    }
    let ids = close(alloc, draft, edge, face, &rings, both, steps)?;
    Ok(ids)
}
