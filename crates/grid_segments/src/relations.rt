ghost use Rattle.std.specs.Prelude.{◌≡◌, ◌+◌};
ghost use Rattle.plane.specs.Relation.{AreInLine, Relates};

use crate::Seg;
use crate::areas::{is_parallel, reaches};
use crate::intervals::{face_across, face_upward, is_upright};
use crate::segment::share_end;
use std::sync::ledger::Ledger;
use topo_base::{Relation, Steps};

/// How two segments on one straight line lie to one another.
fn relate_in_line(s: &Seg, t: &Seg) -> Relation
    requires { AreInLine s.now t.now }
    ensures { Relates result s.now t.now }
{
    let _ = s.from();
    let _ = t.from();
    if is_upright(s) {
        face_upward(s, t)
    } else {
        face_across(s, t)
    }
}

/// How any two segments lie to one another.
fn relation_of(s: &Seg, t: &Seg) -> Relation
    ensures { Relates result s.now t.now }
{
    let _ = s.from();
    let _ = t.from();
    if !reaches(s, t) {
        return Relation::Apart;
    }
    if !reaches(t, s) {
        return Relation::Apart;
    }
    if is_parallel(s, t) {
        return relate_in_line(s, t);
    }
    if share_end(s, t) {
        Relation::TouchEnds
    } else {
        Relation::Meet
    }
}

/// How two segments lie to one another: Apart where they have no common point, TouchEnds where they
/// have one, an end of both, Meet where they have one that is not an end of both, and Overlap where
/// they have more. It takes one step.
pub fn relate<L: Ledger>(s: &Seg, t: &Seg, steps: &mut Steps<L>) -> Relation
    ensures relates { Relates result s.now t.now }
    ensures counted { steps.new ≡ steps.old + 1 }
{
    steps.tick();
    relation_of(s, t)
}
