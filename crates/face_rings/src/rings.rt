ghost use Rattle.std.specs.Prelude.{◌≡◌, All, Contains, IfOk, IsTrue, length, map};
ghost use Rattle.face_rings.specs.Border.{are_linked, darts_of};
ghost use Rattle.face_rings.specs.Rings.{darts_in, rings, ring_of as the_ring_of, Marks};

use crate::content::FaceContent;
use crate::places::place_of;
use std::alloc::Global;
use topo_base::{Dart, Memory, is_same_dart};

/// The ring of a dart: the darts from it on, each of which is next after the one before, until it
/// comes back (GetRingEdges).
pub fn ring_of(alloc: Global, rows: &FaceContent, dart: Dart) -> Result<Vec<Dart>, Memory>
    requires linked { IsTrue (are_linked rows.now) }
    requires there { Contains (darts_of rows.now) dart }
    ensures { IfOk result (λ ring. ring.items ≡ the_ring_of rows.now dart) }
{
    let mut ring = Vec::new(alloc);
    let mut here = dart;
    loop {
        ring.push(here)?;
        here = rows.next_of(&here);
        if is_same_dart(&here, &dart) {
            return Ok(ring);
        }
    }
}

/// Marks the places of these darts as seen.
fn mark(rows: &FaceContent, ring: &[Dart], seen: &mut [bool])
    requires known { All (Contains (darts_of rows.now)) ring.now }
    requires long { length seen.old ≡ length rows.now }
    ensures { Marks rows.now ring.now seen.old seen.new }
{
    for dart in ring {
        let place = place_of(rows.darts(), dart).unwrap();
        seen[place] = true;
    }
}

/// The rings of a border, each begun with its least dart, ascending by these: least edge first,
/// forward before backward (ST_GetFaceEdges).
pub fn face_rings(alloc: Global, rows: &FaceContent) -> Result<Vec<Vec<Dart>>, Memory>
    requires { IsTrue (are_linked rows.now) }
    ensures { IfOk result (λ all. map darts_in all.items ≡ rings rows.now) }
{
    let darts = rows.darts();
    let mut seen = vec![in alloc; false; darts.len()]?;
    let mut all = Vec::new(alloc);
    for place in 0..darts.len() {
        if seen[place] {
            continue;
        }
        let ring = ring_of(alloc, rows, darts[place].dart)?;
        mark(rows, &ring, &mut seen);
        all.push(ring)?;
    }
    Ok(all)
}
