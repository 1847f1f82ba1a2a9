// What is wrong with the faces on the sides of rings, and with their shells.
ghost use Rattle.std.specs.Prelude.{◌≡◌, ◌<◌, ◌+◌, ◌^◌, ◌++◌, ◌∷◌, ℕ, All, length, map, slice_index_or, IfOk, OnOk, vec_len};
ghost use Rattle.topo_base.specs.declared.rows.FaceRow.{FaceRow as FaceValue};
ghost use Rattle.drawing.specs.HalfEdge.{HalfEdge};
ghost use Rattle.drawing.specs.Tables.{universal_face};
ghost use Rattle.validate_topology.specs.Following.{half_edge};
ghost use Rattle.validate_topology.specs.RingLines.{count_wrong as lines_of_count, counts_wrong as lines_of_counts, ring_lines as lines_of_rings, shells_due as number_due, shells_of as number_of_shells, side_differs as line_of_side, side_line, sides_differ as lines_of_sides, walked_back, walked_forward};
ghost use Rattle.validate_topology.specs.Tallies.{AreTallies, counted, with_face, with_ring};
ghost use Rattle.validate_topology.specs.Walks.{AreFollowed, AreWalks, IsWalk, halves_of, ring_in};
ghost use Rattle.validate_topology.specs.declared.ring_lines.Tally.{Tally as TallyValue};

use crate::lines::{Report, ReportLine};
use crate::sides::{Side, dart_of, left_of};
use crate::stars::Followers;
use crate::table::Rows;
use crate::walks::Walk;
use std::alloc::Global;
use topo_base::{FaceId, FaceRow, Memory};

/// The line of a dart and the one after it, if they have different faces on their left.
fn side_differs(side: &Side<'_>, next: &Side<'_>, report: &mut Report) -> Result<(), Memory>
    ensures { OnOk result (report.new ≡ report.old ++ line_of_side (half_edge side.now) (half_edge next.now)) }
{
    let differ = left_of(side).0 != left_of(next).0;
    let dart = dart_of(side);
    let next = dart_of(next);
    report.push_if(differ, ReportLine::RingSidesDiffer { dart, next })
}

/// The line of the dart at a place.
fn side_at(
    sides: &[Side<'_>],
    followers: &Followers,
    place: usize,
    report: &mut Report,
) -> Result<(), Memory>
    requires place { place < length sides.now }
    requires followed { AreFollowed (halves_of sides.now) followers.now }
    ensures { OnOk result ((d : HalfEdge) → report.new ≡ report.old ++ side_line (halves_of sides.now) (slice_index_or (halves_of sides.now) place d)) }
{
    side_differs(&sides[place], &sides[followers.next(place)], report)
}

/// The lines of the darts that are walked back, from the last to the first.
fn backward_sides(
    sides: &[Side<'_>],
    followers: &Followers,
    report: &mut Report,
) -> Result<(), Memory>
    requires { AreFollowed (halves_of sides.now) followers.now }
    ensures { OnOk result (report.new ≡ report.old ++ lines_of_sides (halves_of sides.now) (walked_back (halves_of sides.now))) }
{
    let mut left = sides.len();
    while left > 0 {
        left -= 1;
        if !sides[left].is_forward {
            side_at(sides, followers, left, report)?;
        }
    }
    Ok(())
}

/// The lines of the others.
fn forward_sides(
    sides: &[Side<'_>],
    followers: &Followers,
    report: &mut Report,
) -> Result<(), Memory>
    requires { AreFollowed (halves_of sides.now) followers.now }
    ensures { OnOk result (report.new ≡ report.old ++ lines_of_sides (halves_of sides.now) (walked_forward (halves_of sides.now))) }
{
    for place in 0..sides.len() {
        if sides[place].is_forward {
            side_at(sides, followers, place, report)?;
        }
    }
    Ok(())
}

/// How many shells a face has so far, and how many rings there were up to the last of them.
#[derive(Clone, Copy)]
struct Tally {
    count: u64,
    until: usize,
}

/// A tally with the ring of this number, if it doesn't have it.
fn with_shell(tally: Tally, ring: usize) -> Tally
    requires { ring + 1 < 2 ^ 64 }
    ensures { result ≡ counted ring tally }
{
    if ring < tally.until {
        return tally;
    }
    Tally {
        count: tally.count.saturating_add(1),
        until: ring + 1,
    }
}

/// Counts a shell of this number for a face.
fn count_side(tallies: &mut Vec<Tally>, faces: &Rows<FaceRow>, face: FaceId, ring: usize)
    requires len { vec_len tallies.old ≡ length faces.now + 1 }
    requires ring { ring + 1 < 2 ^ 64 }
    ensures len { vec_len tallies.new ≡ vec_len tallies.old }
    ensures counted { (tally : ℕ → TallyValue) → AreTallies tally faces.now tallies.old.items → AreTallies (with_face ring face tally) faces.now tallies.new.items }
{
    let _ = faces.rows();
    if face.0 == 0 {
        tallies[0] = with_shell(tallies[0], ring);
        return;
    }
    let Some(place) = faces.place_of(face.0) else {
        return;
    };
    tallies[place + 1] = with_shell(tallies[place + 1], ring);
}

/// Counts a shell of this number for each face on the left of its darts.
fn count_walk(tallies: &mut Vec<Tally>, faces: &Rows<FaceRow>, walk: &Walk<'_>, ring: usize)
    requires len { vec_len tallies.old ≡ length faces.now + 1 }
    requires ring { ring + 1 < 2 ^ 64 }
    ensures len { vec_len tallies.new ≡ vec_len tallies.old }
    ensures counted { (tally : ℕ → TallyValue) → AreTallies tally faces.now tallies.old.items → AreTallies (with_ring ring (ring_in walk.now) tally) faces.now tallies.new.items }
{
    for side in &walk.sides {
        count_side(tallies, faces, left_of(side), ring);
    }
}

/// The number of shells of face 0, and of each listed face.
fn shells_of(alloc: Global, faces: &Rows<FaceRow>, walks: &[Walk<'_>]) -> Result<Vec<Tally>, Memory>
    requires { All IsWalk walks.now }
    ensures len { IfOk result (λ v. vec_len v ≡ length faces.now + 1) }
    ensures counts { IfOk result (λ v. map (λ (t : TallyValue). t.count) v.items ≡ map (λ (f : FaceValue). number_of_shells (map ring_in walks.now) f.face_id) (universal_face ∷ faces.now)) }
{
    let none = Tally { count: 0, until: 0 };
    let mut tallies = vec![in alloc; none; faces.rows().len() + 1]?;
    for ring in 0..walks.len() {
        if walks[ring].is_shell {
            count_walk(&mut tallies, faces, &walks[ring], ring);
        }
    }
    Ok(tallies)
}

/// How many shells a face should have.
fn shells_due(face: FaceId) -> u64
    ensures { result ≡ number_due face }
{
    if face.0 == 0 { 0 } else { 1 }
}

fn count_wrong(face: FaceId, count: u64, report: &mut Report) -> Result<(), Memory>
    ensures { OnOk result (report.new ≡ report.old ++ lines_of_count face count) }
{
    report.push_if(
        count != shells_due(face),
        ReportLine::FaceShells { face, count },
    )
}

/// The lines of the faces that don't have one shell, or none in the place of face 0.
fn counts_wrong(faces: &[FaceRow], tallies: &[Tally], report: &mut Report) -> Result<(), Memory>
    requires { length tallies.now ≡ length faces.now + 1 }
    ensures { OnOk result ((count : ℕ → ℕ) → map (λ (t : TallyValue). t.count) tallies.now ≡ map (λ (f : FaceValue). count f.face_id) (universal_face ∷ faces.now) → report.new ≡ report.old ++ lines_of_counts count (universal_face ∷ faces.now)) }
{
    count_wrong(FaceId(0), tallies[0].count, report)?;
    for index in 0..faces.len() {
        count_wrong(faces[index].face_id, tallies[index + 1].count, report)?;
    }
    Ok(())
}

/// The lines on the sides of rings and the shells of faces.
pub fn ring_lines(
    alloc: Global,
    faces: &Rows<FaceRow>,
    sides: &[Side<'_>],
    followers: &Followers,
    walks: &[Walk<'_>],
    report: &mut Report,
) -> Result<(), Memory>
    requires followed { AreFollowed (halves_of sides.now) followers.now }
    requires walks { AreWalks (halves_of sides.now) walks.now }
    ensures { OnOk result (report.new ≡ report.old ++ lines_of_rings (halves_of sides.now) (universal_face ∷ faces.now)) }
{
    backward_sides(sides, followers, report)?;
    forward_sides(sides, followers, report)?;
    let tallies = shells_of(alloc, faces, walks)?;
    counts_wrong(faces.rows(), &tallies, report)?;
    Ok(())
}
