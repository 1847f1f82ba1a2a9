ghost use Rattle.std.specs.Prelude.{◌≡◌, ◌↔◌, ◌⊎◌, ◌+◌, ◌<◌, [], ◌∷◌, ◌++◌, IsTrue, IsSome, IfOk, IfSome, IfNone, false, true, if◌then◌else◌, drop, length, take};
ghost use Rattle.topo_base.specs.Point.{same_point};
ghost use Rattle.topo_base.specs.RationalPoint.{RationalPoint};
ghost use Rattle.plane.specs.Line.{first_vertex, is_inside_line, is_simple, line_from, line_up_to, on_line};
ghost use Rattle.plane.specs.LinePoints.{has_proper_segments};
ghost use Rattle.plane.specs.RationalTests.{IsOnLine};

use crate::meetings::is_line_end;
use crate::proper::{is_same_point, segment};
use grid_segments::on_segment;
use std::alloc::Global;
use topo_base::{Grid, Line, Memory};

/// The index of the vertex where the first segment begins on which p lies, counted from 0.
fn find_segment(vertices: &[Grid], p: Grid) -> Option<usize>
    requires some { 0 < length vertices.now }
    requires proper { IsTrue (has_proper_segments vertices.now) }
    ensures within { IfSome result (λ i. i + 1 < length vertices.now) }
    ensures up_to { IfSome result (λ i. line_up_to p vertices.now ≡ take (i + 1) vertices.now ++ p ∷ []) }
    ensures from { IfSome result (λ i. line_from p vertices.now
        ≡ (if same_point p (first_vertex (drop (i + 1) vertices.now)) then drop (i + 1) vertices.now else p ∷ drop (i + 1) vertices.now)) }
    ensures on { IfSome result (λ i. on_line p vertices.now ≡ true) }
    ensures off { IfNone result (on_line p vertices.now ≡ false) }
{
    for i in 0..vertices.len() - 1 {
        if on_segment(p, &segment(vertices, i)) {
            return Some(i);
        }
    }
    None
}

/// The vertices up to the one with this index, and then p.
fn part_up_to(alloc: Global, vertices: &[Grid], i: usize, p: Grid) -> Result<Line, Memory>
    requires { i < length vertices.now }
    ensures { IfOk result (λ line. line ≡ take (i + 1) vertices.now ++ p ∷ []) }
{
    let (front, _) = vertices.split_at(i + 1);
    let mut part = front.to_vec(alloc)?;
    part.push(p)?;
    Ok(Line::of(part).unwrap())
}

/// p, if the next vertex is another point, and then these vertices.
fn part_from(alloc: Global, p: Grid, next: &[Grid]) -> Result<Line, Memory>
    requires some { 0 < length next.now }
    requires second { IsTrue (same_point p (first_vertex next.now)) → 1 < length next.now }
    ensures { IfOk result (λ line. line
        ≡ (if same_point p (first_vertex next.now) then next.now else p ∷ next.now)) }
{
    let mut part = Vec::new(alloc);
    if !is_same_point(&p, &next[0]) {
        part.push(p)?;
    }
    part.extend_from_slice(next)?;
    Ok(Line::of(part).unwrap())
}

/// The parts of a simple line up to p and from p on, whose points are together those of the line.
/// A vertex at p stands once in each of them. None exactly where p is not on the line, or is its
/// first vertex or its last.
pub fn split_at(alloc: Global, line: &Line, p: Grid) -> Result<Option<(Line, Line)>, Memory>
    requires { IsTrue (is_simple line.now) }
    ensures inside { IfOk result (λ parts. IsSome parts ↔ IsTrue (is_inside_line p line.now)) }
    ensures parts { IfOk result (λ parts. IfSome parts (λ part.
        (part.0 ≡ line_up_to p line.now) × (part.1 ≡ line_from p line.now))) }
    ensures points { IfOk result (λ parts. IfSome parts (λ part. (q : RationalPoint)
        → (IsOnLine q line.now ↔ (IsOnLine q part.0 ⊎ IsOnLine q part.1)))) }
{
    if is_line_end(&p, line) {
        return Ok(None);
    }
    let vertices = line.vertices();
    let Some(i) = find_segment(vertices, p) else {
        return Ok(None);
    };
    let first = part_up_to(alloc, vertices, i, p)?;
    let (_, next) = vertices.split_at(i + 1);
    let second = part_from(alloc, p, next)?;
    Ok(Some((first, second)))
}
