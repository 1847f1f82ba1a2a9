//! The laws of faces, each carried by a function that does nothing.

ghost use Rattle.std.specs.Prelude.{◌≡◌, ℕ, Bool, IsTrue};
ghost use Rattle.std.specs.List.{Contains};
ghost use Rattle.topo_base.specs.Point.{Point};
ghost use Rattle.drawing.specs.Drawing.{Drawing};
ghost use Rattle.drawing.specs.Faced.{IsFaced};
ghost use Rattle.drawing.specs.Faces.{face_at};
ghost use Rattle.plane.specs.Parity.{is_odd_over};
ghost use Rattle.drawing.specs.HalfEdge.{HalfEdge, half_edges};
ghost use Rattle.drawing.specs.Ring.{is_shell, ring_of, ring_segments};
ghost use Rattle.plane.specs.Segment.{Segment};
ghost use Rattle.drawing.specs.Subdivision.{faces_have_shells};
ghost use Rattle.face_rings.specs.FaceBorder.{HasRings};
ghost use Rattle.parity_laws.specs.Rings.{In, those, Drawn, OneRing, Ringwise};
ghost use Rattle.parity_laws.specs.Steps.{above, left};
ghost use Rattle.face_laws.specs.Walked.{steps_along, steps_of, is_of};
ghost use Rattle.face_laws.specs.Covered.{face_of, IsInFaceOf, IsCovered};

/// The steps of a plain drawing whose rings have one face each are a plain list, each once; each step has on
/// its left the face of its half-edge, and the steps of a ring of half-edges are one ring of steps.
pub fn steps_law()
    ensures drawn { (S : Drawing) → HasRings S → Drawn (steps_of S) }
    ensures faces { (S : Drawing) (h : HalfEdge) (s : Segment) → HasRings S → Contains (half_edges S) h → In s (steps_along h) → face_of S s ≡ h.on_left }
    ensures ringwise { (S : Drawing) (h : HalfEdge) → HasRings S → Contains (half_edges S) h → Ringwise (steps_of S) (is_of (ring_of (half_edges S) h)) }
    ensures ring { (S : Drawing) (h : HalfEdge) → HasRings S → Contains (half_edges S) h → OneRing (steps_of S) (is_of (ring_of (half_edges S) h)) }
{}

/// In a covered drawing each point off the edges is in exactly one listed face by parity, what sees an edge from
/// one side is in the face on that side, and each isolated node is in its containing face; and each point is in
/// the face that the definition finds for it.
pub fn faced_law()
    ensures faced { (S : Drawing) → IsCovered S → IsFaced S }
    ensures placed { (S : Drawing) (p : Point) → IsCovered S → IsInFaceOf S p (face_at S p) }
{}

/// The definition's test of shells, by the wedge at a ring's top vertex, is the parity of the ring on its own
/// left, and the segments of a ring over a point are counted as its steps are. So in a covered drawing each
/// listed face but 0 has exactly one shell by that test, and face 0 has none.
pub fn shells_law()
    ensures shell { (S : Drawing) (h : HalfEdge) (s : Segment) → HasRings S → Contains (half_edges S) h → In s (steps_along h)
        → is_shell (ring_of (half_edges S) h) ≡ left (those (is_of (ring_of (half_edges S) h)) (steps_of S)) s }
    ensures over { (S : Drawing) (h : HalfEdge) (q : Point) → HasRings S → Contains (half_edges S) h
        → is_odd_over q (ring_segments (ring_of (half_edges S) h)) ≡ above (those (is_of (ring_of (half_edges S) h)) (steps_of S)) q }
    ensures listed { (S : Drawing) → IsCovered S → IsTrue (faces_have_shells S) }
{}
