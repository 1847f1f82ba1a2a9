//! The laws of rings, each carried by a function that does nothing.

ghost use Rattle.face_rings.specs.FaceBorder.{RingsAreRight};
ghost use Rattle.face_rings.specs.RingLaw.{RingsDivide};

/// On a plain drawing whose rings have one face each, the border of a face meets the conditions of
/// `FaceContent::of_rows`, `ring_of` and `face_rings`: its darts ascend, next leads from each to one of
/// them, and from no two to one. Their answers are the rings of the half-edges that have the face on
/// their left.
pub fn face_rings_law()
    ensures { RingsAreRight }
{}

/// Where next leads from no two darts of a border to one, the ring of a dart comes back to it and has
/// no dart twice, and each dart is in exactly one of the rings.
pub fn ring_law()
    ensures { RingsDivide }
{}
