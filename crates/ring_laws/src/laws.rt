//! The laws of rings, each carried by a function that does nothing.

ghost use Rattle.ring_laws.specs.Parts.{PartsFollow};
ghost use Rattle.ring_laws.specs.Ringed.{RingsStay};

/// Each edit within the limits keeps a drawing one whose rings have one face each: plain, with lines of
/// two vertices or more, faces that are listed, and nodes that have a containing face exactly where they
/// have no edge. So the drawing of every legal history is such a drawing, and so is the one with an edge
/// that was added and whose face is still to be divided.
pub fn rings_law()
    ensures { RingsStay }
{}

/// Where an edge divides a face, the half-edges of each ring have one part beside them.
pub fn parts_law()
    ensures { PartsFollow }
{}
