//! The law of subdivisions, carried by a function that does nothing.

ghost use Rattle.subdivision_laws.specs.Subdivided.{SubdivisionsStay};

/// Each edit within the limits keeps a drawing a planar subdivision: it is plain, its references are known, each
/// of its rings has one face on its left, each point off its edges is in exactly one listed face, what sees an
/// edge from a side is in the face on that side, isolated nodes are in their containing faces, and each listed
/// face but 0 has exactly one shell. So the drawing of every legal history is one.
pub fn subdivisions_law()
    ensures { SubdivisionsStay }
{}
