//! The laws of an added edge, each carried by a function that does nothing.

ghost use Rattle.local_laws.specs.Boxes.{PartsLieInBoxes};
ghost use Rattle.local_laws.specs.Lines.{LinesLieInFaces};
ghost use Rattle.local_laws.specs.Parts.{DivisionIsLocal};

/// In a subdivision a simple line between two nodes that isn't blocked has the same face at both of its ends. So the
/// rule LineBlocked refuses no line by its faces alone, and where an edge may come, each point of its line but the
/// ends is in its face.
pub fn line_law()
    ensures { LinesLieInFaces }
{}

/// Where an edge divides a face, no vertex of another ring of that face is one of the edge's two rings, and they are
/// all on the left of its left ring or none is: the part that has any one of them is the part beside the ring. A
/// vertex of the right ring that isn't one of the left ring's is not on the left. So for a half-edge of the face that
/// isn't of the left ring, a vertex of it that isn't one of the left ring's tells the part beside it.
pub fn division_law()
    ensures { DivisionIsLocal }
{}

/// A point over which a ring is odd is in each box that has the ring's vertices. Of the two rings of an edge that
/// divides a face one is a shell, or both are; each vertex of another ring of that face, and each node in it, is on
/// the left of exactly one of the two. So what is out of the box of one that is a shell is in the other part.
pub fn box_law()
    ensures { PartsLieInBoxes }
{}
