//! The laws of what is first above a point, each carried by a function that does nothing.

ghost use Rattle.above_laws.specs.FirstAbove.{FacesAreToldAbove};
ghost use Rattle.above_laws.specs.Faults.{FaultsTellAll};
ghost use Rattle.above_laws.specs.Indexed.{FacesAreFound};
ghost use Rattle.above_laws.specs.Keeping.{EdgesAreKept};
ghost use Rattle.above_laws.specs.Places.{PlacesAreTold};

/// In a drawing whose faces lie where their borders say, a point with no segment of an edge straight above it is in
/// face 0. With the first such segment above it, it is in the face of the segment's edge on the side on which the
/// point is.
pub fn above_law()
    ensures { FacesAreToldAbove }
{}

/// So, with an index that keeps exactly the segments of a topology's edges, each point is in the face on the left of
/// the dart that `SlabIndex::find_above` answers, and in face 0 where it answers none.
pub fn found_law()
    ensures { FacesAreFound }
{}

/// In a plain drawing each of whose rings has one face, the faces lie where their borders say exactly where the face
/// of each hole is the one above its top vertex, and an isolated node is in its containing face exactly where this is
/// the one above it.
pub fn places_law()
    ensures { PlacesAreTold }
{}

/// So a drawing whose ids and references are right, whose edges meet at nodes alone, whose rings have one face each,
/// whose listed faces but face 0 have one shell each, and whose holes and isolated nodes are in the faces above them, is a
/// planar subdivision; and a planar subdivision is such a drawing.
pub fn faults_law()
    ensures { FaultsTellAll }
{}

/// An index that keeps exactly the segments of some edges does so after `SlabIndex::insert`, `remove` and `settle`, of
/// the edges as they are then; and whatever their order and their links are.
pub fn keeping_law()
    ensures { EdgesAreKept }
{}
