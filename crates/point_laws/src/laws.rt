//! The law of the points of features, carried by a function that does nothing.

ghost use Rattle.point_laws.specs.FirstAlone.{FirstAloneLosesPoints};
ghost use Rattle.point_laws.specs.PointsStay.{PointsStay};

/// A change leaves the rational points of each feature that is there before and after, at every level of layers: nodes
/// and edges that come, go and are split, faces that are divided and that join, and layers and features that come and
/// go. A node that moves leaves those of each feature that does not descend to one that lists it, and a feature that
/// lists an element more or less those of each that does not descend to it.
pub fn points_law()
    ensures { PointsStay }
{}

/// All features that list a face have to follow it to its parts: where the first alone does, the second loses points.
pub fn first_alone_law()
    ensures { FirstAloneLosesPoints }
{}
