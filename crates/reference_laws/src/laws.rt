//! The law of references, carried by a function that does nothing.

ghost use Rattle.reference_laws.specs.Referenced.{ReferencesStay};

/// Each edit within the limits keeps a drawing one whose references are known: ends, sides and containing
/// faces, children of layers, layers of features, and in relation rows the feature, the layer and the element
/// are listed, names of layers differ, and relation rows ascend. So the drawing of every legal history is such
/// a drawing.
pub fn references_law()
    ensures { ReferencesStay }
{}
