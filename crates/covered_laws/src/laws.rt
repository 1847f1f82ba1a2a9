//! The law of the definition, carried by a function that does nothing.

ghost use Rattle.covered_laws.specs.Definition.{DefinitionTellsAll};

/// A drawing that is a planar subdivision by the definition, whose lines have two vertices or more and whose new ids
/// are 1 or more, has all that the laws of subdivisions keep: left of each segment of an edge is its face, by the
/// parity of the border above, each listed face but 0 has one ring that is a shell, and isolated nodes are in their
/// faces by the same parity.
pub fn definition_law()
    ensures { DefinitionTellsAll }
{}
