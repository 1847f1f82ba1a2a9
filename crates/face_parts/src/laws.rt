//! Laws of divided faces, carried by functions that do nothing.

ghost use Rattle.face_parts.specs.SidesLaw.{SidesFollow};

/// The row writes of sides and of containing faces give each dart and each node its part, and change
/// nothing else.
pub fn sides_law()
    ensures { SidesFollow }
{}
