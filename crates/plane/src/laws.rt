//! Laws of the plane, each carried by a function that does nothing.

ghost use Rattle.plane.specs.DirectionLaw.{ClockwiseIsOrder};
ghost use Rattle.plane.specs.ParityLaw.{ParityStays};

/// Clockwise from any direction the others stand in one strict order.
pub fn direction_law()
    ensures { ClockwiseIsOrder }
{}

/// Two points have the same parity of segments of a closed line straight above them where the
/// straight way between them does not meet the line.
pub fn parity_law()
    ensures { ParityStays }
{}
