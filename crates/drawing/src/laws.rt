//! Laws of drawings, each carried by a function that does nothing.

ghost use Rattle.drawing.specs.Laws.{EditsFollow, TablesStand};

/// Some edits and then more are all of them.
pub fn replay_law()
    ensures { EditsFollow }
{}

/// The tables of a drawing stand for it.
pub fn tables_law()
    ensures { TablesStand }
{}
