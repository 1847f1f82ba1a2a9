//! The law of changes, and laws of Step that follow from it, each carried by a function that does nothing.

ghost use Rattle.edit_changes.specs.ChangeLaw.{ChangesAreSteps};
ghost use Rattle.edit_changes.specs.IdsLaw.{IdsNeverFall, IdsStayInOrder};
ghost use Rattle.edit_changes.specs.PlainLaw.{PlainStays};
ghost use Rattle.edit_changes.specs.VerticesLaw.{SegmentsStay};

/// Step answers each edit as the decision says: with its rule, or with the drawing after the change that was decided and its ids.
/// What was decided has the facts that laws need, and what each decided change keeps holds in every accepted history.
pub fn changes_law()
    ensures { ChangesAreSteps }
{}

/// An id that was given is never given again.
pub fn ids_law()
    ensures { IdsNeverFall }
{}

/// The ids of each table ascend, below its next id.
pub fn order_law()
    ensures { IdsStayInOrder }
{}

/// Each edit within the limits keeps lines of two vertices or more.
pub fn vertices_law()
    ensures { SegmentsStay }
{}

/// Each edit keeps a drawing plain: nodes have different points, lines are simple and run between
/// their nodes, edges meet in common end nodes alone, and no other node lies on one. So the drawing
/// of every history is plain.
pub fn plain_law()
    ensures { PlainStays }
{}
