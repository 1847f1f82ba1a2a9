//! The laws of the core, each carried by a function that does nothing.

ghost use Rattle.core_law.specs.CoreLaw.{CoreIsRight, IsCoreRight};
ghost use Rattle.core_law.specs.Reading.{StampsTell, nothing_read};
ghost use Rattle.history_model.specs.Reads.{whole_drawing};

/// Where a stamp is the same at two places of an accepted history, so is the content.
pub fn stamp_law()
    ensures { StampsTell }
{}

/// After any events of any editors the history is legal and begins with the one at the start. What it gained are the
/// commits that were done, in order, each once, and of each editor its own; each stands behind all that its editor had
/// seen. Each answer is right, no rule of Step refuses a commit, and one that is stale names what was read and has
/// another stamp now. So it is for every table of reads by which edits are decided.
pub fn core_law()
    ensures { CoreIsRight }
{}

/// So it is where each edit reads the whole drawing.
pub fn whole_drawing_law()
    ensures { IsCoreRight whole_drawing }
{}

/// So it is not where no edit reads anything: then two editors put a node at one point.
pub fn unread_law()
    ensures { IsCoreRight nothing_read → ⊥ }
{}
