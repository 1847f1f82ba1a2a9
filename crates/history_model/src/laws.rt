//! The law of runs, carried by a function that does nothing.

ghost use Rattle.history_model.specs.Run.{RunsAreRight};

/// Of edits within the limits that one editor tries, one after another, the accepted ones stand in one legal history, in
/// order, each answer is right on it, and after each entry the drawing is plain.
pub fn runs_law()
    ensures { RunsAreRight }
{}
