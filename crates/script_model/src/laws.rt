//! The law of words, carried by a function that does nothing.

ghost use Rattle.script_model.specs.WordsLaw.{EditsReadBack};

/// The text of an edit is one line, and a script that has this line means that edit and no other.
pub fn words_law()
    ensures { EditsReadBack }
{}
