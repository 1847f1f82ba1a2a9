//! Scripts: the grammar of their lines, the names that they bind, and the edits that they give.
//!
//! It stands on `script_model`, whose definition of the grammar is over bytes. It promises that a text is
//! read as the one script that it spells, or that its first bad line is named, and that a name stands for
//! the id to which it was bound last. Whether an edit is accepted is left to the crates above.
#![tactic(auto)]

mod arguments;
mod bindings;
mod edge_edits;
mod edits;
mod elements;
mod end;
mod feature_edits;
mod ids;
mod isolated_edits;
mod kinds;
mod line;
mod lines;
mod names;
mod parting;
mod points;
mod read;
mod resolving;
#[cfg(test)]
mod tests;
mod vertices;
mod words;

pub use bindings::Bindings;
pub use end::ResolveEnd;
pub use line::{LineEdit, ScriptLine};
pub use read::{ScriptEnd, read_script};
