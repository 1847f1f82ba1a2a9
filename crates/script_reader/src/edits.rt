ghost use Rattle.std.specs.Prelude.{◌∷◌, IfOk};
ghost use Rattle.script_model.specs.Script.{words_of};
ghost use Rattle.script_reader.specs.Reading.{Finds, IsEdit};

use crate::edge_edits::edge_edit;
use crate::feature_edits::feature_edit;
use crate::isolated_edits::isolated_edit;
use std::alloc::Global;
use topo_base::{Memory, NamedEdit};

/// The edit of this word with these arguments. Each kind of edit that a script can spell has its line
/// here.
pub fn edit_of(alloc: Global, word: &[u8], arguments: &[u8]) -> Result<Option<NamedEdit>, Memory>
    ensures { IfOk result (Finds (IsEdit (word.now ∷ words_of arguments.now))) }
{
    if let Some(edit) = isolated_edit(alloc, word, arguments)? {
        return Ok(Some(edit));
    }
    if let Some(edit) = edge_edit(alloc, word, arguments)? {
        return Ok(Some(edit));
    }
    match feature_edit(alloc, word, arguments)? {
        Some(edit) => Ok(Some(edit)),
        None => Ok(None),
    }
}
