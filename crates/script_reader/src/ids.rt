ghost use Rattle.std.specs.Prelude.{◌≡◌, IfOk, IsTrue};
ghost use Rattle.std.specs.Fmt.{decimal};
ghost use Rattle.drawing.specs.InRange.{is_id};
ghost use Rattle.script_reader.specs.Reading.{Finds, IsIdWord, IsOptionIdWord};

use crate::names::name_of;
use std::alloc::Global;
use topo_base::{IdWord, Memory};
use topo_io::number;

/// The id whose strict decimal the word is. Takes no memory.
fn id_number(word: &[u8]) -> Option<u32>
    ensures { Finds (λ n. IsTrue (is_id n) × (word.now ≡ decimal n)) result }
{
    let Some(n) = number(word) else {
        return None;
    };
    match u32::try_from(n) {
        Ok(id) => Some(id),
        Err(_) => None,
    }
}

/// The id that a word stands for: a strict decimal below 2^32, or `$` and a name.
pub fn id_word(alloc: Global, word: &[u8]) -> Result<Option<IdWord>, Memory>
    ensures { IfOk result (Finds (IsIdWord word.now)) }
{
    match word.strip_prefix(b"$".as_slice()) {
        Some(name) => match name_of(alloc, name)? {
            Some(name) => Ok(Some(IdWord::Bound(name))),
            None => Ok(None),
        },
        None => match id_number(word) {
            Some(id) => Ok(Some(IdWord::Number(id))),
            None => Ok(None),
        },
    }
}

/// The id that a word stands for, where `-` stands for none.
pub fn option_id_word(alloc: Global, word: &[u8]) -> Result<Option<Option<IdWord>>, Memory>
    ensures { IfOk result (Finds (IsOptionIdWord word.now)) }
{
    if word == b"-".as_slice() {
        return Ok(Some(None));
    }
    match id_word(alloc, word)? {
        Some(id) => Ok(Some(Some(id))),
        None => Ok(None),
    }
}
