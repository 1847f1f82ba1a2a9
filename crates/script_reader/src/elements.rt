ghost use Rattle.std.specs.Prelude.{List, IfOk, MatchOption};
ghost use Rattle.topo_base.specs.declared.named.NamedPair.{NamedPair};
ghost use Rattle.script_model.specs.Script.{words_of};
ghost use Rattle.script_reader.specs.Reading.{Finds, ArePairs, IsPair};

use crate::ids::id_word;
use crate::words::{first_two_words, first_word};
use std::alloc::Global;
use topo_base::{Memory, NamedPair, NamedPairList};

/// The most elements that an edit lists.
const MAX_ELEMENTS: usize = 4096;

/// The element whose id and type two words are.
fn pair_of(alloc: Global, id: &[u8], element_type: &[u8]) -> Result<Option<NamedPair>, Memory>
    ensures { IfOk result (Finds (IsPair id.now element_type.now)) }
{
    let Some(id) = id_word(alloc, id)? else {
        return Ok(None);
    };
    let Some(element_type) = id_word(alloc, element_type)? else {
        return Ok(None);
    };
    Ok(Some(NamedPair { id, element_type }))
}

/// The elements whose ids and types the words are, two words an element. Not more than 4096 elements are
/// kept, however many words there are.
fn pairs_of(alloc: Global, words: &[u8]) -> Result<Option<Vec<NamedPair>>, Memory>
    ensures { IfOk result (λ o. MatchOption o ((xs : List NamedPair) → ArePairs (words_of words.now) xs → ⊥) (λ v. ArePairs (words_of words.now) v.items)) }
{
    let mut pairs = Vec::new(alloc);
    let mut rest = words;
    while let Some((id, element_type, after)) = first_two_words(rest) {
        if pairs.len() == MAX_ELEMENTS {
            return Ok(None);
        }
        let Some(pair) = pair_of(alloc, id, element_type)? else {
            return Ok(None);
        };
        pairs.push(pair)?;
        rest = after;
    }
    match first_word(rest) {
        Some(_) => Ok(None),
        None => Ok(Some(pairs)),
    }
}

/// The elements that an edit lists: at most 4096, two words an element.
pub fn elements_of(alloc: Global, words: &[u8]) -> Result<Option<NamedPairList>, Memory>
    ensures { IfOk result (Finds (ArePairs (words_of words.now))) }
{
    let Some(pairs) = pairs_of(alloc, words)? else {
        return Ok(None);
    };
    match NamedPairList::of(pairs) {
        Ok(elements) => Ok(Some(elements)),
        Err(_) => Ok(None),
    }
}
