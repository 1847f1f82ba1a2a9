ghost use Rattle.std.specs.Prelude.{◌≡◌, ℕ, List, IfOk, IsTrue, MatchOption, false};
ghost use Rattle.topo_base.specs.Names.{is_name};
ghost use Rattle.script_reader.specs.Reading.{AreNames};

use crate::parting::{Separator, split};
use std::alloc::Global;
use topo_base::{Memory, Name};

/// The name that these bytes are.
pub fn name_of(alloc: Global, bytes: &[u8]) -> Result<Option<Name>, Memory>
    ensures { IfOk result (λ o. MatchOption o (is_name bytes.now ≡ false) (λ n. IsTrue (is_name bytes.now) × (n ≡ bytes.now))) }
{
    match Name::of(bytes.to_vec(alloc)?) {
        Ok(name) => Ok(Some(name)),
        Err(_) => Ok(None),
    }
}

/// The names that stand in a word with commas between them.
pub fn names_of(alloc: Global, word: &[u8]) -> Result<Option<Vec<Name>>, Memory>
    ensures { IfOk result (λ o. MatchOption o ((ns : List (List ℕ)) → AreNames word.now ns → ⊥) (λ v. AreNames word.now v.items)) }
{
    let mut names = Vec::new(alloc);
    let mut rest = word;
    while let Some((first, after)) = split(rest, Separator::Comma) {
        let Some(name) = name_of(alloc, first)? else {
            return Ok(None);
        };
        names.push(name)?;
        rest = after;
    }
    let Some(name) = name_of(alloc, rest)? else {
        return Ok(None);
    };
    names.push(name)?;
    Ok(Some(names))
}
