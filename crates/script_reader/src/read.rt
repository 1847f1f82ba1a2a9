ghost use Rattle.std.specs.Prelude.{◌≡◌, ◌≤◌, ◌∷◌, ℕ, List, codes, length, IfOk, MatchOption};
ghost use Rattle.script_model.specs.Script.{IsScript, IsFirstBad, words_of};
ghost use Rattle.script_model.specs.NamedRange.{is_script_line};
ghost use Rattle.script_reader.specs.Reading.{Finds, AreWordsOf, IsReading};

use crate::ScriptLine;
use crate::edits::edit_of;
use crate::lines::first_line;
use crate::names::names_of;
use crate::words::first_word;
use std::alloc::{AllocFailed, Global};
use thiserror::Error;
use topo_base::Memory;

/// Why a script isn't run.
#[derive(Clone, Copy, Debug, PartialEq, Eq, Error)]
pub enum ScriptEnd {
    /// The first line that is neither skipped nor spells an edit, counted from 1.
    #[error("bad line {line}")]
    BadLine { line: u64 },
    #[error("out of memory")]
    Memory,
}

impl<T: Drop> From<AllocFailed<T>> for ScriptEnd {
    ghost use Rattle.std.specs.Prelude.{◌≡◌};
    ghost use Rattle.script_reader.specs.declared.read.ScriptEnd.TheVariants.{Memory};

    ghost from_gives = { λ _ e. e ≡ Memory };

    fn from(_: AllocFailed<T>) -> Self {
        ScriptEnd::Memory
    }
}

impl From<Memory> for ScriptEnd {
    ghost use Rattle.std.specs.Prelude.{◌≡◌};
    ghost use Rattle.script_reader.specs.declared.read.ScriptEnd.TheVariants.{Memory};

    ghost from_gives = { λ _ e. e ≡ Memory };

    fn from(_: Memory) -> Self {
        ScriptEnd::Memory
    }
}

/// What a line is read as.
enum Reading {
    Skipped,
    Edit(ScriptLine),
    Bad,
}

/// What stands behind `=`, where that is the first word.
fn behind_equals(line: &[u8]) -> Option<&[u8]>
    ensures { MatchOption result ((ws : List (List ℕ)) → words_of line.now ≡ codes "=" ∷ ws → ⊥) (λ rest. words_of line.now ≡ codes "=" ∷ words_of rest.now) }
{
    let Some((word, rest)) = first_word(line) else {
        return None;
    };
    if word == b"=".as_slice() {
        Some(rest)
    } else {
        None
    }
}

/// The line that binds the names of a word to the ids of the edit behind `=`.
fn binding_line(alloc: Global, names: &[u8], edit: &[u8]) -> Result<Option<ScriptLine>, Memory>
    ensures { IfOk result (Finds (AreWordsOf (names.now ∷ codes "=" ∷ words_of edit.now))) }
{
    let Some((word, arguments)) = first_word(edit) else {
        return Ok(None);
    };
    let Some(names) = names_of(alloc, names)? else {
        return Ok(None);
    };
    let Some(edit) = edit_of(alloc, word, arguments)? else {
        return Ok(None);
    };
    Ok(Some(ScriptLine::of(alloc, names, edit)?))
}

/// The line of this first word and what stands behind it.
fn line_of(alloc: Global, word: &[u8], rest: &[u8]) -> Result<Option<ScriptLine>, Memory>
    ensures { IfOk result (Finds (AreWordsOf (word.now ∷ words_of rest.now))) }
{
    if let Some(edit) = behind_equals(rest) {
        return binding_line(alloc, word, edit);
    }
    let Some(edit) = edit_of(alloc, word, rest)? else {
        return Ok(None);
    };
    Ok(Some(ScriptLine::of(alloc, Vec::new(alloc), edit)?))
}

/// Reads a line.
fn read_line(alloc: Global, line: &[u8]) -> Result<Reading, Memory>
    ensures { IfOk result (IsReading line.now) }
{
    let Some((word, rest)) = first_word(line) else {
        return Ok(Reading::Skipped);
    };
    if word.starts_with(b"#".as_slice()) {
        return Ok(Reading::Skipped);
    }
    match line_of(alloc, word, rest)? {
        Some(line) => Ok(Reading::Edit(line)),
        None => Ok(Reading::Bad),
    }
}

/// The lines of a script, without those that are skipped, or its first bad line.
pub fn read_script(alloc: Global, text: &[u8]) -> Result<Vec<ScriptLine>, ScriptEnd>
    ensures script { IfOk result (λ ls. IsScript is_script_line text.now ls.items) }
    ensures short { IfOk result (λ ls. length ls.items ≤ length text.now) }
    ensures near { (n : ℕ) → result ≡ Err (ScriptEnd.BadLine n) → n ≤ length text.now }
    ensures bad { (n : ℕ) → result ≡ Err (ScriptEnd.BadLine n) → IsFirstBad is_script_line text.now n }
{
    let mut lines = Vec::new(alloc);
    let mut rest = text;
    let mut before = 0;
    while !rest.is_empty() {
        let (line, after) = first_line(rest);
        match read_line(alloc, line)? {
            Reading::Skipped => {}
            Reading::Edit(line) => lines.push(line)?,
            Reading::Bad => return Err(ScriptEnd::BadLine { line: before + 1 }),
        }
        before += 1;
        rest = after;
    }
    Ok(lines)
}
