ghost use Rattle.std.specs.Prelude.{◌≡◌, ℕ, List, ◌++◌, drop, IsTrue, IfOk};
ghost use Rattle.topo_base.specs.declared.edit.Entry.{Entry};
ghost use Rattle.drawing.specs.InRange.{is_spelled};
ghost use Rattle.history_model.specs.Spelling.{entry_bytes};
ghost use Rattle.entry_codec.specs.Gives.{Gives, IsInFront};
ghost use Rattle.entry_codec.specs.Reading.{fields_at, edit_at, editor_at, entry_at};

use crate::CodecEnd;
use crate::feature_edits::feature_edit;
use crate::isolated_edits::isolated_edit;
use crate::joined_edits::joined_edit;
use crate::parts::number_of;
use std::alloc::Global;
use topo_base::{Edit, Entry};

/// The edit of this tag, from the bytes behind it.
#[tactic(auto, unfolding(crate::specs::Reading::fields_at))]
fn fields_of(alloc: Global, tag: u8, bytes: &[u8]) -> Result<(Edit, &[u8]), CodecEnd>
    ensures { Gives (λ x. (x.0, x.1.now)) result (fields_at tag bytes.now) }
{
    if tag <= 5 {
        isolated_edit(alloc, tag, bytes)
    } else if tag <= 13 {
        joined_edit(alloc, tag, bytes)
    } else {
        feature_edit(alloc, tag, bytes)
    }
}

/// The edit whose tag and fields the bytes begin with.
#[tactic(auto, unfolding(crate::specs::Reading::edit_at))]
fn edit_of(alloc: Global, bytes: &[u8]) -> Result<(Edit, &[u8]), CodecEnd>
    ensures { Gives (λ x. (x.0, x.1.now)) result (edit_at bytes.now) }
{
    match bytes {
        [] => Err(CodecEnd::NoEntry),
        [tag, rest @ ..] => fields_of(alloc, *tag, rest),
    }
}

/// An editor: a number from 1 to 64.
#[tactic(auto, unfolding(crate::specs::Reading::editor_at))]
fn editor_of(bytes: &[u8]) -> Result<(u32, &[u8]), CodecEnd>
    ensures { Gives (λ x. (x.0, x.1.now)) result (editor_at bytes.now) }
{
    let (editor, rest) = number_of(bytes)?;
    if editor < 1 || editor > 64 {
        return Err(CodecEnd::NoEntry);
    }
    Ok((editor, rest))
}

/// The entry whose spelling the bytes begin with, and what stands behind it.
#[tactic(auto, unfolding(crate::specs::Reading::entry_at))]
fn entry_of(alloc: Global, bytes: &[u8]) -> Result<(Entry, &[u8]), CodecEnd>
    ensures { Gives (λ x. (x.0, x.1.now)) result (entry_at bytes.now) }
{
    let (editor, rest) = editor_of(bytes)?;
    match edit_of(alloc, rest) {
        Ok((edit, rest)) => Ok((Entry { editor, edit }, rest)),
        Err(end) => Err(end),
    }
}

/// The entry whose spelling the bytes begin with, and how many bytes that has. Whatever stands behind it
/// is left.
///
/// # Errors
///
/// `NoEntry` where the bytes begin with the spelling of no entry that can be spelled, also where they
/// are cut short; `Memory`.
pub fn decode(alloc: Global, bytes: &[u8]) -> Result<(Entry, usize), CodecEnd>
    ensures found { IfOk result (λ p. IsInFront bytes.now p.0 p.1) }
    ensures none { result ≡ Err CodecEnd.NoEntry → (x : Entry) (rest : List ℕ) → IsTrue (is_spelled x) → bytes.now ≡ entry_bytes x ++ rest → ⊥ }
    ensures exact { Gives (λ p. (p.0, drop p.1 bytes.now)) result (entry_at bytes.now) }
{
    match entry_of(alloc, bytes) {
        Ok((entry, rest)) => Ok((entry, bytes.len() - rest.len())),
        Err(end) => Err(end),
    }
}
