// The lines of a history.
ghost use Rattle.std.specs.Prelude.{◌≡◌, ◌+◌, ◌<◌, ◌^◌, ◌++◌, length, OnOk, IfOk};
ghost use Rattle.script_model.specs.Texts.{entry_text, entries_text, history_text as text_of_history};

use edit_words::{edit_text, push_count_word, push_word};
use std::alloc::Global;
use topo_base::{Entry, History, Memory, Text};

/// An entry with its number and its editor.
fn push_entry(alloc: Global, text: &mut Text, number: u64, entry: &Entry) -> Result<(), Memory>
    ensures { OnOk result (text.new ≡ text.old ++ entry_text number entry.now) }
{
    let edit = edit_text(alloc, &entry.edit)?;
    text.push_bytes(b"entry")?;
    push_count_word(text, number)?;
    push_word(text, b"editor")?;
    push_count_word(text, u64::from(entry.editor))?;
    push_word(text, edit.as_bytes())
}

fn push_entries(alloc: Global, text: &mut Text, entries: &[Entry]) -> Result<(), Memory>
    ensures { OnOk result (text.new ≡ text.old ++ entries_text 1 entries.now) }
{
    for (index, entry) in entries.iter().enumerate() {
        push_entry(alloc, text, index as u64 + 1, entry)?;
    }
    Ok(())
}

/// The lines of a history: each entry with its number, counted from 1, its editor, and its edit in the words of a
/// script, with numbers in place of names.
pub fn history_text(alloc: Global, history: &History) -> Result<Text, Memory>
    ensures { IfOk result (λ t. t ≡ text_of_history history.now.entries) }
{
    let mut text = Text::new(alloc);
    push_entries(alloc, &mut text, history.entries())?;
    Ok(text)
}
