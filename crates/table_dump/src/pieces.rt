// The lines of a text, and the words of a line.
ghost use Rattle.std.specs.Prelude.{◌≡◌, ◌<◌, ◌==◌, [], ◌∷◌, length, IsTrue, IfSome, IfNone};
ghost use Rattle.script_model.specs.Script.{is_whole};
ghost use Rattle.table_dump.specs.Lines.{lines_of, words_of, words_behind, IsFirstAt};
ghost use Rattle.table_dump.specs.Words.{Gives, word_at};

use crate::ends::LineEnd;

/// Where the first such byte stands.
fn place_of(text: &[u8], byte: u8) -> Option<usize>
    ensures some { IfSome result (IsFirstAt byte text.now) }
    ensures none { IfNone result (IsTrue (is_whole (λ c. c == byte) text.now)) }
{
    for (at, one) in text.iter().enumerate() {
        if *one == byte {
            return Some(at);
        }
    }
    None
}

/// The first word of a line, and what follows it: a space and the other words, or nothing.
pub fn front_word(line: &[u8]) -> (&[u8], &[u8])
    ensures { words_of line.now ≡ result.0.now ∷ words_behind result.1.now }
{
    match place_of(line, b' ') {
        Some(at) => line.split_at(at),
        None => line.split_at(line.len()),
    }
}

/// The next word, from the space before it on, and what follows it.
pub fn next_word(words: &[u8]) -> Option<(&[u8], &[u8])>
    ensures some { IfSome result (λ x. words_behind words.now ≡ x.0.now ∷ words_behind x.1.now) }
    ensures none { IfNone result (words_behind words.now ≡ []) }
{
    match words {
        [] => None,
        [_, text @ ..] => Some(front_word(text)),
    }
}

/// The next word, where there is one.
#[tactic(auto, unfolding(crate::specs::Words::word_at))]
pub fn word(words: &[u8]) -> Result<(&[u8], &[u8]), LineEnd>
    ensures { Gives (λ x. (x.0.now, words_behind x.1.now)) result (word_at (words_behind words.now)) }
{
    match next_word(words) {
        None => Err(LineEnd::Bad),
        Some(parts) => Ok(parts),
    }
}

/// The first line of a text, without its line feed, and the lines behind it.
pub fn first_line(text: &[u8]) -> (&[u8], &[u8])
    requires { 0 < length text.now }
    ensures lines { lines_of text.now ≡ result.0.now ∷ lines_of result.1.now }
    ensures shorter { length result.1.now < length text.now }
{
    match place_of(text, b'\n') {
        Some(at) => {
            let (line, rest) = text.split_at(at);
            let (_, after) = rest.split_at(1);
            (line, after)
        }
        None => text.split_at(text.len()),
    }
}
