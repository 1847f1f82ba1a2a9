ghost use Rattle.std.specs.Prelude.{◌≡◌, ◌<◌, ◌∷◌, ◌++◌, ℕ, List, length};
ghost use Rattle.script_model.specs.Script.{lines_of, without_returns, is_line_feed};
ghost use Rattle.script_reader.specs.Parting.{IsWhole};

use crate::parting::{Separator, split};

/// The line without a carriage return at its end.
fn without_return(line: &[u8]) -> &[u8]
    ensures { IsWhole is_line_feed line.now
        → IsWhole is_line_feed result.now × ((rest : List ℕ) → without_returns (line.now ++ 10 ∷ rest) ≡ result.now ++ 10 ∷ without_returns rest) }
{
    match line.strip_suffix(b"\r".as_slice()) {
        Some(front) => front,
        None => line,
    }
}

/// The first line, without what ends it, and the text behind it. Takes no memory.
pub fn first_line(text: &[u8]) -> (&[u8], &[u8])
    requires { 0 < length text.now }
    ensures lines { lines_of text.now ≡ result.0.now ∷ lines_of result.1.now }
    ensures shorter { length result.1.now < length text.now }
{
    match split(text, Separator::LineFeed) {
        Some((line, after)) => (without_return(line), after),
        None => {
            let (line, after) = text.split_at(text.len());
            (line, after)
        }
    }
}
