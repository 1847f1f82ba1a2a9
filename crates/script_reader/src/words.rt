ghost use Rattle.std.specs.Prelude.{◌≡◌, [], ◌∷◌, ℕ, List, MatchOption};
ghost use Rattle.script_model.specs.Script.{words_of};
ghost use Rattle.script_reader.specs.Parting.{BeginsWithWord};

use crate::parting::{Separator, is_separator, split};

/// The line from its first byte on that isn't a blank.
fn without_blanks(line: &[u8]) -> &[u8]
    ensures words { words_of result.now ≡ words_of line.now }
    ensures begins { BeginsWithWord result.now }
{
    for (at, byte) in line.iter().enumerate() {
        if !is_separator(Separator::Blank, *byte) {
            let (_, rest) = line.split_at(at);
            return rest;
        }
    }
    let (_, rest) = line.split_at(line.len());
    rest
}

/// The first word of a line and what stands behind it, or `None` where there are only blanks. Takes no
/// memory.
pub fn first_word(line: &[u8]) -> Option<(&[u8], &[u8])>
    ensures { MatchOption result (words_of line.now ≡ []) (λ p. words_of line.now ≡ p.0.now ∷ words_of p.1.now) }
{
    let line = without_blanks(line);
    if line.is_empty() {
        return None;
    }
    match split(line, Separator::Blank) {
        Some(parts) => Some(parts),
        None => Some(line.split_at(line.len())),
    }
}

/// The first two words of a line and what stands behind them, or `None` where there are fewer. Takes no
/// memory.
pub fn first_two_words(line: &[u8]) -> Option<(&[u8], &[u8], &[u8])>
    ensures { MatchOption result ((a b : List ℕ) (ws : List (List ℕ)) → words_of line.now ≡ a ∷ b ∷ ws → ⊥) (λ p. words_of line.now ≡ p.0.now ∷ p.1.now ∷ words_of p.2.now) }
{
    let Some((a, rest)) = first_word(line) else {
        return None;
    };
    let Some((b, rest)) = first_word(rest) else {
        return None;
    };
    Some((a, b, rest))
}

/// The one word of a line that has one.
pub fn one_word(line: &[u8]) -> Option<&[u8]>
    ensures { MatchOption result ((a : List ℕ) → words_of line.now ≡ a ∷ [] → ⊥) (λ a. words_of line.now ≡ a.now ∷ []) }
{
    let Some((a, rest)) = first_word(line) else {
        return None;
    };
    let None = first_word(rest) else {
        return None;
    };
    Some(a)
}

/// The two words of a line that has two.
pub fn two_words(line: &[u8]) -> Option<(&[u8], &[u8])>
    ensures { MatchOption result ((a b : List ℕ) → words_of line.now ≡ a ∷ b ∷ [] → ⊥) (λ p. words_of line.now ≡ p.0.now ∷ p.1.now ∷ []) }
{
    let Some((a, rest)) = first_word(line) else {
        return None;
    };
    let Some(b) = one_word(rest) else {
        return None;
    };
    Some((a, b))
}

/// The three words of a line that has three.
pub fn three_words(line: &[u8]) -> Option<(&[u8], &[u8], &[u8])>
    ensures { MatchOption result ((a b c : List ℕ) → words_of line.now ≡ a ∷ b ∷ c ∷ [] → ⊥) (λ p. words_of line.now ≡ p.0.now ∷ p.1.now ∷ p.2.now ∷ []) }
{
    let Some((a, rest)) = first_word(line) else {
        return None;
    };
    let Some((b, c)) = two_words(rest) else {
        return None;
    };
    Some((a, b, c))
}
