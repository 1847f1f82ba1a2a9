ghost use Rattle.std.specs.Prelude.{◌≡◌};
ghost use Rattle.script_model.specs.Words.{kind_word};
ghost use Rattle.script_reader.specs.Reading.{Finds};

use topo_base::Kind;

/// The type of features that a word names. Takes no memory.
pub fn kind_of(word: &[u8]) -> Option<Kind>
    ensures { Finds (λ k. word.now ≡ kind_word k) result }
{
    if word == b"puntal".as_slice() {
        Some(Kind::Puntal)
    } else if word == b"lineal".as_slice() {
        Some(Kind::Lineal)
    } else if word == b"areal".as_slice() {
        Some(Kind::Areal)
    } else {
        None
    }
}
