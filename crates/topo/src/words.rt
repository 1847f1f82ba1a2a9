ghost use Rattle.std.specs.Prelude.{◌≡◌, ◌↔◌, ◌∷◌, [], codes, map, string_bytes, IfSome, IfNone, IsTrue};
ghost use Rattle.topo.specs.Words.{IsCheck, IsForm, AreForm, names_journal, verb_of};

/// What a form shows of a journal.
#[derive(Clone, Copy, Debug, PartialEq, Eq)]
pub enum Shown {
    /// The tables of the history's drawing.
    Tables,
    /// The features, each with the elements to which it descends.
    Features,
    /// The history.
    History,
}

/// The forms of the program, each with the name of a journal behind its word.
#[derive(Clone, Copy, Debug, PartialEq, Eq)]
pub enum Form {
    /// Runs a script.
    Apply,
    /// Shows something, and changes nothing.
    Show(Shown),
}

/// Whether the word names a journal: it isn't empty and doesn't begin with a minus.
fn names_journal(word: &String) -> bool
    ensures { result ≡ names_journal (string_bytes word.now) }
{
    match word.as_bytes().first() {
        Some(first) => *first != b'-',
        None => false,
    }
}

/// The form of that first word.
fn form_named(verb: &str) -> Option<Form>
    ensures form { IfSome result (λ form. verb_of form ≡ verb.now) }
    ensures none { IfNone result ((form : Form) → verb_of form ≡ verb.now → ⊥) }
{
    match verb {
        "apply" => Some(Form::Apply),
        "tables" => Some(Form::Show(Shown::Tables)),
        "features" => Some(Form::Show(Shown::Features)),
        "history" => Some(Form::Show(Shown::History)),
        _ => None,
    }
}

/// The form that the words are, or None where they are none.
pub fn form_of(words: &[String]) -> Option<Form>
    ensures form { IfSome result (λ form. IsForm (map string_bytes words.now) form) }
    ensures none { IfNone result (AreForm (map string_bytes words.now) → ⊥) }
{
    match words {
        [verb, journal] => {
            if names_journal(journal) {
                form_named(verb.as_str())
            } else {
                None
            }
        }
        _ => None,
    }
}

/// The name of the journal, where the words are a form of the program.
pub fn journal_word(words: &[String]) -> Option<&String>
    ensures some { IfSome result (λ word. (form : Form) × (map string_bytes words.now ≡ verb_of form ∷ string_bytes word.now ∷ [])) }
    ensures none { IfNone result (AreForm (map string_bytes words.now) → ⊥) }
{
    match form_of(words) {
        Some(_) => words.get(1),
        None => None,
    }
}

/// Whether this is the word that asks for a report on a dump.
fn is_check_word(verb: &str) -> bool
    ensures { IsTrue result ↔ verb.now ≡ codes "check" }
{
    match verb {
        "check" => true,
        _ => false,
    }
}

/// Whether the words are the one that asks for a report on a dump.
pub fn is_check(words: &[String]) -> bool
    ensures { IsTrue result ↔ IsCheck (map string_bytes words.now) }
{
    match words {
        [verb] => is_check_word(verb.as_str()),
        _ => false,
    }
}
