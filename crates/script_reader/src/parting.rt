ghost use Rattle.std.specs.Prelude.{◌≡◌, IsTrue, IfSome, IfNone};
ghost use Rattle.script_reader.specs.Parting.{parts, IsPart, IsWhole};

/// What parts a text: line feeds its lines, blanks the words of a line, commas the names of a word.
#[derive(Clone, Copy)]
pub enum Separator {
    LineFeed,
    Blank,
    Comma,
}

/// Whether the byte is such a separator.
pub fn is_separator(separator: Separator, byte: u8) -> bool
    ensures { result ≡ parts separator byte }
{
    match separator {
        Separator::LineFeed => byte == b'\n',
        Separator::Blank => byte == b' ' || byte == b'\t',
        Separator::Comma => byte == b',',
    }
}

/// What stands before the first such separator, and behind it. Takes no memory.
pub fn split(text: &[u8], separator: Separator) -> Option<(&[u8], &[u8])>
    ensures some { IfSome result (λ p. IsPart (parts separator) text.now p.0.now p.1.now) }
    ensures none { IfNone result (IsWhole (parts separator) text.now) }
{
    for (at, byte) in text.iter().enumerate() {
        if is_separator(separator, *byte) {
            let (front, rest) = text.split_at(at);
            let (_, after) = rest.split_at(1);
            return Some((front, after));
        }
    }
    None
}
