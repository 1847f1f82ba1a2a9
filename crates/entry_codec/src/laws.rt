ghost use Rattle.entry_codec.specs.Laws.{EntriesAreRead, FrontsAreRead};

/// The grammar of entries reads an entry from bytes exactly where it can be spelled and they are its
/// spelling, and from the front of bytes exactly where they begin with it.
pub fn reading_law()
    ensures entries { EntriesAreRead }
    ensures fronts { FrontsAreRead }
{}
