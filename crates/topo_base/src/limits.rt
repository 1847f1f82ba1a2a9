ghost use Rattle.std.specs.Prelude.{◌≡◌, ◌+◌, ◌-◌, ◌^◌, ◌<◌, ◌≤◌};

/// How far ids, a journal and a source may grow.
#[derive(Clone, Copy, Debug, PartialEq, Eq)]
pub struct Limits {
    /// The greatest id that an edit may make. It leaves room for the ids of one edit more, so that an edit can be planned
    /// before its ids are tested.
    pub max_id: u32,
    /// The most bytes of a journal.
    pub max_journal: u64,
    /// The most bytes of a source.
    pub max_source: u64,
    ghost ids: { max_id + 3 < 2 ^ 32 },
    ghost journal: { 8 ≤ max_journal },
}

impl Limits {
    /// The limits of the program.
    pub fn standard() -> Limits
        ensures ids { result.max_id ≡ 2 ^ 24 - 1 }
        ensures journal { result.max_journal ≡ 2 ^ 28 }
        ensures source { result.max_source ≡ 2 ^ 24 }
    {
        Limits {
            max_id: (1 << 24) - 1,
            max_journal: 1 << 28,
            max_source: 1 << 24,
        }
    }
}
