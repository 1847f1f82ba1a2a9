use std::alloc::{AllocError, AllocFailed};

/// Why a line isn't read.
#[derive(Clone, Copy, Debug, PartialEq, Eq)]
pub enum LineEnd {
    /// It doesn't spell a row that may stand there.
    Bad,
    /// Memory ran out.
    Memory,
}

impl From<topo_base::Memory> for LineEnd {
    ghost use Rattle.std.specs.Prelude.{◌≡◌};
    ghost use Rattle.table_dump.specs.declared.ends.LineEnd.TheVariants.{Memory};

    ghost from_gives = { λ _ e. e ≡ Memory };

    fn from(_: topo_base::Memory) -> Self {
        LineEnd::Memory
    }
}

impl From<AllocError> for LineEnd {
    ghost use Rattle.std.specs.Prelude.{◌≡◌};
    ghost use Rattle.table_dump.specs.declared.ends.LineEnd.TheVariants.{Memory};

    ghost from_gives = { λ _ e. e ≡ Memory };

    fn from(_: AllocError) -> Self {
        LineEnd::Memory
    }
}

impl<T: Drop> From<AllocFailed<T>> for LineEnd {
    ghost use Rattle.std.specs.Prelude.{◌≡◌};
    ghost use Rattle.table_dump.specs.declared.ends.LineEnd.TheVariants.{Memory};

    ghost from_gives = { λ _ e. e ≡ Memory };

    fn from(_: AllocFailed<T>) -> Self {
        LineEnd::Memory
    }
}
