use std::alloc::{AllocError, AllocFailed};
use thiserror::Error;

/// Why an edit with names isn't resolved.
#[derive(Clone, Copy, Debug, PartialEq, Eq, Error)]
pub enum ResolveEnd {
    /// A name that the edit uses isn't bound.
    #[error("a name is not bound")]
    Unbound,
    #[error("out of memory")]
    Memory,
}

impl From<topo_base::Memory> for ResolveEnd {
    ghost use Rattle.std.specs.Prelude.{◌≡◌};
    ghost use Rattle.script_reader.specs.declared.end.ResolveEnd.TheVariants.{Memory};

    ghost from_gives = { λ _ e. e ≡ Memory };

    fn from(_: topo_base::Memory) -> Self {
        ResolveEnd::Memory
    }
}

impl From<AllocError> for ResolveEnd {
    ghost use Rattle.std.specs.Prelude.{◌≡◌};
    ghost use Rattle.script_reader.specs.declared.end.ResolveEnd.TheVariants.{Memory};

    ghost from_gives = { λ _ e. e ≡ Memory };

    fn from(_: AllocError) -> Self {
        ResolveEnd::Memory
    }
}

impl<T: Drop> From<AllocFailed<T>> for ResolveEnd {
    ghost use Rattle.std.specs.Prelude.{◌≡◌};
    ghost use Rattle.script_reader.specs.declared.end.ResolveEnd.TheVariants.{Memory};

    ghost from_gives = { λ _ e. e ≡ Memory };

    fn from(_: AllocFailed<T>) -> Self {
        ResolveEnd::Memory
    }
}
