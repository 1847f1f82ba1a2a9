use std::alloc::{AllocError, AllocFailed};
use thiserror::Error;

/// Why no entry is read.
#[derive(Clone, Copy, Debug, PartialEq, Eq, Error)]
pub enum CodecEnd {
    /// The bytes don't begin with the spelling of an entry.
    #[error("no entry")]
    NoEntry,
    #[error("out of memory")]
    Memory,
}

impl From<AllocError> for CodecEnd {
    ghost use Rattle.std.specs.Prelude.{◌≡◌};
    ghost use Rattle.entry_codec.specs.declared.ends.CodecEnd.TheVariants.{Memory};

    ghost from_gives = { λ _ e. e ≡ Memory };

    fn from(_: AllocError) -> Self {
        CodecEnd::Memory
    }
}

impl<T: Drop> From<AllocFailed<T>> for CodecEnd {
    ghost use Rattle.std.specs.Prelude.{◌≡◌};
    ghost use Rattle.entry_codec.specs.declared.ends.CodecEnd.TheVariants.{Memory};

    ghost from_gives = { λ _ e. e ≡ Memory };

    fn from(_: AllocFailed<T>) -> Self {
        CodecEnd::Memory
    }
}
