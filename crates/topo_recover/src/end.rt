use std::alloc::AllocError;
use thiserror::Error;
use topo_disk::Failed;

/// Why a disk gives no desk.
#[derive(Clone, Copy, Debug, PartialEq, Eq, Error)]
pub enum RecoverEnd {
    /// The bytes stand for no legal history; the gate at this offset, in bytes, is the first bad one.
    #[error("no journal: the gate at {offset} is bad")]
    NoJournal { offset: u64 },
    /// The disk failed.
    #[error("the disk failed")]
    DiskFault,
    /// Memory ran out.
    #[error("out of memory")]
    Memory,
}

impl From<Failed> for RecoverEnd {
    ghost use Rattle.std.specs.Prelude.{◌≡◌};
    ghost use Rattle.topo_recover.specs.declared.end.RecoverEnd.TheVariants.{DiskFault};

    ghost from_gives = { λ _ e. e ≡ DiskFault };

    fn from(_: Failed) -> Self {
        RecoverEnd::DiskFault
    }
}

impl From<topo_base::Memory> for RecoverEnd {
    ghost use Rattle.std.specs.Prelude.{◌≡◌};
    ghost use Rattle.topo_recover.specs.declared.end.RecoverEnd.TheVariants.{Memory};

    ghost from_gives = { λ _ e. e ≡ Memory };

    fn from(_: topo_base::Memory) -> Self {
        RecoverEnd::Memory
    }
}

impl From<AllocError> for RecoverEnd {
    ghost use Rattle.std.specs.Prelude.{◌≡◌};
    ghost use Rattle.topo_recover.specs.declared.end.RecoverEnd.TheVariants.{Memory};

    ghost from_gives = { λ _ e. e ≡ Memory };

    fn from(_: AllocError) -> Self {
        RecoverEnd::Memory
    }
}
