use std::alloc::AllocError;
use thiserror::Error;
use topo_base::{Memory, Rule};

/// Why an edit has no row writes.
#[derive(Clone, Copy, Debug, PartialEq, Eq, Error)]
pub enum EditEnd {
    /// A rule refuses the edit.
    #[error("refused by a rule")]
    Refused(Rule),
    /// Memory ran out.
    #[error("out of memory")]
    Memory,
}

impl From<Memory> for EditEnd {
    ghost use Rattle.std.specs.Prelude.{◌≡◌};
    ghost use Rattle.read_set.specs.declared.end.EditEnd.TheVariants.{Memory};

    ghost from_gives = { λ _ e. e ≡ Memory };

    fn from(_: Memory) -> Self {
        EditEnd::Memory
    }
}

/// Why an edit has no plan.
#[derive(Clone, Copy, Debug, PartialEq, Eq, Error)]
pub enum PlanEnd {
    /// A rule refuses the edit on the excerpt that was taken at this front.
    #[error("refused by a rule")]
    Refused { rule: Rule, front: u64 },
    /// Memory ran out.
    #[error("out of memory")]
    Memory,
}

impl From<Memory> for PlanEnd {
    ghost use Rattle.std.specs.Prelude.{◌≡◌};
    ghost use Rattle.read_set.specs.declared.end.PlanEnd.TheVariants.{Memory};

    ghost from_gives = { λ _ e. e ≡ Memory };

    fn from(_: Memory) -> Self {
        PlanEnd::Memory
    }
}
