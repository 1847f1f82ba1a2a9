use crate::Setting;
use topo_base::Entry;

/// A value that keeps a history of entries. The lock is told three things of it, and contracts alone see them.
pub trait Chronicle {
    ghost use Rattle.std.specs.Prelude.{ℕ, List};
    ghost use Rattle.topo_base.specs.declared.edit.Entry.{Entry};
    ghost use Rattle.commit_lock.specs.declared.setting.Setting.{Setting};

    /// The history that the value stands for, oldest first.
    ghost entries: { Self → List Entry };

    /// How many faults it has met since it was made.
    ghost faults: { Self → ℕ };

    /// What never changes of it.
    ghost setting: { Self → Setting };
}
