ghost use Rattle.std.specs.Prelude.{◌≡◌, ◌<◌, ◌≤◌, ◌+◌, ◌^◌, ◌++◌, [], ◌∷◌, List, ℕ, length, OnOk, OnErr};
ghost use Rattle.topo_io.specs.Causes.{HasCause};
ghost use Rattle.topo_disk.specs.Disk.{LeavesOnly};
ghost use Rattle.topo_journal.specs.Bytes.{frame};
ghost use Rattle.topo_journal.specs.Kept.{IsClosedAfter, IsFramedAfter, Each};

use topo_disk::{Disk, Failed};

// Writes a frame behind the closed gate, and sees that it is on the disk.
pub(crate) fn write_frame<D: Disk>(disk: &mut D, gate: u64, framed: &[u8]) -> Result<(), Failed>
    requires within { D.tells → gate < length (D.seen disk.old) }
    requires end { gate + 1 + length framed.now < 2 ^ 64 }

    ensures ok { D.tells → (front body : List ℕ) → gate ≡ length front → framed.now ≡ frame body ++ 0 ∷ []
        → Each (IsClosedAfter front) (D.seen disk.old) (D.may_leave disk.old)
        → OnOk result (Each (IsFramedAfter front body) (D.seen disk.new) (D.may_leave disk.new)) }
    ensures err { D.tells → (front : List ℕ) → gate ≡ length front → Each (IsClosedAfter front) (D.seen disk.old) (D.may_leave disk.old)
        → OnErr result (Each (IsClosedAfter front) (D.seen disk.new) (D.may_leave disk.new)) }
    ensures any_moment { D.tells → (front : List ℕ) → gate ≡ length front → Each (IsClosedAfter front) (D.seen disk.old) (D.may_leave disk.old)
        → LeavesOnly D.moment D.left_since disk.old disk.new (IsClosedAfter front) }
    ensures cause { HasCause (D.faults disk.old) (D.faults disk.new) result }
{
    disk.write_at(gate + 1, framed)?;
    disk.sync()
}

// Writes the gate before a whole frame, and sees that it is on the disk.
pub(crate) fn write_gate<D: Disk>(disk: &mut D, gate: u64, byte: u8) -> Result<(), Failed>
    requires within { D.tells → gate < length (D.seen disk.old) }
    requires end { gate + 1 < 2 ^ 64 }

    ensures closed { byte ≡ 0 → D.tells → (front body : List ℕ) → gate ≡ length front → Each (IsFramedAfter front body) (D.seen disk.old) (D.may_leave disk.old)
        → OnOk result (Each (IsClosedAfter front) (D.seen disk.new) (D.may_leave disk.new)) }
    ensures opened { byte ≡ 1 → D.tells → (front body : List ℕ) → gate ≡ length front → Each (IsFramedAfter front body) (D.seen disk.old) (D.may_leave disk.old)
        → OnOk result (Each (IsClosedAfter (front ++ 1 ∷ frame body)) (D.seen disk.new) (D.may_leave disk.new)) }
    ensures err { D.tells → (front body : List ℕ) → gate ≡ length front → Each (IsFramedAfter front body) (D.seen disk.old) (D.may_leave disk.old)
        → OnErr result (Each (IsFramedAfter front body) (D.seen disk.new) (D.may_leave disk.new)) }
    ensures any_moment { D.tells → (front body : List ℕ) → gate ≡ length front → Each (IsFramedAfter front body) (D.seen disk.old) (D.may_leave disk.old)
        → LeavesOnly D.moment D.left_since disk.old disk.new (IsFramedAfter front body) }
    ensures cause { HasCause (D.faults disk.old) (D.faults disk.new) result }
{
    disk.write_at(gate, &[byte])?;
    disk.sync()
}
