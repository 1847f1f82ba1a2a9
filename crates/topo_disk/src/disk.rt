ghost use Rattle.std.specs.Prelude.{◌≡◌, ◌<◌, ◌≤◌, ◌+◌, ◌^◌, List, ℕ, Bool, false, length, take, drop, IfOk, OnOk, OnErr};
ghost use Rattle.topo_io.specs.Causes.{HasCause};
ghost use Rattle.topo_disk.specs.Disk.{Only, Within, Follows, Torn, Holds, Elapses};

use topo_io::Failed;

/// Bytes that outlast a crash from one sync that succeeds to the next, and that nobody else writes. Between two such
/// syncs each written range, and all that is past the old end, may hold any bytes after a crash, and the size may be any
/// from the old to the new one; all other bytes stay. Each call answers `Failed` only where the count of faults rose
/// in it, and `Ok` leaves the count as it was. Offsets and sizes are in bytes.
pub trait Disk {
    /// The premise of each clause on content: met where the disk tells what it holds. A disk in memory does, a file
    /// doesn't.
    ghost tells: { Type 0 };

    /// The bytes that a read gives.
    ghost seen: { Self → List ℕ };

    /// What a crash at this moment may leave.
    ghost may_leave: { Self → List ℕ → Type 0 };

    /// Whether something written may not be on the disk yet.
    ghost pending: { Self → Bool };

    /// This moment, as a number that never falls.
    ghost moment: { Self → ℕ };

    /// What a crash at some moment from that one on might have left, during a call or between two.
    ghost left_since: { Self → ℕ → List ℕ → Type 0 };

    /// How often the disk has failed.
    ghost faults: { Self → ℕ };

    /// How many bytes there are. It changes nothing.
    fn size(&mut self) -> Result<u64, Failed>
        ensures size { tells → IfOk result (λ n. n ≡ length (seen self.old)) }
        ensures seen { tells → seen self.new ≡ seen self.old }
        ensures pending { tells → (pending self.new ≡ pending self.old) × Within (may_leave self.new) (may_leave self.old) × Within (may_leave self.old) (may_leave self.new) }
        ensures time { tells → Elapses (moment self.old) (moment self.new) (left_since self.old) (left_since self.new) (may_leave self.new) }
        ensures cause { HasCause (faults self.old) (faults self.new) result };

    /// Copies the bytes from an offset on, as many as the slice is long, which must be there. It changes nothing. After
    /// `Failed` the slice holds anything.
    fn read_at(&mut self, at: u64, into: &mut [u8]) -> Result<(), Failed>
        requires { tells → at + length into.old ≤ length (seen self.old) }
        ensures bytes { tells → OnOk result (into.new ≡ take (length into.old) (drop at (seen self.old))) }
        ensures seen { tells → seen self.new ≡ seen self.old }
        ensures pending { tells → (pending self.new ≡ pending self.old) × Within (may_leave self.new) (may_leave self.old) × Within (may_leave self.old) (may_leave self.new) }
        ensures time { tells → Elapses (moment self.old) (moment self.new) (left_since self.old) (left_since self.new) (may_leave self.new) }
        ensures cause { HasCause (faults self.old) (faults self.new) result };

    /// Writes over what is there and past the end, from an offset that is no greater than the size. Until a sync
    /// succeeds, a crash may leave any bytes in the range. A failed write may have changed its range, and nothing else.
    fn write_at(&mut self, at: u64, bytes: &[u8]) -> Result<(), Failed>
        requires within { tells → at ≤ length (seen self.old) }
        requires end { at + length bytes.now < 2 ^ 64 }
        ensures written { tells → OnOk result (Holds (seen self.old) at bytes.now (seen self.new)) }
        ensures range { tells → Torn at (length bytes.now) (seen self.old) (seen self.new) }
        ensures crash { tells → Follows (Torn at (length bytes.now)) (may_leave self.old) (may_leave self.new) }
        ensures time { tells → Elapses (moment self.old) (moment self.new) (left_since self.old) (left_since self.new) (may_leave self.new) }
        ensures cause { HasCause (faults self.old) (faults self.new) result };

    /// Sees that all that was written is on the disk: after it a crash leaves what a read gives. A failed sync leaves
    /// everything pending.
    fn sync(&mut self) -> Result<(), Failed>
        ensures durable { tells → OnOk result ((pending self.new ≡ false) × Only (seen self.old) (may_leave self.new)) }
        ensures failed { tells → OnErr result ((pending self.new ≡ pending self.old) × Within (may_leave self.old) (may_leave self.new)) }
        ensures seen { tells → seen self.new ≡ seen self.old }
        ensures crash { tells → Within (may_leave self.new) (may_leave self.old) }
        ensures time { tells → Elapses (moment self.old) (moment self.new) (left_since self.old) (left_since self.new) (may_leave self.new) }
        ensures cause { HasCause (faults self.old) (faults self.new) result };

    /// What a read gives is one of the things that a crash may leave.
    ghost leaves_seen: { (disk : Self) → tells → may_leave disk (seen disk) };

    /// Where nothing is pending, it is the only one.
    ghost all_kept: { (disk : Self) → tells → pending disk ≡ false → Only (seen disk) (may_leave disk) };

    /// This moment is one of those since an earlier one.
    ghost counts_now: { (disk : Self) (t : ℕ) (c : List ℕ) → tells → t ≤ moment disk → may_leave disk c → left_since disk t c };

    /// Since this moment there is no other.
    ghost only_now: { (disk : Self) (c : List ℕ) → tells → left_since disk (moment disk) c → may_leave disk c };
}
