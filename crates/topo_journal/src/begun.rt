ghost use Rattle.std.specs.Prelude.{◌≡◌, ◌<◌, ◌≤◌, ◌+◌, ◌^◌, [], ◌∷◌, List, ℕ, true, false, length, take, drop, OnOk, IfOk, IfErr};
ghost use Rattle.std.proofs.Props.{props};
ghost use Rattle.topo_io.specs.Causes.{HasCause, Rose};
ghost use Rattle.topo_disk.specs.Disk.{Only, LeavesOnly};
ghost use Rattle.topo_journal.specs.Bytes.{Legal, AreLegal, Stands, is_not_yet};
ghost use Rattle.topo_journal.specs.Kept.{IsFront, IsClosedAfter, history, start_of};

use crate::header::write_header;
use crate::journal::Journal;
use topo_disk::{Disk, Failed, Witness};

/// A disk with nothing pending, with a start and a count that contracts alone see. They are kept as two states of the
/// disk: at the call of `begin`, and after its sync. The start is the moment of the first where nothing was pending
/// then, else that of the second; the count is the faults of the second. A crash at any moment since the start leaves
/// the bytes that a read gives, so it stands for what they stand for.
#[derive(Drop)]
pub struct Begun<D: Disk> {
    disk: D,
    called: Witness<D>,
    synced: Witness<D>,
    pub ghost kept: { D.tells → Only (D.seen disk) (D.may_leave disk) } by { Prim.hlevel props },
    pub ghost started: { D.tells → start_of D.pending D.moment called.was synced.was ≤ D.moment disk } by { Prim.hlevel props },
    pub ghost since: { D.tells → Only (D.seen disk) (D.left_since disk (start_of D.pending D.moment called.was synced.was)) } by { Prim.hlevel props },
    pub ghost counted: { D.faults synced.was ≤ D.faults disk } by { Prim.hlevel props },
}

/// Sees that what a disk gives is on it, by one sync and no write. At `Failed` the disk is given back, and what a read
/// gives is as it was.
pub fn begin<D: Disk>(disk: D) -> Result<Begun<D>, (Failed, D)>
    ensures seen { D.tells → IfOk result (λ begun. D.seen begun.disk ≡ D.seen disk) }
    ensures seen_err { D.tells → IfErr result (λ e. D.seen e.1 ≡ D.seen disk) }

    // A crash during the call leaves what it might have left before.
    ensures any_moment { D.tells → IfOk result (λ begun. LeavesOnly D.moment D.left_since disk begun.disk (D.may_leave disk)) }
    ensures any_moment_err { D.tells → IfErr result (λ e. LeavesOnly D.moment D.left_since disk e.1 (D.may_leave disk)) }

    ensures sure { IfOk result (λ begun. D.faults begun.disk ≡ D.faults disk) }
    ensures cause { IfErr result (λ e. Rose (D.faults disk) (D.faults e.1)) }

    // The start and the count.
    ensures start { IfOk result (λ begun. (begun.called.was ≡ disk) × (begun.synced.was ≡ begun.disk)) }
{
    let called = Witness::of(&disk);
    let mut disk = disk;
    match disk.sync() {
        Ok(()) => {
            let synced = Witness::of(&disk);
            Ok(Begun {
                disk,
                called,
                synced,
            })
        }
        Err(failed) => Err((failed, disk)),
    }
}

impl<D: Disk> Begun<D> {
    /// How many bytes there are, as the disk's own `size`.
    pub fn size(&mut self) -> Result<u64, Failed>
        ensures size { D.tells → IfOk result (λ n. n ≡ length (D.seen self.old.disk)) }
        ensures seen { D.tells → D.seen self.new.disk ≡ D.seen self.old.disk }
        ensures any_moment { D.tells → LeavesOnly D.moment D.left_since self.old.disk self.new.disk (λ c. c ≡ D.seen self.old.disk) }
        ensures start { (self.new.called.was ≡ self.old.called.was) × (self.new.synced.was ≡ self.old.synced.was) }
        ensures cause { HasCause (D.faults self.old.disk) (D.faults self.new.disk) result }
    {
        self.disk.size()
    }

    /// Copies the bytes from an offset on, as the disk's own `read_at`.
    pub fn read_at(&mut self, at: u64, into: &mut [u8]) -> Result<(), Failed>
        requires { D.tells → at + length into.old ≤ length (D.seen self.old.disk) }
        ensures bytes { D.tells → OnOk result (into.new ≡ take (length into.old) (drop at (D.seen self.old.disk))) }
        ensures seen { D.tells → D.seen self.new.disk ≡ D.seen self.old.disk }
        ensures any_moment { D.tells → LeavesOnly D.moment D.left_since self.old.disk self.new.disk (λ c. c ≡ D.seen self.old.disk) }
        ensures start { (self.new.called.was ≡ self.old.called.was) × (self.new.synced.was ≡ self.old.synced.was) }
        ensures cause { HasCause (D.faults self.old.disk) (D.faults self.new.disk) result }
    {
        self.disk.read_at(at, into)
    }

    /// The disk.
    pub fn into_disk(self) -> D
        ensures { result ≡ self.disk }
    {
        let Begun {
            disk,
            called: _,
            synced: _,
        } = self;
        disk
    }
}

/// Makes a journal with no entry of a disk that is not yet one: a closed header gate where there is none, the name
/// behind it, and then the open header gate, each seen to be on the disk before the next is written. At `Failed` the
/// disk is given back. It takes no memory.
pub fn create<D: Disk>(begun: Begun<D>) -> Result<Journal<D>, (Failed, D)>
    requires { D.tells → is_not_yet (D.seen begun.disk) ≡ true }

    ensures empty { D.tells → IfOk result (λ journal. history journal.gate (D.seen journal.disk) ≡ []) }
    ensures gate { IfOk result (λ journal. (journal.gate ≡ 7) × (journal.doubt ≡ false)) }

    // A crash at any moment leaves a disk that stands for no entry.
    ensures any_moment { D.tells → (legal : Legal) → IfOk result (λ journal. LeavesOnly D.moment D.left_since begun.disk journal.disk (λ c. Stands legal c [])) }
    ensures any_moment_err { D.tells → (legal : Legal) → IfErr result (λ e. LeavesOnly D.moment D.left_since begun.disk e.1 (λ c. Stands legal c [])) }

    ensures since_start { D.tells → (legal : Legal) → IfOk result (λ journal. (c : List ℕ)
        → D.left_since journal.disk (start_of D.pending D.moment journal.called.was journal.synced.was) c → Stands legal c []) }
    ensures start { IfOk result (λ journal. (journal.called.was ≡ begun.called.was) × (journal.synced.was ≡ begun.synced.was)) }

    ensures sure { IfOk result (λ journal. D.faults journal.disk ≡ D.faults begun.disk) }
    ensures cause { IfErr result (λ e. Rose (D.faults begun.disk) (D.faults e.1)) }
{
    let Begun {
        disk,
        called,
        synced,
    } = begun;
    let mut disk = disk;
    match write_header(&mut disk) {
        Ok(()) => Ok(Journal::made(disk, called, synced, 7)),
        Err(failed) => Err((failed, disk)),
    }
}

/// The journal of a disk that stands for a history whose closed gate is at this offset, in bytes. It makes no call of
/// the disk.
pub fn adopt<D: Disk>(begun: Begun<D>, gate: u64) -> Journal<D>
    requires { D.tells → IsFront (take gate (D.seen begun.disk)) × IsClosedAfter (take gate (D.seen begun.disk)) (D.seen begun.disk) }
    ensures disk { result.disk ≡ begun.disk }
    ensures gate { (result.gate ≡ gate) × (result.doubt ≡ false) }
    ensures start { (result.called.was ≡ begun.called.was) × (result.synced.was ≡ begun.synced.was) }

    // A crash at any moment since the start leaves what stands for the history.
    ensures since_start { D.tells → (legal : Legal) → AreLegal legal (history result.gate (D.seen result.disk)) → (c : List ℕ)
        → D.left_since result.disk (start_of D.pending D.moment result.called.was result.synced.was) c → Stands legal c (history result.gate (D.seen result.disk)) }
{
    let Begun {
        disk,
        called,
        synced,
    } = begun;
    Journal::made(disk, called, synced, gate)
}
