ghost use Rattle.std.specs.Prelude.{◌≡◌, ◌⊎◌, ◌<◌, ◌≤◌, ◌+◌, ◌^◌, ◌++◌, [], ◌∷◌, List, ℕ, true, false, length, take, drop, OnOk, OnErr};
ghost use Rattle.std.proofs.Props.{props};
ghost use Rattle.topo_io.specs.Causes.{HasCause, Rose};
ghost use Rattle.topo_disk.specs.Disk.{LeavesOnly};
ghost use Rattle.topo_journal.specs.Bytes.{frame, Legal, AreLegal, Stands};
ghost use Rattle.topo_journal.specs.Kept.{IsSound, IsFrame, IsClosedAfter, IsFramedAfter, IsFront, Each, body_in, history, doubted, StandsDoubting, start_of};

use crate::gates::{write_frame, write_gate};
use topo_disk::{Disk, Failed, Witness};

/// A journal: whole entries, each behind an open gate, up to the closed gate that the next one will open. It is in
/// doubt of an entry where the last write of that gate may have come to the disk or not, which is so only where the
/// disk has failed since `begin`. It keeps the start and the count of `Begun`.
#[derive(Drop)]
pub struct Journal<D: Disk> {
    disk: D,
    gate: u64,
    doubt: bool,
    called: Witness<D>,
    synced: Witness<D>,
    pub ghost sound: { D.tells → IsSound (D.seen disk) (D.may_leave disk) gate doubt } by { Prim.hlevel props },
    pub ghost started: { D.tells → start_of D.pending D.moment called.was synced.was ≤ D.moment disk } by { Prim.hlevel props },
    pub ghost counted: { D.faults synced.was ≤ D.faults disk } by { Prim.hlevel props },
    pub ghost caused: { doubt ≡ true → Rose (D.faults synced.was) (D.faults disk) } by { Prim.hlevel props },
}

impl<D: Disk> Journal<D> {
    pub(crate) fn made(disk: D, called: Witness<D>, synced: Witness<D>, gate: u64) -> Self
        requires started { D.tells → start_of D.pending D.moment called.was synced.was ≤ D.moment disk }
        requires counted { D.faults synced.was ≤ D.faults disk }
        requires front { D.tells → IsFront (take gate (D.seen disk)) }
        requires closed { D.tells → Each (IsClosedAfter (take gate (D.seen disk))) (D.seen disk) (D.may_leave disk) }
        ensures disk { result.disk ≡ disk }
        ensures gate { (result.gate ≡ gate) × (result.doubt ≡ false) }
        ensures start { (result.called.was ≡ called.was) × (result.synced.was ≡ synced.was) }
    {
        Journal {
            disk,
            gate,
            doubt: false,
            called,
            synced,
        }
    }

    // Closes the gate, where it may be open.
    fn mend(&mut self) -> Result<(), Failed>
        requires { self.old.gate + 1 < 2 ^ 64 }
        ensures gate { self.new.gate ≡ self.old.gate }
        ensures sure { OnOk result (self.new.doubt ≡ false) }
        ensures still { OnErr result ((self.old.doubt ≡ true) × (self.new.doubt ≡ true)) }
        ensures front { D.tells → take self.new.gate (D.seen self.new.disk) ≡ take self.old.gate (D.seen self.old.disk) }
        ensures body { D.tells → OnErr result (doubted self.new.gate (D.seen self.new.disk) ≡ doubted self.old.gate (D.seen self.old.disk)) }
        ensures any_moment { D.tells → let front = take self.old.gate (D.seen self.old.disk) in LeavesOnly D.moment D.left_since self.old.disk self.new.disk
            (λ c. IsClosedAfter front c ⊎ ((self.old.doubt ≡ true) × IsFramedAfter front (doubted self.old.gate (D.seen self.old.disk)) c)) }
        ensures start { (self.new.called.was ≡ self.old.called.was) × (self.new.synced.was ≡ self.old.synced.was) }
        ensures cause { HasCause (D.faults self.old.disk) (D.faults self.new.disk) result }
    {
        if self.doubt {
            write_gate(&mut self.disk, self.gate, 0)?;
            self.doubt = false;
        }
        Ok(())
    }

    // Adds an entry to a journal that isn't in doubt.
    fn add(&mut self, framed: &[u8]) -> Result<(), Failed>
        requires sure { self.old.doubt ≡ false }
        requires frame { IsFrame framed.now }
        requires room { self.old.gate + length framed.now + 1 < 2 ^ 64 }
        ensures gate { OnOk result (self.new.gate ≡ self.old.gate + length framed.now) }
        ensures gate_err { OnErr result (self.new.gate ≡ self.old.gate) }
        ensures sure { OnOk result (self.new.doubt ≡ false) }
        ensures front { D.tells → OnOk result (take self.new.gate (D.seen self.new.disk) ≡ take self.old.gate (D.seen self.old.disk) ++ 1 ∷ frame (body_in framed.now)) }
        ensures front_err { D.tells → OnErr result (take self.new.gate (D.seen self.new.disk) ≡ take self.old.gate (D.seen self.old.disk)) }
        ensures body { D.tells → OnErr result (self.new.doubt ≡ true → doubted self.new.gate (D.seen self.new.disk) ≡ body_in framed.now) }
        ensures any_moment { D.tells → let front = take self.old.gate (D.seen self.old.disk) in LeavesOnly D.moment D.left_since self.old.disk self.new.disk
            (λ c. IsClosedAfter front c ⊎ IsFramedAfter front (body_in framed.now) c) }
        ensures start { (self.new.called.was ≡ self.old.called.was) × (self.new.synced.was ≡ self.old.synced.was) }
        ensures cause { HasCause (D.faults self.old.disk) (D.faults self.new.disk) result }
    {
        write_frame(&mut self.disk, self.gate, framed)?;
        self.doubt = true;
        write_gate(&mut self.disk, self.gate, 1)?;
        self.doubt = false;
        self.gate += framed.len() as u64;
        Ok(())
    }

    /// Adds an entry, whose body is given behind its length and before a closed gate. At `Ok` it is acknowledged:
    /// from then on each crash leaves a disk that has it. At `Failed` the journal's history is as it was, and this
    /// entry, or the one that was in doubt before, may be in doubt: a crash may leave it or not, until the next
    /// append has closed its gate. The frame is written behind the closed gate and seen to be on the disk before the
    /// gate is opened. It takes no memory.
    pub fn append(&mut self, framed: &[u8]) -> Result<(), Failed>
        requires frame { IsFrame framed.now }
        requires room { self.old.gate + length framed.now + 1 < 2 ^ 64 }

        ensures gate { OnOk result (self.new.gate ≡ self.old.gate + length framed.now) }
        ensures gate_err { OnErr result (self.new.gate ≡ self.old.gate) }
        ensures sure { OnOk result (self.new.doubt ≡ false) }

        // The history has this entry, or is as before.
        ensures entered { D.tells → OnOk result (history self.new.gate (D.seen self.new.disk)
            ≡ history self.old.gate (D.seen self.old.disk) ++ body_in framed.now ∷ []) }
        ensures as_before { D.tells → OnErr result (history self.new.gate (D.seen self.new.disk) ≡ history self.old.gate (D.seen self.old.disk)) }

        // What is in doubt after a failure is this entry, or the one that was in doubt.
        ensures doubt { D.tells → OnErr result (self.new.doubt ≡ true
            → (doubted self.new.gate (D.seen self.new.disk) ≡ body_in framed.now)
            ⊎ ((self.old.doubt ≡ true) × (doubted self.new.gate (D.seen self.new.disk) ≡ doubted self.old.gate (D.seen self.old.disk)))) }

        // A crash at any moment of the call leaves the history, or the history and one entry.
        ensures any_moment { D.tells → (legal : Legal)
            → let before = history self.old.gate (D.seen self.old.disk) in let other = doubted self.old.gate (D.seen self.old.disk) in let body = body_in framed.now in
            AreLegal legal (before ++ body ∷ []) → (self.old.doubt ≡ true → AreLegal legal (before ++ other ∷ []))
            → LeavesOnly D.moment D.left_since self.old.disk self.new.disk
            (λ c. StandsDoubting legal before self.old.doubt other c ⊎ Stands legal c (before ++ body ∷ [])) }

        // After Ok it leaves the history with this entry, and nothing else.
        ensures acknowledged { D.tells → OnOk result ((legal : Legal)
            → let after = history self.old.gate (D.seen self.old.disk) ++ body_in framed.now ∷ [] in
            AreLegal legal after → (c : List ℕ) → D.may_leave self.new.disk c → Stands legal c after) }

        // After a failure it leaves the history, or the history and the one in doubt.
        ensures unsure { D.tells → OnErr result ((legal : Legal)
            → let before = history self.old.gate (D.seen self.old.disk) in let other = doubted self.new.gate (D.seen self.new.disk) in
            AreLegal legal before → (self.new.doubt ≡ true → AreLegal legal (before ++ other ∷ []))
            → (c : List ℕ) → D.may_leave self.new.disk c → StandsDoubting legal before self.new.doubt other c) }

        ensures start { (self.new.called.was ≡ self.old.called.was) × (self.new.synced.was ≡ self.old.synced.was) }

        // It doesn't fail by itself.
        ensures cause { HasCause (D.faults self.old.disk) (D.faults self.new.disk) result }
    {
        self.mend()?;
        self.add(framed)
    }

    /// The offset of the gate that the next entry will open.
    pub fn gate(&self) -> u64
        ensures { result ≡ self.now.gate }
    {
        self.gate
    }

    /// The disk, as it is.
    pub fn into_disk(self) -> D
        ensures { result ≡ self.disk }
    {
        let Journal {
            disk,
            gate: _,
            doubt: _,
            called: _,
            synced: _,
        } = self;
        disk
    }
}
