ghost use Rattle.std.specs.Prelude.{◌≡◌, ◌+◌, OnOk, OnErr};
ghost use Rattle.topo_io.specs.Causes.{HasCause};

use crate::{Disk, Failed};

/// A disk that passes so many calls to the one below and then fails every call, as after a stop. It tells of content
/// what the disk below tells, and its count of faults has its own failures too.
#[derive(Drop)]
pub struct Fused<D> {
    disk: D,
    left: u64,
    faults: u64,
}

impl<D> Fused<D> {
    /// Passes this many calls of the disk.
    pub fn of(disk: D, calls: u64) -> Self
        ensures disk { result.disk ≡ disk }
        ensures left { result.left ≡ calls }
        ensures faults { result.faults ≡ 0 }
    {
        Fused {
            disk,
            left: calls,
            faults: 0,
        }
    }

    /// The disk below, as the calls that were passed have left it.
    pub fn into_inner(self) -> D
        ensures { result ≡ self.disk }
    {
        let Fused {
            disk,
            left: _,
            faults: _,
        } = self;
        disk
    }

    // Takes one of the calls that are left, and fails where there is none.
    fn take_call(&mut self) -> Result<(), Failed>
        ensures disk { self.new.disk ≡ self.old.disk }
        ensures taken { OnOk result (self.old.left ≡ self.new.left + 1) }
        ensures blown { OnErr result ((self.old.left ≡ 0) × (self.new.left ≡ 0)) }
        ensures cause { HasCause self.old.faults self.new.faults result }
    {
        if self.left == 0 {
            self.faults = self.faults.saturating_add(1);
            return Err(Failed);
        }
        self.left -= 1;
        Ok(())
    }
}

impl<D: Disk> Disk for Fused<D> {
    ghost tells = { D.tells };

    ghost seen = { λ f. D.seen f.disk };

    ghost may_leave = { λ f. D.may_leave f.disk };

    ghost pending = { λ f. D.pending f.disk };

    ghost moment = { λ f. D.moment f.disk };

    ghost left_since = { λ f. D.left_since f.disk };

    ghost faults = { λ f. D.faults f.disk + f.faults };

    ghost leaves_seen = { λ f told. D.leaves_seen f.disk told };

    ghost all_kept = { λ f told. D.all_kept f.disk told };

    ghost counts_now = { λ f t c told. D.counts_now f.disk t c told };

    ghost only_now = { λ f c told. D.only_now f.disk c told };

    fn size(&mut self) -> Result<u64, Failed> {
        self.take_call()?;
        self.disk.size()
    }

    fn read_at(&mut self, at: u64, into: &mut [u8]) -> Result<(), Failed> {
        self.take_call()?;
        self.disk.read_at(at, into)
    }

    fn write_at(&mut self, at: u64, bytes: &[u8]) -> Result<(), Failed> {
        self.take_call()?;
        self.disk.write_at(at, bytes)
    }

    fn sync(&mut self) -> Result<(), Failed> {
        self.take_call()?;
        self.disk.sync()
    }
}
