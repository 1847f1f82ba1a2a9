ghost use Rattle.std.specs.Prelude.{◌≡◌, ◌⊎◌, ◌≤◌, ◌+◌, ◌++◌, [], ◌∷◌, ⊤, ◌==◌, ◌<◌, ◌^◌, ℕ, List, length, take, drop, vec_capacity, true, false, IsTrue, IsErr, OnOk, OnErr};
ghost use Rattle.std.specs.List.{list_any};
ghost use Rattle.std.proofs.Props.{props};
ghost use Rattle.topo_io.specs.Causes.{next_count, HasCause};
ghost use Rattle.topo_disk.specs.Standing.{start, fresh, after_all, is_pending, IsImage, IsReached};
ghost use Rattle.topo_disk.specs.declared.call.Call.{Call};
ghost use Rattle.topo_disk.specs.declared.call.Call.TheVariants.{Write};
ghost use Rattle.topo_disk.specs.Moments.{LeftSince};
ghost use Rattle.topo_disk.specs.Laws.{only_image, now_counts, now_only};

use crate::call::{Call, Called};
use crate::call_record::CallRecord;
use crate::{Disk, Failed};
use std::alloc::{AllocError, Global};

/// A disk in memory that keeps a record of its calls. A call fails where its number is listed, or where it finds no
/// memory; a failed call changes nothing but the record. What a crash may leave is what the record says: each range
/// written since the last sync that succeeded may hold any bytes.
#[derive(Drop)]
pub struct MemDisk {
    alloc: Global,
    // what it held at first, kept by the first write
    first: Option<Vec<u8>>,
    bytes: Vec<u8>,
    calls: CallRecord,
    ghost reached: { IsReached (after_all (fresh (start first bytes.items)) calls.calls.items) bytes.items } by { Prim.hlevel props },
}

// Keeps a copy of the bytes, where none is kept yet: what is written later changes nothing of what the disk held first.
fn keep_first(alloc: Global, first: &mut Option<Vec<u8>>, bytes: &[u8]) -> Result<(), AllocError>
    ensures kept { OnOk result ((later : List ℕ) → start first.new later ≡ start first.old bytes.now) }
    ensures same { OnErr result (first.new ≡ first.old) }
{
    if first.is_none() {
        *first = Some(bytes.to_vec(alloc)?);
    }
    Ok(())
}

// Writes over the bytes and past their end, in place. There is room.
fn overwrite(bytes: &mut Vec<u8>, at: usize, new: &[u8])
    requires within { at ≤ length bytes.old.items }
    requires room { at + length new.now ≤ vec_capacity bytes.old }
    ensures { bytes.new.items ≡ take at bytes.old.items ++ new.now ++ drop (at + length new.now) bytes.old.items }
{
    let over = new.len().min(bytes.len() - at);
    let (inside, past) = new.split_at(over);
    bytes[at..at + over].copy_from_slice(inside);
    bytes.extend_from_slice(past).unwrap();
}

// Writes over the bytes and records the call, or does neither. All memory is taken before anything is written.
fn write_over(
    alloc: Global,
    calls: &mut CallRecord,
    first: &mut Option<Vec<u8>>,
    bytes: &mut Vec<u8>,
    at: u64,
    new: &[u8],
) -> Result<(), Failed>
    requires within { at ≤ length bytes.old.items }
    requires end { at + length new.now < 2 ^ 64 }
    ensures went { OnOk result ((v : _) × (v.items ≡ new.now) × (calls.new.calls.items ≡ calls.old.calls.items ++ record { call = Write at v; failed = false } ∷ [])) }
    ensures written { OnOk result (bytes.new.items ≡ take at bytes.old.items ++ new.now ++ drop (at + length new.now) bytes.old.items) }
    ensures failed { OnErr result ((calls.new.calls.items ≡ calls.old.calls.items) ⊎ ((call : Call) × (calls.new.calls.items ≡ calls.old.calls.items ++ record { call = call; failed = true } ∷ []))) }
    ensures start { start first.new bytes.new.items ≡ start first.old bytes.old.items }
    ensures same { OnErr result (bytes.new.items ≡ bytes.old.items) }
    ensures listed { IsTrue (list_any (λ n. n == next_count (length calls.old.calls.items)) calls.old.fails.items) → IsErr result }
    ensures cause { HasCause calls.old.faults calls.new.faults result }
{
    let Ok(copy) = new.to_vec(alloc) else {
        return Err(calls.fault());
    };
    let Ok(()) = keep_first(alloc, first, bytes) else {
        return Err(calls.fault());
    };
    let more = (at as usize + new.len()).saturating_sub(bytes.len());
    let Ok(()) = bytes.reserve(more) else {
        return Err(calls.fault());
    };
    calls.add(Call::Write { at, bytes: copy })?;
    overwrite(bytes, at as usize, new);
    Ok(())
}

impl MemDisk {
    ghost use Rattle.topo_disk.specs.Recorded.{calls_of};

    /// A disk with these bytes on it and nothing pending. The calls with these numbers, counted from 1, are to fail.
    pub fn of(alloc: Global, bytes: Vec<u8>, fails: Vec<u64>) -> Self
        ensures seen { ⟦<MemDisk as Disk>⟧.seen result ≡ bytes.items }
        ensures pending { ⟦<MemDisk as Disk>⟧.pending result ≡ false }
        ensures faults { ⟦<MemDisk as Disk>⟧.faults result ≡ 0 }
        ensures calls { calls_of result ≡ [] }
    {
        MemDisk {
            alloc,
            first: None,
            bytes,
            calls: CallRecord::of(alloc, fails),
        }
    }

    /// A disk with these bytes on it and nothing pending, which fails only for want of memory.
    pub fn plain(alloc: Global, bytes: Vec<u8>) -> Self
        ensures seen { ⟦<MemDisk as Disk>⟧.seen result ≡ bytes.items }
        ensures pending { ⟦<MemDisk as Disk>⟧.pending result ≡ false }
        ensures faults { ⟦<MemDisk as Disk>⟧.faults result ≡ 0 }
        ensures calls { calls_of result ≡ [] }
    {
        MemDisk::of(alloc, bytes, Vec::new(alloc))
    }

    /// What a read gives.
    pub fn bytes(&self) -> &[u8]
        ensures { result.now ≡ ⟦<MemDisk as Disk>⟧.seen self.now }
    {
        &self.bytes
    }

    /// The calls so far, in order, without those that found no memory to be recorded.
    pub fn calls(&self) -> &[Called]
        ensures { result.now ≡ calls_of self.now }
    {
        self.calls.calls()
    }

    /// How often it has failed.
    pub fn faults(&self) -> u64
        ensures { result ≡ ⟦<MemDisk as Disk>⟧.faults self.now }
    {
        self.calls.faults()
    }
}

impl Disk for MemDisk {
    ghost tells = { ⊤ };

    ghost seen = { λ m. m.bytes.items };

    ghost may_leave = { λ m c. IsImage (after_all (fresh (start m.first m.bytes.items)) m.calls.calls.items) c };

    ghost pending = { λ m. is_pending (after_all (fresh (start m.first m.bytes.items)) m.calls.calls.items) };

    ghost moment = { λ m. length m.calls.calls.items };

    ghost left_since = { λ m t c. LeftSince (start m.first m.bytes.items) m.calls.calls.items t c };

    ghost faults = { λ m. m.calls.faults };

    ghost leaves_seen = { λ m told. m.reached.image };

    ghost all_kept = { λ m told calm. only_image (after_all (fresh (start m.first m.bytes.items)) m.calls.calls.items) m.bytes.items m.reached calm };

    ghost counts_now = { λ m t c told le now. now_counts (start m.first m.bytes.items) m.calls.calls.items t c le now };

    ghost only_now = { λ m c told left. now_only (start m.first m.bytes.items) m.calls.calls.items c left };

    fn size(&mut self) -> Result<u64, Failed> {
        match self.calls.add(Call::Size) {
            Ok(()) => Ok(self.bytes.len() as u64),
            Err(failed) => Err(failed),
        }
    }

    fn read_at(&mut self, at: u64, into: &mut [u8]) -> Result<(), Failed> {
        let len = into.len();
        match self.calls.add(Call::Read { at, len }) {
            Ok(()) => {
                let at = at as usize;
                into.copy_from_slice(&self.bytes[at..at + len]);
                Ok(())
            }
            Err(failed) => Err(failed),
        }
    }

    fn write_at(&mut self, at: u64, bytes: &[u8]) -> Result<(), Failed> {
        let first = &mut self.first;
        let seen = &mut self.bytes;
        match write_over(self.alloc, &mut self.calls, first, seen, at, bytes) {
            Ok(()) => Ok(()),
            Err(failed) => Err(failed),
        }
    }

    fn sync(&mut self) -> Result<(), Failed> {
        match self.calls.add(Call::Sync) {
            Ok(()) => Ok(()),
            Err(failed) => Err(failed),
        }
    }
}
