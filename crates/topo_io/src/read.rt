ghost use Rattle.std.specs.Prelude.{◌≡◌, ℕ, ◌+◌, ◌≤◌, ◌<◌, [], length, Some, IfOk, IfSome, OnSome, OnOk, OnErr, IsErrOf, IsOk, List, ◌⊎◌};
ghost use Rattle.topo_io.specs.Causes.{Rose};
ghost use Rattle.topo_io.specs.Sources.{TakesAtMost};

use crate::{Failed, Source};
use std::alloc::{AllocError, Global};
use thiserror::Error;

/// Why not all was read.
#[derive(Clone, Copy, Debug, PartialEq, Eq, Error)]
pub enum ReadEnd {
    #[error("the source failed")]
    Fault,
    #[error("too many bytes")]
    TooLong,
    #[error("out of memory")]
    Memory,
}

impl From<AllocError> for ReadEnd {
    ghost use Rattle.std.specs.Prelude.{◌≡◌};
    ghost use Rattle.topo_io.specs.declared.read.ReadEnd.TheVariants.{Memory};

    ghost from_gives = { λ _ e. e ≡ Memory };

    fn from(_: AllocError) -> Self {
        ReadEnd::Memory
    }
}

impl From<Failed> for ReadEnd {
    ghost use Rattle.std.specs.Prelude.{◌≡◌};
    ghost use Rattle.topo_io.specs.declared.read.ReadEnd.TheVariants.{Fault};

    ghost from_gives = { λ _ e. e ≡ Fault };

    fn from(_: Failed) -> Self {
        ReadEnd::Fault
    }
}

const CHUNK: usize = 4096;

/// The source's whole rest, read to its end. `Fault`: the source failed. `TooLong`: more than `cap` bytes were
/// left, of which at most `cap + 1` are taken. `Memory` leaves unsaid what was read.
pub fn read_all<S: Source>(alloc: Global, source: &mut S, cap: u64) -> Result<Vec<u8>, ReadEnd>
    ensures whole { IfOk result (λ v. IfSome (S.left source.old) (λ bytes. v.items ≡ bytes)) }
    ensures end { OnOk result (OnSome (S.left source.old) (S.left source.new ≡ Some [])) }
    ensures short { IfOk result (λ v. length v.items ≤ cap) }
    ensures taken { TakesAtMost (cap + 1) (S.left source.old) (S.left source.new) }
    ensures too_long { IsErrOf result ReadEnd.TooLong → IfSome (S.left source.old) (λ bytes. cap < length bytes) }
    ensures fault { IsErrOf result ReadEnd.Fault → Rose (S.faults source.old) (S.faults source.new) }
    ensures later { S.faults source.old ≤ S.faults source.new }
    ensures kept { OnOk result (S.faults source.new ≡ S.faults source.old) }
    // With no fault of the source the answer is told but for want of memory.
    ensures fits { (bytes : List ℕ) → S.left source.old ≡ Some bytes → length bytes ≤ cap
        → (Rose (S.faults source.old) (S.faults source.new) → ⊥) → IsOk result ⊎ IsErrOf result ReadEnd.Memory }
    ensures exceeds { (bytes : List ℕ) → S.left source.old ≡ Some bytes → cap < length bytes
        → (Rose (S.faults source.old) (S.faults source.new) → ⊥)
        → IsErrOf result ReadEnd.TooLong ⊎ IsErrOf result ReadEnd.Memory }
{
    let mut buffer = [0u8; CHUNK];
    let mut bytes = Vec::new(alloc);
    loop {
        let room = cap - bytes.len() as u64;
        let want = if room < CHUNK as u64 {
            room as usize + 1
        } else {
            CHUNK
        };
        let count = source.read(&mut buffer[..want])?;
        if count == 0 {
            return Ok(bytes);
        }
        if count as u64 > room {
            return Err(ReadEnd::TooLong);
        }
        bytes.extend_from_slice(&buffer[..count])?;
    }
}
