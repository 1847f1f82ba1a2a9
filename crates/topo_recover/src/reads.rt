ghost use Rattle.std.specs.Prelude.{◌≡◌, ◌<◌, ◌≤◌, ◌==◌, ◌+◌, length, take, drop, slice_index, IfOk};
ghost use Rattle.topo_io.specs.Causes.{HasCause};
ghost use Rattle.history_model.specs.Spelling.{number_bytes};

use topo_disk::{Disk, Failed};
use topo_journal::Begun;

// Whether the gate at this offset is open.
pub(crate) fn is_open<D: Disk>(begun: &mut Begun<D>, gate: u64) -> Result<bool, Failed>
    requires { D.tells → gate < length (D.seen begun.old.disk) }
    ensures opened { D.tells → IfOk result (λ is. is ≡ (slice_index (D.seen begun.old.disk) gate == 1)) }
    ensures seen { D.tells → D.seen begun.new.disk ≡ D.seen begun.old.disk }
    ensures start { (begun.new.called.was ≡ begun.old.called.was) × (begun.new.synced.was ≡ begun.old.synced.was) }
    ensures cause { HasCause (D.faults begun.old.disk) (D.faults begun.new.disk) result }
{
    let mut byte = [0];
    begun.read_at(gate, &mut byte)?;
    Ok(byte[0] == 1)
}

// The number that four bytes spell.
pub(crate) fn read_number<D: Disk>(begun: &mut Begun<D>, at: u64) -> Result<u32, Failed>
    requires { D.tells → at + 4 ≤ length (D.seen begun.old.disk) }
    ensures number { D.tells → IfOk result (λ n. number_bytes n ≡ take 4 (drop at (D.seen begun.old.disk))) }
    ensures seen { D.tells → D.seen begun.new.disk ≡ D.seen begun.old.disk }
    ensures start { (begun.new.called.was ≡ begun.old.called.was) × (begun.new.synced.was ≡ begun.old.synced.was) }
    ensures cause { HasCause (D.faults begun.old.disk) (D.faults begun.new.disk) result }
{
    let mut bytes = [0; 4];
    begun.read_at(at, &mut bytes)?;
    Ok(number_of(&bytes))
}

fn number_of(bytes: &[u8]) -> u32
    requires { length bytes.now ≡ 4 }
    ensures { number_bytes result ≡ bytes.now }
{
    u32::from_be_bytes([bytes[0], bytes[1], bytes[2], bytes[3]])
}
