ghost use Rattle.std.specs.Prelude.{◌≡◌, true, length, IfOk, IfSome};
ghost use Rattle.topo_journal.specs.Bytes.{Stands};
ghost use Rattle.topo_journal.specs.Kept.{history};

use crate::begun::{Begun, adopt};
use crate::journal::Journal;
use crate::plain::{Plain, read_plainly};
use std::alloc::Global;
use topo_disk::Disk;

// The journal of a disk that stands for bodies, each of which is taken as legal. It gives the disk back where it has
// no journal, can't be read, or there is no memory for its bytes.
pub fn resume<D: Disk>(alloc: Global, begun: Begun<D>) -> Result<Journal<D>, D>
    ensures same { D.tells → IfOk result (λ journal. D.seen journal.disk ≡ D.seen begun.disk) }
    ensures history { D.tells → IfOk result (λ journal. Stands (λ _ _. true) (D.seen begun.disk) (history journal.gate (D.seen journal.disk))) }
    ensures start { IfOk result (λ journal. (journal.called.was ≡ begun.called.was) × (journal.synced.was ≡ begun.synced.was)) }
{
    let mut begun = begun;
    let Some(bytes) = read_all(alloc, &mut begun) else {
        return Err(begun.into_disk());
    };
    match read_plainly(alloc, &bytes) {
        Ok(Plain::History { bodies: _, gate }) => Ok(adopt(begun, gate as u64)),
        _ => Err(begun.into_disk()),
    }
}

// All that a read gives, or None where it fails or there is no memory for it.
fn read_all<D: Disk>(alloc: Global, begun: &mut Begun<D>) -> Option<Vec<u8>>
    ensures bytes { D.tells → IfSome result (λ bytes. bytes.items ≡ D.seen begun.new.disk) }
    ensures same { D.tells → D.seen begun.new.disk ≡ D.seen begun.old.disk }
    ensures start { (begun.new.called.was ≡ begun.old.called.was) × (begun.new.synced.was ≡ begun.old.synced.was) }
{
    let Ok(size) = begun.size() else {
        return None;
    };
    let Ok(mut bytes) = vec![in alloc; 0; size as usize] else {
        return None;
    };
    match begun.read_at(0, &mut bytes) {
        Ok(()) => Some(bytes),
        Err(_) => None,
    }
}
