ghost use Rattle.std.specs.Prelude.{◌≡◌, ◌<◌, ◌≤◌, ◌∷◌, length, IfOk, Ok};
ghost use Rattle.topo_io.specs.Causes.{HasCause};
ghost use Rattle.topo_journal.specs.Plain.{has_name};
ghost use Rattle.topo_recover.specs.declared.header.Header.TheVariants.{NotYet, Open, Bad};
ghost use Rattle.topo_recover.specs.Reached.{IsHeader};

use crate::reads::is_open;
use topo_disk::{Disk, Failed};
use topo_journal::Begun;

// How a disk begins: as what may become a journal, as one, or as neither.
#[derive(Clone, Copy)]
pub(crate) enum Header {
    NotYet,
    Open,
    Bad,
}

// How a disk of this size begins.
pub(crate) fn read_header<D: Disk>(begun: &mut Begun<D>, size: u64) -> Result<Header, Failed>
    requires { D.tells → size ≡ length (D.seen begun.old.disk) }
    ensures long { result ≡ Ok Open → 7 < size }
    ensures header { D.tells → IfOk result (λ header. IsHeader header (D.seen begun.old.disk)) }
    ensures seen { D.tells → D.seen begun.new.disk ≡ D.seen begun.old.disk }
    ensures start { (begun.new.called.was ≡ begun.old.called.was) × (begun.new.synced.was ≡ begun.old.synced.was) }
    ensures cause { HasCause (D.faults begun.old.disk) (D.faults begun.new.disk) result }
{
    if size < 2 {
        return Ok(Header::NotYet);
    }
    let opened = is_open(begun, 0)?;
    if !opened {
        return Ok(closed_header(size));
    }
    if size < 8 {
        return Ok(Header::Bad);
    }
    let mut name = [0; 6];
    begun.read_at(1, &mut name)?;
    if is_named(&name) {
        Ok(Header::Open)
    } else {
        Ok(Header::Bad)
    }
}

// How a disk of this size begins that has a closed header gate.
fn closed_header(size: u64) -> Header
    ensures few { size ≤ 8 → result ≡ NotYet }
    ensures many { 8 < size → result ≡ Bad }
{
    if size <= 8 {
        Header::NotYet
    } else {
        Header::Bad
    }
}

// Whether these are the letters TOPOJ and a format that is not 2, which is kept for later.
fn is_named(name: &[u8; 6]) -> bool
    ensures { result ≡ has_name (0 ∷ name.now) }
{
    name[0] == b'T'
        && name[1] == b'O'
        && name[2] == b'P'
        && name[3] == b'O'
        && name[4] == b'J'
        && name[5] != 2
}
