ghost use Rattle.std.specs.Prelude.{◌≡◌, ◌<◌, ◌≤◌, ◌+◌, ◌*◌, ◌^◌, [], List, ℕ, true, length, drop, slice_index, IfOk};
ghost use Rattle.topo_journal.specs.Bytes.{read, read_gates, number, History, Bad};
ghost use Rattle.topo_journal.specs.Kept.{AreBytes};
ghost use Rattle.topo_journal.specs.Plain.{reading_of, has_name, HasGate};

use std::alloc::Global;
use topo_base::Memory;

/// What bytes stand for: nothing yet, or bodies and the offset of the closed gate behind them, or nothing, with the
/// offset of the first bad gate. Offsets are in bytes.
#[derive(Drop)]
pub enum Plain {
    NotYet,
    History { bodies: Vec<Vec<u8>>, gate: usize },
    Bad(usize),
}

/// What bytes stand for where any body may stand behind any other. It reads them by the definition, and serves tests
/// and those who look at a journal without knowing its entries. `Memory` is its only error.
pub fn read_plainly(alloc: Global, bytes: &[u8]) -> Result<Plain, Memory>
    ensures reading { IfOk result (λ plain. reading_of plain ≡ read (λ _ _. true) bytes.now) }
    ensures gate { IfOk result (λ plain. HasGate bytes.now plain) }
    ensures bytes { AreBytes bytes.now }
{
    if bytes.len() < 2 {
        return Ok(Plain::NotYet);
    }
    if bytes[0] != 1 {
        return Ok(closed_plainly(bytes.len()));
    }
    if bytes.len() < 8 {
        return Ok(Plain::Bad(0));
    }
    if !is_named(bytes) {
        return Ok(Plain::Bad(0));
    }
    read_gates_plainly(alloc, bytes)
}

fn closed_plainly(size: usize) -> Plain
    ensures few { size ≤ 8 → reading_of result ≡ History [] }
    ensures many { 8 < size → reading_of result ≡ Bad 0 }
    ensures gate { (bytes : List ℕ) → HasGate bytes result }
{
    if size <= 8 {
        Plain::NotYet
    } else {
        Plain::Bad(0)
    }
}

fn is_named(bytes: &[u8]) -> bool
    requires { 7 < length bytes.now }
    ensures { result ≡ has_name bytes.now }
{
    bytes[1] == 84
        && bytes[2] == 79
        && bytes[3] == 80
        && bytes[4] == 79
        && bytes[5] == 74
        && bytes[6] != 2
}

// What the gates of a journal stand for, from the first on.
fn read_gates_plainly(alloc: Global, bytes: &[u8]) -> Result<Plain, Memory>
    requires { 7 < length bytes.now }
    ensures reading { IfOk result (λ plain. reading_of plain ≡ read_gates (λ _ _. true) (length (drop 7 bytes.now)) [] 7 (drop 7 bytes.now)) }
    ensures gate { slice_index bytes.now 0 ≡ 1 → IfOk result (λ plain. HasGate bytes.now plain) }
{
    let mut bodies = Vec::new(alloc);
    let mut at = 7;
    while at < bytes.len() && bytes[at] == 1 {
        if bytes.len() - at < 6 {
            return Ok(Plain::Bad(at));
        }
        let size = number_of(bytes[at + 1], bytes[at + 2], bytes[at + 3], bytes[at + 4]);
        if size >= bytes.len() - at - 5 {
            return Ok(Plain::Bad(at));
        }
        let from = at + 5;
        bodies.push(bytes[from..from + size].to_vec(alloc)?)?;
        at = from + size;
    }
    if at < bytes.len() {
        Ok(Plain::History { bodies, gate: at })
    } else {
        Ok(Plain::Bad(at))
    }
}

fn number_of(a: u8, b: u8, c: u8, d: u8) -> usize
    ensures { result ≡ number a b c d }
{
    ((a as usize * 256 + b as usize) * 256 + c as usize) * 256 + d as usize
}
