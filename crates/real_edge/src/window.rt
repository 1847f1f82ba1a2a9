ghost use Rattle.std.specs.Prelude.{◌≡◌, ◌↔◌, [], length, false, IsTrue, IfOk};
ghost use Rattle.real_edge.specs.Window.{IsIn, part};

use std::alloc::{AllocError, Global};
use std::fs::File;
use std::marker::Model;
use std::os::unix::fs::FileExt;

/// How many bytes a window has room for.
pub const ROOM: usize = 65536;

/// The bytes of a file from an offset on, as they were read last, so that short reads one behind the other take few
/// calls of the system. Contracts see the offset and the bytes.
#[derive(Drop)]
pub struct Window {
    room: Vec<u8>,
    start: u64,
    held: usize,
}

impl Model for Window {
    ghost use Rattle.std.specs.Prelude.{◌≤◌, length, take};
    ghost use Rattle.real_edge.specs.Window.{Stretch};

    ghost Value = { Stretch };

    ghost view = { λ w. record { start = w.start; bytes = take w.held w.room.items } };

    ghost invariant = { λ w. w.held ≤ length w.room.items };
}

impl Window {
    /// A window with no bytes in it.
    pub fn of(alloc: Global) -> Result<Window, AllocError>
        ensures { IfOk result (λ w. w.bytes ≡ []) }
    {
        Ok(Window {
            room: vec![in alloc; 0; ROOM]?,
            start: 0,
            held: 0,
        })
    }

    /// Lets go what it holds.
    pub fn clear(&mut self)
        ensures { self.new.bytes ≡ [] }
    {
        self.held = 0;
    }

    /// Holds what one read gives from the offset on: as much as there is room for, less where the file ends or the call
    /// is cut short, and nothing where it fails.
    pub fn fill(&mut self, file: &File, at: u64)
        ensures { self.new.start ≡ at }
    {
        self.start = at;
        self.held = 0;
        if let Ok(count) = file.read_at(&mut self.room, at) {
            self.held = count;
        }
    }

    /// Copies the bytes from the offset on, as many as the slice is long, and says whether all of them are here.
    pub fn give(&self, at: u64, into: &mut [u8]) -> bool
        ensures found { IsTrue result ↔ IsIn self.now at (length into.old) }
        ensures bytes { IsTrue result → into.new ≡ part self.now at (length into.old) }
        ensures same { result ≡ false → into.new ≡ into.old }
    {
        let len = into.len();
        if at < self.start || self.held < len {
            return false;
        }
        let skipped = at - self.start;
        if skipped > (self.held - len) as u64 {
            return false;
        }
        let from = skipped as usize;
        let (bytes, _) = self.room.split_at(self.held);
        into.copy_from_slice(&bytes[from..from + len]);
        true
    }
}
