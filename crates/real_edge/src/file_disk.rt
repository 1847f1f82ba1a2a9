ghost use Rattle.std.specs.Prelude.{◌≡◌, ◌≤◌, [], true, false, IsTrue, IsErr, IfOk, OnErr};
ghost use Rattle.topo_io.specs.Causes.{Rose, HasCause};

use crate::window::{ROOM, Window};
use std::fs::{File, Files, OpenOptions};
use std::os::fd::AsRawFd;
use std::os::unix::fs::FileExt;
use std::{fs, io};
use topo_disk::{Disk, Failed};

/// A file of the operating system as a disk. It tells nothing of its content, so no contract above it says what stands
/// in the file; each call that fails raises the count of faults.
///
/// A call moves all of its bytes: one that the system cuts short goes on, and a read that meets the end of the file, or
/// a write that moves nothing, is a fault. Offsets are below 2^63, and a call past that is a fault. Reads go through a
/// window of 64 KiB, which each write closes. After a failed sync the system may have dropped what was to be written,
/// and would answer Ok to the next one: so each later sync fails too, until the file is opened anew.
#[derive(Drop)]
pub struct FileDisk {
    file: File,
    window: Window,
    // whether a sync has failed
    is_lost: bool,
    faults: u64,
}

// Opens a regular file for reading and writing, and makes it where it is missing.
fn open_file<R: Files<File = File>>(rt: &R, path: &str) -> io::Result<File> {
    let file = OpenOptions::new()
        .read(true)
        .write(true)
        .create(true)
        .open(rt, path)?;
    if !file.metadata()?.is_file() {
        return Err(io::ErrorKind::Unsupported.into());
    }
    // What is meant for a standard stream that was closed must not go into the file.
    if file.as_raw_fd() <= 2 {
        return file.try_clone();
    }
    Ok(file)
}

// Sees that the name of the file is on the disk too.
fn sync_folder<R: Files<File = File> + AllocGlobal>(rt: &R, path: &str) -> io::Result<()> {
    let mut folder = fs::canonicalize(rt, path)?;
    folder.pop();
    File::open(rt, folder.as_str())?.sync_all()
}

impl FileDisk {
    /// Opens the file of this path, made empty where it is missing, and syncs its folder, so that a crash leaves the
    /// name of a new file.
    ///
    /// Errors: the path is no regular file or may not be read and written; its folder may not be read or synced;
    /// another process, or another `FileDisk` of this one, has the file open (`WouldBlock`: the file is locked from here
    /// on by the advisory lock of the system, until it is dropped); memory (`OutOfMemory`).
    pub fn open<R: Files<File = File> + AllocGlobal>(rt: &R, path: &str) -> io::Result<FileDisk>
        ensures { IfOk result (λ disk. ⟦<FileDisk as Disk>⟧.faults disk ≡ 0) }
    {
        let window = Window::of(rt.alloc())?;
        let file = open_file(rt, path)?;
        file.try_lock()?;
        sync_folder(rt, path)?;
        Ok(FileDisk::over(file, window))
    }

    // A disk over an open file that has not failed yet.
    pub(crate) fn over(file: File, window: Window) -> FileDisk
        ensures faults { result.faults ≡ 0 }
        ensures lost { result.is_lost ≡ false }
    {
        FileDisk {
            file,
            window,
            is_lost: false,
            faults: 0,
        }
    }

    /// How often it has failed.
    pub fn faults(&self) -> u64
        ensures { result ≡ ⟦<FileDisk as Disk>⟧.faults self.now }
    {
        self.faults
    }

    // Counts a failure.
    fn fault(&mut self) -> Failed
        ensures rest { self.new ≡ record self.old { faults = self.new.faults } }
        ensures later { self.old.faults ≤ self.new.faults }
        ensures rose { Rose self.old.faults self.new.faults }
    {
        self.faults = self.faults.saturating_add(1);
        Failed
    }

    // Reads from the window, which is opened at this offset where it doesn't have the bytes.
    fn give(&mut self, at: u64, into: &mut [u8]) -> bool
        ensures { self.new.faults ≡ self.old.faults }
    {
        if self.window.give(at, into) {
            return true;
        }
        if into.len() > ROOM {
            return false;
        }
        self.window.fill(&self.file, at);
        self.window.give(at, into)
    }

    // Writes, and closes the window first, which would have the old bytes.
    fn write_over(&mut self, at: u64, bytes: &[u8]) -> Result<(), Failed>
        ensures window { self.new.window.bytes ≡ [] }
        ensures cause { HasCause self.old.faults self.new.faults result }
    {
        self.window.clear();
        match self.file.write_all_at(bytes, at) {
            Ok(()) => Ok(()),
            Err(_) => Err(self.fault()),
        }
    }

    // Syncs, unless a sync failed before.
    fn sync_all(&mut self) -> Result<(), Failed>
        ensures stays_lost { IsTrue self.old.is_lost → IsErr result }
        ensures lost { OnErr result (self.new.is_lost ≡ true) }
        ensures cause { HasCause self.old.faults self.new.faults result }
    {
        if self.is_lost {
            return Err(self.fault());
        }
        match self.file.sync_data() {
            Ok(()) => Ok(()),
            Err(_) => {
                self.is_lost = true;
                Err(self.fault())
            }
        }
    }
}

impl Disk for FileDisk {
    ghost tells = { ⊥ };

    ghost seen = { λ disk. [] };

    ghost may_leave = { λ disk c. ⊥ };

    ghost pending = { λ disk. false };

    ghost moment = { λ disk. 0 };

    ghost left_since = { λ disk t c. ⊥ };

    ghost faults = { λ disk. disk.faults };

    ghost leaves_seen = { λ disk told. absurd told };

    ghost all_kept = { λ disk told. absurd told };

    ghost counts_now = { λ disk t c told. absurd told };

    ghost only_now = { λ disk c told. absurd told };

    fn size(&mut self) -> Result<u64, Failed> {
        match self.file.metadata() {
            Ok(found) => Ok(found.len()),
            Err(_) => Err(self.fault()),
        }
    }

    fn read_at(&mut self, at: u64, into: &mut [u8]) -> Result<(), Failed> {
        if self.give(at, into) {
            return Ok(());
        }
        match self.file.read_exact_at(into, at) {
            Ok(()) => Ok(()),
            Err(_) => Err(self.fault()),
        }
    }

    fn write_at(&mut self, at: u64, bytes: &[u8]) -> Result<(), Failed> {
        self.write_over(at, bytes)
    }

    fn sync(&mut self) -> Result<(), Failed> {
        self.sync_all()
    }
}
