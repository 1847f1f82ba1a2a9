use crate::window::Window;
use crate::{FileDisk, StdSink, StdSource};
use std::fs::{self, File};
use std::io::{self, Read};
use std::test::Fail;
use topo_disk::Disk;
use topo_io::{Failed, ReadEnd, Sink, Source, read_all, write_all};

// Gives one part in each call, and fails where the part is empty.
#[derive(Drop)]
struct Rough {
    parts: [&'static [u8]; 3],
    calls: usize,
}

impl Read for Rough {
    fn read(&mut self, buf: &mut [u8]) -> io::Result<usize> {
        let Some(&part) = self.parts.get(self.calls) else {
            return Ok(0);
        };
        self.calls += 1;
        if part.is_empty() || buf.len() < part.len() {
            return Err(io::ErrorKind::Other.into());
        }
        buf[..part.len()].copy_from_slice(part);
        Ok(part.len())
    }
}

#[test]
fn a_source_gives_what_its_reader_gives(rt: HostRuntime) -> Result<(), Fail> {
    let alloc = rt.alloc();
    let mut told = StdSource::of(b"inlet".as_slice());
    assert_eq!(rt;
        read_all(alloc, &mut told, 5)?.as_slice(),
        b"inlet".as_slice()
    );
    let parts: [&'static [u8]; 3] = [b"isl", b"", b"and"];
    let mut rough = StdSource::of(Rough { parts, calls: 0 });
    assert!(rt; matches!(read_all(alloc, &mut rough, 9), Err(ReadEnd::Fault)));
    let mut into = [0; 8];
    assert_eq!(rt; rough.read(&mut into), Ok(3));
    assert_eq!(rt; &into[..3], b"and".as_slice());
    assert_eq!(rt; rough.read(&mut into), Ok(0));
    Ok(())
}

#[test]
fn a_sink_takes_what_its_writer_takes(rt: HostRuntime) -> Result<(), Fail> {
    let mut bytes = Vec::new(rt.alloc());
    let mut told = StdSink::of(&mut bytes);
    assert!(rt; write_all(&mut told, b"inlet").is_ok());
    drop(told);
    assert_eq!(rt; bytes.as_slice(), b"inlet".as_slice());
    // A writer that is full takes no byte.
    let mut room = [0; 4];
    let mut full = StdSink::of(room.as_mut_slice());
    assert_eq!(rt; full.write(b"isl"), Ok(3));
    assert_eq!(rt; full.write(b"and"), Ok(1));
    assert_eq!(rt; full.write(b"nd"), Err(Failed));
    drop(full);
    assert_eq!(rt; room.as_slice(), b"isla".as_slice());
    Ok(())
}

fn holds(disk: &mut FileDisk, at: u64, want: &[u8], into: &mut [u8]) -> bool {
    disk.read_at(at, into).is_ok() && &*into == want
}

#[test]
fn a_file_keeps_what_was_written(rt: HostRuntime) -> Result<(), Fail> {
    let path = "real_edge_kept";
    let mut disk = FileDisk::open(&rt, path)?;
    assert_eq!(rt; disk.size(), Ok(0));
    assert!(rt; disk.write_at(0, b"cape").is_ok());
    assert!(rt; holds(&mut disk, 0, b"cape", &mut [0; 4]));
    assert!(rt; disk.write_at(2, b"nals").is_ok());
    assert!(rt; disk.sync().is_ok());
    // The window of the read before has the old bytes, and is closed.
    assert!(rt; holds(&mut disk, 1, b"anals", &mut [0; 5]));
    assert_eq!(rt; disk.size(), Ok(6));
    assert_eq!(rt; disk.faults(), 0);
    assert_eq!(rt; disk.read_at(3, &mut [0; 4]), Err(Failed));
    assert_eq!(rt; disk.faults(), 1);
    assert!(rt; holds(&mut disk, 4, b"ls", &mut [0; 2]));
    drop(disk);
    assert_eq!(rt; fs::read(&rt, path)?.as_slice(), b"canals".as_slice());
    let mut again = FileDisk::open(&rt, path)?;
    assert_eq!(rt; again.size(), Ok(6));
    drop(again);
    fs::remove_file(&rt, path)?;
    Ok(())
}

// More bytes than a window has room for, read in pieces that don't end where a window does.
#[test]
fn a_long_file_is_read_in_pieces(rt: HostRuntime) -> Result<(), Fail> {
    let alloc = rt.alloc();
    let path = "real_edge_long";
    let mut long = Vec::new(alloc);
    for i in 0..150_000u32 {
        long.push((i % 251) as u8)?;
    }
    let mut disk = FileDisk::open(&rt, path)?;
    assert!(rt; disk.write_at(0, &long).is_ok());
    let mut whole = vec![in alloc; 0; 150_000]?;
    assert!(rt; holds(&mut disk, 0, &long, &mut whole));
    let mut at: u64 = 0;
    for piece in long.chunks(97) {
        let mut into = vec![in alloc; 0; piece.len()]?;
        assert!(rt; holds(&mut disk, at, piece, &mut into), "at {at}");
        at = at.wrapping_add(97);
    }
    assert_eq!(rt; disk.faults(), 0);
    drop(disk);
    fs::remove_file(&rt, path)?;
    Ok(())
}

#[test]
fn a_file_is_open_once(rt: HostRuntime) -> Result<(), Fail> {
    let path = "real_edge_open";
    let disk = FileDisk::open(&rt, path)?;
    let Err(refused) = FileDisk::open(&rt, path) else {
        return Err("opened twice".into());
    };
    assert_eq!(rt; refused.kind(), io::ErrorKind::WouldBlock);
    drop(disk);
    assert!(rt; FileDisk::open(&rt, path).is_ok());
    fs::remove_file(&rt, path)?;
    assert!(rt; FileDisk::open(&rt, ".").is_err());
    assert!(rt; FileDisk::open(&rt, "/dev/null").is_err());
    assert!(rt; FileDisk::open(&rt, "").is_err());
    Ok(())
}

#[test]
fn each_fault_of_a_file_is_counted(rt: HostRuntime) -> Result<(), Fail> {
    let path = "real_edge_read_only";
    fs::write(&rt, path, b"cape".as_slice())?;
    let mut disk = FileDisk::over(File::open(&rt, path)?, Window::of(rt.alloc())?);
    assert_eq!(rt; disk.write_at(0, b"boat"), Err(Failed));
    assert!(rt; holds(&mut disk, 0, b"cape", &mut [0; 4]));
    assert_eq!(rt; disk.faults(), 1);
    fs::remove_file(&rt, path)?;
    // A device that holds nothing and can't be synced.
    let mut null = FileDisk::over(File::open(&rt, "/dev/null")?, Window::of(rt.alloc())?);
    assert_eq!(rt; null.sync(), Err(Failed));
    assert_eq!(rt; null.sync(), Err(Failed));
    assert_eq!(rt; null.read_at(0, &mut [0]), Err(Failed));
    assert_eq!(rt; null.faults(), 3);
    Ok(())
}
