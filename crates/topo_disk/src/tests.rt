use crate::{Call, Called, Disk, Fused, MemDisk};
use std::test::Fail;

// How many of five calls succeed: two writes, a sync, the size and a read of nothing.
fn successes<D: Disk>(disk: &mut D) -> usize {
    let wrote = disk.write_at(0, b"lake").is_ok();
    let over = disk.write_at(0, b"boat").is_ok();
    let synced = disk.sync().is_ok();
    let sized = disk.size().is_ok();
    let read = disk.read_at(0, &mut []).is_ok();
    [wrote, over, synced, sized, read]
        .iter()
        .filter(|succeeded| **succeeded)
        .count()
}

#[test]
fn a_fuse_passes_so_many_calls(rt: HostRuntime) -> Result<(), Fail> {
    let alloc = rt.alloc();
    for calls in 0..7u64 {
        let mut fused = Fused::of(MemDisk::plain(alloc, Vec::new(alloc)), calls);
        let passed = successes(&mut fused);
        assert_eq!(rt; passed as u64, calls.min(5));
        let disk = fused.into_inner();
        assert_eq!(rt; disk.calls().len(), passed);
        assert_eq!(rt; disk.faults(), 0);
        let want: &[u8] = match calls {
            0 => b"",
            1 => b"lake",
            _ => b"boat",
        };
        assert_eq!(rt; disk.bytes(), want);
    }
    Ok(())
}

#[test]
fn the_listed_calls_fail_and_no_others(rt: HostRuntime) -> Result<(), Fail> {
    let alloc = rt.alloc();
    let mut disk = MemDisk::of(alloc, b"cape".to_vec(alloc)?, [2, 5, 9].to_vec(alloc)?);
    assert_eq!(rt; successes(&mut disk), 3);
    assert_eq!(rt; disk.faults(), 2);
    assert_eq!(rt; disk.bytes(), b"lake".as_slice());
    let failed: Vec<bool> = disk
        .calls()
        .iter()
        .map(|called| called.failed)
        .collect(alloc)?;
    assert_eq!(rt;
        failed.as_slice(),
        [false, true, false, false, true].as_slice()
    );
    Ok(())
}

fn is_write(called: &Called, want_at: u64, want: &[u8]) -> bool {
    match &called.call {
        Call::Write { at, bytes } => *at == want_at && bytes.as_slice() == want,
        _ => false,
    }
}

#[test]
fn a_write_goes_over_the_end(rt: HostRuntime) -> Result<(), Fail> {
    let alloc = rt.alloc();
    let mut disk = MemDisk::plain(alloc, b"inlet".to_vec(alloc)?);
    assert!(rt; disk.write_at(2, b"dices").is_ok());
    assert_eq!(rt; disk.bytes(), b"indices".as_slice());
    let [called] = disk.calls() else {
        return Err("not one call".into());
    };
    assert!(rt; is_write(called, 2, b"dices"));
    Ok(())
}

#[test]
fn a_read_copies_what_was_written(rt: HostRuntime) -> Result<(), Fail> {
    let alloc = rt.alloc();
    let mut disk = MemDisk::plain(alloc, b"island".to_vec(alloc)?);
    let mut into = [0; 4];
    assert!(rt; disk.read_at(2, &mut into).is_ok());
    assert_eq!(rt; into.as_slice(), b"land".as_slice());
    Ok(())
}
