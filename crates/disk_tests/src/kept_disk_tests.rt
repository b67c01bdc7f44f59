use crate::calls::{Call, FIRST, RUN, make};
use kept_disk::{Disk, MemDisk};
use std::alloc::{AllocError, Global};
use std::test::Fail;

/// A disk with these bytes, and room for so many bytes and changes.
fn disk_of(
    alloc: Global,
    bytes: &[u8],
    room: usize,
    changes: usize,
) -> Result<MemDisk, AllocError> {
    let mut disk = MemDisk::new(alloc, bytes.to_vec(alloc)?);
    disk.reserve(room, changes)?;
    Ok(disk)
}

/// Makes a call of a disk. Whether it did it.
fn done(disk: &mut MemDisk, what: Call) -> Result<bool, Fail> {
    let len = disk.bytes().len() as u64;
    make(disk, len, what)
}

/// Have a disk, what a crash leaves of it that takes all away which was not synced, and what one leaves that takes nothing away
/// these bytes, the last two with no fault?
fn has(alloc: Global, disk: &MemDisk, seen: &[u8], synced: &[u8]) -> Result<bool, AllocError> {
    let lost = disk.lost(alloc)?;
    let kept = disk.kept(alloc)?;
    Ok(
        disk.bytes() == seen
            && lost.bytes() == synced
            && kept.bytes() == seen
            && lost.faults() == 0
            && kept.faults() == 0,
    )
}

/// How many bytes the calls of the run write and take away.
const RUN_BYTES: usize = 23;

/// How many of them change the disk.
const RUN_CHANGES: usize = 11;

#[test]
fn a_crash_leaves_what_was_synced_or_what_a_read_gives(rt: HostRuntime) -> Result<(), Fail> {
    let alloc = rt.alloc();
    let mut disk = disk_of(alloc, FIRST, RUN_BYTES, RUN_CHANGES)?;
    for (what, seen, synced) in RUN {
        assert!(rt; done(&mut disk, what)?, "{what:?}");
        assert!(rt; has(alloc, &disk, seen, synced)?, "{what:?}");
    }
    assert_eq!(rt; disk.faults(), 0);
    Ok(())
}
