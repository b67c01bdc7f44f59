use crate::calls::{Call, FIRST, RUN, each_fails, make};
use crate::files::{file_of, has_bytes, path_of};
use file_disk::{FileDisk, FileFault};
use kept_disk::Disk;
use std::fs;
use std::test::Fail;

/// Makes a call of a disk. Whether it did it.
fn done(disk: &mut FileDisk, what: Call) -> Result<bool, Fail> {
    match disk.len() {
        Ok(len) => make(disk, len, what),
        Err(_) => Ok(false),
    }
}

/// Does a disk give these bytes, and no more, where 16 are asked for?
fn gives(disk: &mut FileDisk, seen: &[u8]) -> Result<bool, Fail> {
    let mut buffer = [0; 16];
    let count = disk.read(0, &mut buffer)?;
    Ok(&buffer[..count] == seen)
}

#[test]
fn the_file_has_what_a_read_gives(rt: HostRuntime) -> Result<(), Fail> {
    let path = file_of(&rt, "run", FIRST)?;
    let mut disk = FileDisk::open(&rt, path.as_str())?;
    for (what, seen, _) in RUN {
        assert!(rt; done(&mut disk, what)?, "{what:?}");
        assert!(rt; gives(&mut disk, seen)?, "{what:?}");
        assert!(rt; has_bytes(&rt, path.as_str(), seen)?, "{what:?}");
    }
    fs::remove_file(&rt, path.as_str())?;
    Ok(())
}

/// Why a file is not opened.
fn fault_of(rt: &HostRuntime, path: &str) -> Option<FileFault> {
    match FileDisk::open(rt, path) {
        Ok(_disk) => None,
        Err(fault) => Some(fault),
    }
}

#[test]
fn a_file_is_made_and_nobody_else_opens_it_meanwhile(rt: HostRuntime) -> Result<(), Fail> {
    let path = path_of(&rt, "made")?;
    let disk = FileDisk::open(&rt, path.as_str())?;
    assert!(rt; has_bytes(&rt, path.as_str(), b"")?);
    assert!(rt; matches!(fault_of(&rt, path.as_str()), Some(FileFault::Busy)));
    drop(disk);
    assert!(rt; fault_of(&rt, path.as_str()).is_none());
    fs::remove_file(&rt, path.as_str())?;
    Ok(())
}

#[test]
fn what_is_no_regular_file_is_not_opened(rt: HostRuntime) -> Result<(), Fail> {
    assert!(rt; matches!(fault_of(&rt, "/dev/null"), Some(FileFault::NoFile)));
    assert!(rt; matches!(fault_of(&rt, "/dev"), Some(FileFault::System(_))));
    assert!(rt; matches!(fault_of(&rt, "/dev/null/file"), Some(FileFault::System(_))));
    Ok(())
}

/// Opens a file that has `abc`, and has another put these bytes in their place.
fn changed(rt: &HostRuntime, path: &str, bytes: &[u8]) -> Result<FileDisk, Fail> {
    fs::write(rt, path, b"abc".as_slice())?;
    let disk = FileDisk::open(rt, path)?;
    fs::write(rt, path, bytes)?;
    Ok(disk)
}

/// Does the disk of such a file give its length? Where it does not, each call fails behind that.
fn has_length(rt: &HostRuntime, path: &str, bytes: &[u8]) -> Result<bool, Fail> {
    let mut disk = changed(rt, path, bytes)?;
    let passes = disk.len().is_ok();
    if !passes && !each_fails(&mut disk) {
        return Err("a call passes behind a length that failed".into());
    }
    Ok(passes)
}

/// Does it give the three bytes? Where it does not, each call fails behind that.
fn is_read(rt: &HostRuntime, path: &str, bytes: &[u8]) -> Result<bool, Fail> {
    let mut disk = changed(rt, path, bytes)?;
    let passes = disk.read(0, &mut [0; 9]).is_ok();
    if !passes && !each_fails(&mut disk) {
        return Err("a call passes behind a read that failed".into());
    }
    Ok(passes)
}

#[test]
fn a_file_that_another_changed_is_found_out_for_good(rt: HostRuntime) -> Result<(), Fail> {
    let path = path_of(&rt, "changed")?;
    // What another puts there, and whether the disk gives the length and the bytes.
    let changes: [(&[u8], bool, bool); 3] = [
        (b"abcd", false, true),
        (b"ab", false, false),
        (b"abX", true, false),
    ];
    for (bytes, length, read) in changes {
        assert_eq!(rt; has_length(&rt, path.as_str(), bytes)?, length);
        assert_eq!(rt; is_read(&rt, path.as_str(), bytes)?, read);
        assert!(rt; has_bytes(&rt, path.as_str(), bytes)?);
    }
    fs::remove_file(&rt, path.as_str())?;
    Ok(())
}
