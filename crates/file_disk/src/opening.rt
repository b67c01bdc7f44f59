//! How a file is opened or made.
use crate::fault::FileFault;
use std::fs::{self, File, OpenOptions, TryLockError};
use std::io::Read;
use std::os::fd::AsRawFd;

/// Descriptors up to this one are standard streams.
const LAST_STREAM: i32 = 2;

/// Opens the file, or makes an empty one, locks it, and gives it with its bytes, all of it synced.
pub(crate) fn opened(rt: &HostRuntime, path: &str) -> Result<(File, Vec<u8>), FileFault> {
    let file = locked(rt, path)?;
    settle(rt, &file, path)?;
    let bytes = read_whole(rt, &file)?;
    Ok((file, bytes))
}

/// The file, which no other handle holds locked.
fn locked(rt: &HostRuntime, path: &str) -> Result<File, FileFault> {
    let mut how = OpenOptions::new();
    how.read(true).write(true).create(true);
    let mut file = how.open(rt, path)?;
    // What is meant for a standard stream that was closed must not land in the file.
    if file.as_raw_fd() <= LAST_STREAM {
        file = file.try_clone()?;
    }
    if !file.metadata()?.is_file() {
        return Err(FileFault::NoFile);
    }
    match file.try_lock() {
        Ok(()) => Ok(file),
        Err(TryLockError::WouldBlock) => Err(FileFault::Busy),
        Err(TryLockError::Error(error)) => Err(FileFault::System(error)),
    }
}

/// Syncs the file, and the folder that names it.
fn settle(rt: &HostRuntime, file: &File, path: &str) -> Result<(), FileFault> {
    file.sync_all()?;
    let mut folder = fs::canonicalize(rt, path)?;
    folder.pop();
    File::open(rt, folder.as_path())?.sync_all()?;
    Ok(())
}

/// All bytes of the file.
fn read_whole(rt: &HostRuntime, mut file: &File) -> Result<Vec<u8>, FileFault> {
    let mut bytes = Vec::new(rt.alloc());
    file.read_to_end(&mut bytes)?;
    Ok(bytes)
}
