//! Files for one test.
use std::test::Fail;
use std::{env, fs, process};

/// The path of a file of this name, of this process alone, in the system's place for files that are not kept.
pub(crate) fn path_of(rt: &HostRuntime, name: &str) -> Result<String, Fail> {
    let alloc = rt.alloc();
    let id = process::id(rt.process());
    let name = format!(in alloc; "{name}-{id}")?;
    Ok(env::temp_dir(rt)?.join(alloc, name.as_str())?.into_string())
}

/// The same, with these bytes in the file.
pub(crate) fn file_of(rt: &HostRuntime, name: &str, bytes: &[u8]) -> Result<String, Fail> {
    let path = path_of(rt, name)?;
    fs::write(rt, path.as_str(), bytes)?;
    Ok(path)
}

/// Has a file these bytes?
pub(crate) fn has_bytes(rt: &HostRuntime, path: &str, bytes: &[u8]) -> Result<bool, Fail> {
    let found = fs::read(rt, path)?;
    Ok(found.as_slice() == bytes)
}
