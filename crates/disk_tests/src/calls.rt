//! Calls of a disk, and a run of them that each disk makes alike.
ghost use Rattle.std.specs.Prelude.{◌≡◌, length};

use kept_disk::Disk;
use std::test::Fail;

/// A call of a disk.
#[derive(Clone, Copy, Debug)]
pub(crate) enum Call {
    Len,
    Read,
    Write(u64, &'static [u8]),
    Cut(u64),
    Sync,
}

/// Writes these bytes at this place, which is not past the end, of a file of this length. Whether the disk did it.
fn write<K: Disk>(disk: &mut K, len: u64, at: u64, bytes: &[u8]) -> Result<bool, Fail>
    requires { len ≡ length (K.seen disk.old) }
{
    if len < at {
        return Err("a write past the end".into());
    }
    Ok(disk.write_at(at, bytes).is_ok())
}

/// Cuts a file of this length to another, which is not longer. Whether the disk did it.
fn cut<K: Disk>(disk: &mut K, len: u64, new_len: u64) -> Result<bool, Fail>
    requires { len ≡ length (K.seen disk.old) }
{
    if len < new_len {
        return Err("a cut past the end".into());
    }
    Ok(disk.cut(new_len).is_ok())
}

/// Makes a call of a disk whose file has this length. Whether the disk did it.
pub(crate) fn make<K: Disk>(disk: &mut K, len: u64, what: Call) -> Result<bool, Fail>
    requires { len ≡ length (K.seen disk.old) }
{
    match what {
        Call::Len => Ok(disk.len().is_ok()),
        Call::Read => Ok(disk.read(0, &mut [0; 2]).is_ok()),
        Call::Write(at, bytes) => write(disk, len, at, bytes),
        Call::Cut(new_len) => cut(disk, len, new_len),
        Call::Sync => Ok(disk.sync().is_ok()),
    }
}

/// The bytes with which the run begins.
pub(crate) const FIRST: &[u8] = b"abcdef";

/// The calls of the run, and behind each of them the bytes that a read gives and those that were synced.
pub(crate) const RUN: [(Call, &[u8], &[u8]); 13] = [
    (Call::Write(2, b"XY"), b"abXYef", b"abcdef"),
    (Call::Len, b"abXYef", b"abcdef"),
    (Call::Write(4, b"1234"), b"abXY1234", b"abcdef"),
    (Call::Write(8, b"!"), b"abXY1234!", b"abcdef"),
    (Call::Sync, b"abXY1234!", b"abXY1234!"),
    (Call::Cut(3), b"abX", b"abXY1234!"),
    (Call::Read, b"abX", b"abXY1234!"),
    (Call::Write(3, b"zz"), b"abXzz", b"abXY1234!"),
    (Call::Cut(0), b"", b"abXY1234!"),
    (Call::Write(0, b"new"), b"new", b"abXY1234!"),
    (Call::Write(1, b""), b"new", b"abXY1234!"),
    (Call::Sync, b"new", b"new"),
    (Call::Sync, b"new", b"new"),
];

/// Does a call of each kind fail, at a place that every file has?
pub(crate) fn each_fails<K: Disk>(disk: &mut K) -> bool {
    disk.len().is_err()
        && disk.read(0, &mut [0; 2]).is_err()
        && disk.write_at(0, b"q").is_err()
        && disk.cut(0).is_err()
        && disk.sync().is_err()
}
