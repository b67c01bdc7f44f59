ghost use Rattle.std.specs.Prelude.{◌≡◌, ◌≤◌, ◌++◌, ◌-◌, true, false, length, take, drop, min, IfOk, IfSome, IsTrue, OnOk, OnErr};
ghost use Rattle.kept_disk.specs.Memory.{MayLeave, LeftSince, synced};
ghost use Rattle.kept_disk.specs.MemoryLaws.{counts-now, left-now, left-synced, only-now};
ghost use Rattle.file_disk.specs.File.{FileState, IsJustOpened, after_fault, fuel_after};

use crate::fault::FileFault;
use crate::opening::opened;
use ar_io::Failed;
use kept_disk::{Disk, MemDisk};
use std::fs::File;
use std::marker::Model;
use std::os::unix::fs::FileExt;

/// A file of the operating system, with a disk in memory that mirrors it.
///
/// A call fails where the system's fails, where there is no memory for the mirror, and after an earlier failure; `len` also where
/// the file has another length than the mirror, and `read` where a byte that the file gives is another one than the mirror's.
/// A disk that failed is dropped, and its file opened anew by `open`, once the system has dropped what it kept of it in memory.
///
/// Of a write or a cut that the file refuses the mirror makes the whole, so that a part of it is among what a crash may have
/// left. No clause says this: it is to be read in the code.
#[derive(Drop)]
pub struct FileDisk {
    file: File,
    mirror: MemDisk,
    faults: u64,
}

impl Model for FileDisk {
    ghost use Rattle.file_disk.specs.File.{FileState};

    ghost Value = { FileState };

    ghost view = { λ d. record {
      seen = d.mirror.seen;
      events = d.mirror.events;
      faults = d.faults;
    } };
}

impl FileDisk {
    /// Opens the file at this path, or makes an empty one, and syncs it with its folder. Until it is dropped, or its process
    /// ends, nobody else opens the file as a `FileDisk`: it is locked, which a test shows and no clause says.
    pub fn open(rt: &HostRuntime, path: &str) -> Result<FileDisk, FileFault>
        ensures { IfOk result IsJustOpened }
    {
        let (file, bytes) = opened(rt, path)?;
        Ok(FileDisk {
            file,
            mirror: MemDisk::new(rt.alloc(), bytes),
            faults: 0,
        })
    }

    /// Whether a call may go on: none failed before, and the mirror has room for so many bytes and changes.
    fn begin(&mut self, bytes: usize, changes: usize) -> Result<(), Failed>
        ensures ok { OnOk result ((self.new ≡ self.old) × (self.old.faults ≡ 0)) }
        ensures err { OnErr result (self.new ≡ after_fault self.old) }
        ensures never_falls { self.old.faults ≤ self.new.faults }
    {
        if self.faults == 0 && self.mirror.reserve(bytes, changes).is_ok() {
            Ok(())
        } else {
            Err(self.fail())
        }
    }

    /// Counts a call that failed.
    fn fail(&mut self) -> Failed
        ensures counted { self.new ≡ after_fault self.old }
        ensures never_falls { self.old.faults ≤ self.new.faults }
    {
        self.faults = self.faults.saturating_add(1);
        Failed
    }

    /// The answer of a call that went on, where both the file and the mirror did it.
    fn ended(&mut self, done: bool) -> Result<(), Failed>
        ensures ok { OnOk result ((done ≡ true) × (self.new ≡ self.old)) }
        ensures failed { OnErr result (done ≡ false) }
        ensures err { OnErr result (self.new ≡ after_fault self.old) }
        ensures never_falls { self.old.faults ≤ self.new.faults }
    {
        if done { Ok(()) } else { Err(self.fail()) }
    }
}

impl Disk for FileDisk {
    ghost seen = { λ d. d.seen };

    ghost held = { λ d. synced d.seen d.events };

    ghost may_leave = { λ d. MayLeave d.seen d.events };

    ghost moment = { λ d. length d.events };

    ghost left_since = { λ d. LeftSince d.seen d.events };

    ghost faults = { λ d. d.faults };

    ghost fuel = { λ d. fuel_after d.faults };

    ghost seen_now = { λ d. left-now d.seen d.events };

    ghost held_now = { λ d. left-synced d.seen d.events };

    ghost counts_now = { λ d t c le left. counts-now d.seen d.events t c left };

    ghost only_now = { λ d c left. only-now d.seen d.events c left };

    fn len(&mut self) -> Result<u64, Failed> {
        self.begin(0, 0)?;
        let mirrored = self.mirror.bytes().len() as u64;
        let same = has_length(&self.file, mirrored);
        self.ended(same)?;
        Ok(mirrored)
    }

    fn read(&mut self, at: u64, out: &mut [u8]) -> Result<usize, Failed> {
        self.begin(0, 0)?;
        match read_mirrored(&self.file, self.mirror.bytes(), at, out) {
            Some(count) => Ok(count),
            None => Err(self.fail()),
        }
    }

    fn write_at(&mut self, at: u64, bytes: &[u8]) -> Result<(), Failed> {
        self.begin(bytes.len(), 1)?;
        let written = self.file.write_all_at(bytes, at).is_ok();
        // Of a write that the file refused, a part may stand in it: the mirror has it among what a crash may leave.
        let mirrored = self.mirror.write_at(at, bytes).is_ok();
        self.ended(written && mirrored)
    }

    fn cut(&mut self, len: u64) -> Result<(), Failed> {
        let taken = self.mirror.bytes().len() - len as usize;
        self.begin(taken, 1)?;
        let shortened = self.file.set_len(len).is_ok();
        let mirrored = self.mirror.cut(len).is_ok();
        self.ended(shortened && mirrored)
    }

    fn sync(&mut self) -> Result<(), Failed> {
        self.begin(0, 1)?;
        let synced = self.file.sync_data().is_ok() && self.mirror.sync().is_ok();
        self.ended(synced)
    }
}

/// Has the file this length?
fn has_length(file: &File, len: u64) -> bool {
    match file.metadata() {
        Ok(found) => found.len() == len,
        Err(_) => false,
    }
}

/// Reads from byte `at` on into the front of `out` as many bytes as the mirror has there and fit, and answers how many they are,
/// or None where the file does not give them as the mirror has them.
fn read_mirrored(file: &File, mirror: &[u8], at: u64, out: &mut [u8]) -> Option<usize>
    ensures count { IfSome result (λ n. n ≡ min (length out.old) (length mirror.now - at)) }
    ensures bytes { IfSome result (λ n. out.new ≡ take n (drop at mirror.now) ++ drop n out.old) }
{
    if mirror.len() as u64 <= at {
        return Some(0);
    }
    let behind = &mirror[at as usize..];
    let count = out.len().min(behind.len());
    if gives(file, at, &behind[..count], &mut out[..count]) {
        Some(count)
    } else {
        None
    }
}

/// Does the file give these bytes from this place on? They stand in `out` then.
fn gives(file: &File, at: u64, wanted: &[u8], out: &mut [u8]) -> bool
    requires { length wanted.now ≡ length out.old }
    ensures same { IsTrue result → out.new ≡ wanted.now }
    ensures length { length out.new ≡ length out.old }
{
    file.read_exact_at(out, at).is_ok() && *out == *wanted
}
