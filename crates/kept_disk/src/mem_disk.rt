ghost use Rattle.std.specs.Prelude.{◌≡◌, ◌<◌, ◌≤◌, ◌^◌, ◌↔◌, ◌+◌, ◌-◌, ◌++◌, Some, None, length, take, drop, max, min, vec_len, vec_capacity, if◌then◌else◌, IfOk, IsTrue, OnOk, OnErr};
ghost use Rattle.ar_base.specs.Faults.{one_more};
ghost use Rattle.kept_disk.specs.Fuel.{Suffices, spent};
ghost use Rattle.kept_disk.specs.Memory.{Becomes, DiskState, MayLeave, LeftSince, after_cut, after_failure, after_look, after_sync, after_write, fresh_disk, synced};
ghost use Rattle.kept_disk.specs.MemoryLaws.{counts-now, left-now, left-synced, only-now};

use crate::disk::Disk;
use crate::past::{DiskChange, Past};
use ar_io::Failed;
use std::alloc::{AllocError, Global};
use std::marker::Model;

/// A disk in memory, which fails on demand. It can show what a crash leaves that takes every change since the last sync away
/// (`lost`), and what a crash leaves that takes nothing away (`kept`).
///
/// A write, a cut and a sync take room that is reserved beforehand: a write for its bytes, a cut for those that it takes away,
/// and each of the three for one change. Without room they fail. A call that fails leaves all as it was, but for the count of
/// faults.
#[derive(Debug, Drop)]
pub struct MemDisk {
    bytes: Vec<u8>,
    past: Past,
    fuse: Option<u64>,
    faults: u64,
}

impl Model for MemDisk {
    ghost use Rattle.std.specs.Prelude.{◌≤◌, ◌+◌, vec_len, vec_capacity};
    ghost use Rattle.kept_disk.specs.Memory.{DiskState};

    ghost Value = { DiskState };

    ghost view = { λ d. record {
      seen = d.bytes.items;
      events = d.past.events;
      fuel = record { fuse = d.fuse; room = d.past.room; changes = d.past.changes };
      faults = d.faults;
    } };

    ghost invariant = { λ d. vec_len d.bytes + d.past.room ≤ vec_capacity d.bytes };
}

impl MemDisk {
    /// A disk that has these bytes, with nothing unsynced, no fault, no fuse and no room. It takes no memory.
    pub fn new(alloc: Global, bytes: Vec<u8>) -> MemDisk
        ensures { result ≡ fresh_disk bytes.items }
    {
        MemDisk {
            bytes,
            past: Past::new(alloc),
            fuse: None,
            faults: 0,
        }
    }

    /// Makes room for `n` bytes and for `calls` changes (writes, cuts and syncs), where there is less. The only error is want of
    /// memory, and then the disk is as it was.
    pub fn reserve(&mut self, n: usize, calls: usize) -> Result<(), AllocError>
        ensures ok { OnOk result (self.new ≡ record self.old {
          fuel = record self.old.fuel {
            room = max self.old.fuel.room n;
            changes = max self.old.fuel.changes calls;
          };
        }) }
        ensures err { OnErr result (self.new ≡ self.old) }
    {
        self.bytes.reserve(n.max(self.past.room()))?;
        self.past.reserve(n, calls)
    }

    /// So many calls more pass, each later one fails.
    pub fn fuse(&mut self, k: u64)
        ensures { self.new ≡ record self.old { fuel = record self.old.fuel { fuse = Some k } } }
    {
        self.fuse = Some(k);
    }

    /// The disk that a crash leaves which takes all away that was not synced. The only error is want of memory.
    pub fn lost(&self, alloc: Global) -> Result<MemDisk, AllocError>
        ensures { IfOk result (λ disk. disk ≡ fresh_disk (synced self.now.seen self.now.events)) }
    {
        Ok(MemDisk::new(alloc, self.past.synced(alloc, &self.bytes)?))
    }

    /// The disk that a crash leaves which takes nothing away. The only error is want of memory.
    pub fn kept(&self, alloc: Global) -> Result<MemDisk, AllocError>
        ensures { IfOk result (λ disk. disk ≡ fresh_disk self.now.seen) }
    {
        Ok(MemDisk::new(alloc, self.bytes.to_vec(alloc)?))
    }

    /// The bytes that a read gives.
    pub fn bytes(&self) -> &[u8]
        ensures { result.now ≡ self.now.seen }
    {
        &self.bytes
    }

    /// How many calls failed, in a count that stays at 2^64 - 1.
    pub fn faults(&self) -> u64
        ensures { result ≡ self.now.faults }
    {
        self.faults
    }

    /// Counts a call that failed.
    pub(crate) fn fail(&mut self) -> Failed
        ensures counted { self.new ≡ after_failure self.old }
        ensures never_falls { self.old.faults ≤ self.new.faults }
    {
        self.faults = self.faults.saturating_add(1);
        Failed
    }

    /// Does a call pass that takes room for so many bytes and changes? Of the fuse, one that passes takes one call.
    fn begin(&mut self, bytes: usize, changes: usize) -> bool
        ensures passes { IsTrue result ↔ Suffices self.old.fuel bytes changes }
        ensures burns { self.new
            ≡ (if result then record self.old { fuel = spent self.old.fuel 0 0 } else self.old) }
    {
        if self.past.room() < bytes || self.past.free_changes() < changes {
            return false;
        }
        match self.fuse {
            None => true,
            Some(0) => false,
            Some(k) => {
                self.fuse = Some(k - 1);
                true
            }
        }
    }

    /// A call that changes nothing.
    fn look(&mut self) -> Result<(), Failed>
        ensures became { Becomes result self.old (after_look self.old) self.new 0 0 }
        ensures never_falls { self.old.faults ≤ self.new.faults }
    {
        if self.begin(0, 0) {
            Ok(())
        } else {
            Err(self.fail())
        }
    }

    /// Writes these bytes at this place.
    fn put(&mut self, at: usize, bytes: &[u8]) -> Result<(), Failed>
        requires { at ≤ length self.old.seen }
        ensures became { Becomes result self.old (after_write self.old at bytes.now) self.new
            (length bytes.now) 1 }
        ensures fits { OnOk result (at + length bytes.now < 2 ^ 64) }
        ensures never_falls { self.old.faults ≤ self.new.faults }
    {
        if !self.begin(bytes.len(), 1) {
            return Err(self.fail());
        }
        let over = bytes.len().min(self.bytes.len() - at);
        let change = DiskChange::Wrote {
            at,
            count: bytes.len(),
            over,
        };
        self.past.push(change, &self.bytes[at..at + over]);
        write_over(&mut self.bytes, at, bytes);
        self.past.spend(bytes.len() - over);
        Ok(())
    }

    /// Cuts the file to this length.
    fn shorten(&mut self, len: usize) -> Result<(), Failed>
        requires { len ≤ length self.old.seen }
        ensures became { Becomes result self.old (after_cut self.old len) self.new
            (length self.old.seen - len) 1 }
        ensures never_falls { self.old.faults ≤ self.new.faults }
    {
        let taken = self.bytes.len() - len;
        if !self.begin(taken, 1) {
            return Err(self.fail());
        }
        self.past
            .push(DiskChange::Cut { taken }, &self.bytes[len..]);
        self.bytes.truncate(len);
        Ok(())
    }

    /// Keeps what was written.
    fn keep(&mut self) -> Result<(), Failed>
        ensures became { Becomes result self.old (after_sync self.old) self.new 0 1 }
        ensures never_falls { self.old.faults ≤ self.new.faults }
    {
        if !self.begin(0, 1) {
            return Err(self.fail());
        }
        self.past.push(DiskChange::Synced, &[]);
        Ok(())
    }
}

impl Disk for MemDisk {
    ghost seen = { λ d. d.seen };

    ghost held = { λ d. synced d.seen d.events };

    ghost may_leave = { λ d. MayLeave d.seen d.events };

    ghost moment = { λ d. length d.events };

    ghost left_since = { λ d. LeftSince d.seen d.events };

    ghost faults = { λ d. d.faults };

    ghost fuel = { λ d. Some d.fuel };

    ghost seen_now = { λ d. left-now d.seen d.events };

    ghost held_now = { λ d. left-synced d.seen d.events };

    ghost counts_now = { λ d t c le left. counts-now d.seen d.events t c left };

    ghost only_now = { λ d c left. only-now d.seen d.events c left };

    fn len(&mut self) -> Result<u64, Failed> {
        self.look()?;
        Ok(self.bytes.len() as u64)
    }

    fn read(&mut self, at: u64, out: &mut [u8]) -> Result<usize, Failed> {
        self.look()?;
        Ok(copy_from(&self.bytes, at, out))
    }

    fn write_at(&mut self, at: u64, bytes: &[u8]) -> Result<(), Failed> {
        self.put(at as usize, bytes)
    }

    fn cut(&mut self, len: u64) -> Result<(), Failed> {
        self.shorten(len as usize)
    }

    fn sync(&mut self) -> Result<(), Failed> {
        self.keep()
    }
}

/// Copies what stands from this place on into the front of `out`, as much as there is and fits, and answers how much it was.
fn copy_from(file: &[u8], at: u64, out: &mut [u8]) -> usize
    ensures count { result ≡ min (length out.old) (length file.now - at) }
    ensures bytes { out.new ≡ take result (drop at file.now) ++ drop result out.old }
{
    if file.len() as u64 <= at {
        return 0;
    }
    let behind = &file[at as usize..];
    let count = out.len().min(behind.len());
    out[..count].copy_from_slice(&behind[..count]);
    count
}

/// Writes these bytes from this place on, over what stands there and past the end. There is room for them.
fn write_over(file: &mut Vec<u8>, at: usize, bytes: &[u8])
    requires inside { at ≤ length file.old.items }
    requires room { vec_len file.old + (length bytes.now - (vec_len file.old - at))
        ≤ vec_capacity file.old }
    ensures written { file.new.items
        ≡ take at file.old.items ++ (bytes.now ++ drop (at + length bytes.now) file.old.items) }
    ensures room { vec_capacity file.old ≤ vec_capacity file.new }
{
    let over = bytes.len().min(file.len() - at);
    file[at..at + over].copy_from_slice(&bytes[..over]);
    if file.extend_from_slice(&bytes[over..]).is_err() {
        unreachable!()
    }
}
