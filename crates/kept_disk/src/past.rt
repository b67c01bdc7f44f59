ghost use Rattle.std.specs.Prelude.{◌≡◌, ◌≤◌, ◌<◌, ◌+◌, ◌-◌, ◌↔◌, ◌++◌, [], ◌∷◌, length, max, vec_len, vec_capacity, IfOk, IsTrue, OnOk, OnErr};
ghost use Rattle.kept_disk.specs.Memory.{over_of, synced, undone};
ghost use Rattle.kept_disk.specs.declared.past.DiskChange.TheVariants.{Synced};

use std::alloc::{AllocError, Global};
use std::marker::Model;

/// A call that changed a file in memory, or synced it.
#[derive(Clone, Copy, Debug)]
pub enum DiskChange {
    /// So many bytes were written from byte `at` on, over so many that stood there.
    Wrote {
        at: usize,
        count: usize,
        over: usize,
    },
    /// So many bytes were taken from the end.
    Cut {
        taken: usize,
    },
    /// What was written was kept.
    Synced,
}

/// The calls that changed a file in memory, each with the bytes that undo it, with room that is reserved beforehand.
#[derive(Debug, Drop)]
pub struct Past {
    changes: Vec<DiskChange>,
    over: Vec<u8>,
    free_changes: usize,
    room: usize,
}

// Contracts see the events, the newest first, and how much room there is for more.
impl Model for Past {
    ghost use Rattle.std.specs.Prelude.{◌≡◌, ◌≤◌, ◌+◌, reverse, vec_len, vec_capacity, length};
    ghost use Rattle.kept_disk.specs.Memory.{over_in, with_bytes};
    ghost use Rattle.kept_disk.specs.Past.{PastState};

    ghost Value = { PastState };

    ghost view = { λ p. record {
      events = reverse (with_bytes p.changes.items p.over.items);
      room = p.room;
      changes = p.free_changes;
    } };

    ghost invariant = { λ p. (over_in p.changes.items ≡ length p.over.items)
        × (vec_len p.changes + p.free_changes ≤ vec_capacity p.changes)
        × (vec_len p.over + p.room ≤ vec_capacity p.over) };
}

impl Past {
    /// Nothing was done, and there is no room.
    pub fn new(alloc: Global) -> Past
        ensures { result ≡ record { events = []; room = 0; changes = 0 } }
    {
        Past {
            changes: Vec::new(alloc),
            over: Vec::new(alloc),
            free_changes: 0,
            room: 0,
        }
    }

    /// Makes room for so many bytes and changes more, where there is less. The only error is want of memory, and then all is as
    /// it was.
    pub fn reserve(&mut self, bytes: usize, changes: usize) -> Result<(), AllocError>
        ensures ok { OnOk result (self.new ≡ record self.old {
          room = max self.old.room bytes;
          changes = max self.old.changes changes;
        }) }
        ensures err { OnErr result (self.new ≡ self.old) }
    {
        self.over.reserve(bytes)?;
        self.changes.reserve(changes)?;
        self.room = self.room.max(bytes);
        self.free_changes = self.free_changes.max(changes);
        Ok(())
    }

    /// How many bytes there is room for.
    pub fn room(&self) -> usize
        ensures { result ≡ self.now.room }
    {
        self.room
    }

    /// How many changes there is room for.
    pub fn free_changes(&self) -> usize
        ensures { result ≡ self.now.changes }
    {
        self.free_changes
    }

    /// Takes so much of the room away.
    pub fn spend(&mut self, bytes: usize)
        requires { bytes ≤ self.old.room }
        ensures { self.new ≡ record self.old { room = self.old.room - bytes } }
    {
        self.room -= bytes;
    }

    /// One event more, with the bytes that undo it. It takes room for them.
    pub fn push(&mut self, change: DiskChange, bytes: &[u8])
        requires free { 0 < self.old.changes }
        requires room { length bytes.now ≤ self.old.room }
        requires over { over_of change ≡ length bytes.now }
        ensures { self.new ≡ record {
          events = (change, bytes.now) ∷ self.old.events;
          room = self.old.room - length bytes.now;
          changes = self.old.changes - 1;
        } }
    {
        append_both(&mut self.changes, &mut self.over, change, bytes);
        self.room -= bytes.len();
        self.free_changes -= 1;
    }

    /// The file as it was at the last sync, or at the beginning where there was none; `file` is as it is now. The only error is
    /// want of memory.
    pub fn synced(&self, alloc: Global, file: &[u8]) -> Result<Vec<u8>, AllocError>
        ensures { IfOk result (λ image. image.items ≡ synced file.now self.now.events) }
    {
        let mut image = file.to_vec(alloc)?;
        let mut changes = self.changes.as_slice();
        let mut over = self.over.as_slice();
        while let Some((change, earlier)) = changes.split_last() {
            if is_sync(change) {
                return Ok(image);
            }
            let from = over.len() - over_of(change);
            image = before(alloc, &image, change, &over[from..])?;
            changes = earlier;
            over = &over[..from];
        }
        Ok(image)
    }
}

/// One change more, and its bytes behind those of the others. There is room for both.
fn append_both(changes: &mut Vec<DiskChange>, over: &mut Vec<u8>, change: DiskChange, bytes: &[u8])
    requires free { vec_len changes.old < vec_capacity changes.old }
    requires room { vec_len over.old + length bytes.now ≤ vec_capacity over.old }
    ensures changes { changes.new.items ≡ changes.old.items ++ change ∷ [] }
    ensures over { over.new.items ≡ over.old.items ++ bytes.now }
    ensures changes_len { vec_len changes.new ≡ vec_len changes.old + 1 }
    ensures over_len { vec_len over.new ≡ vec_len over.old + length bytes.now }
    ensures changes_capacity { vec_capacity changes.old ≤ vec_capacity changes.new }
    ensures over_capacity { vec_capacity over.old ≤ vec_capacity over.new }
{
    if over.extend_from_slice(bytes).is_err() {
        unreachable!()
    }
    if changes.push(change).is_err() {
        unreachable!()
    }
}

/// How many bytes stood where this change wrote, or were taken away by it.
fn over_of(change: &DiskChange) -> usize
    ensures { result ≡ over_of change.now }
{
    match change {
        DiskChange::Wrote { over, .. } => *over,
        DiskChange::Cut { taken } => *taken,
        DiskChange::Synced => 0,
    }
}

/// Is it a sync?
fn is_sync(change: &DiskChange) -> bool
    ensures { IsTrue result ↔ (change.now ≡ Synced) }
{
    match change {
        DiskChange::Synced => true,
        _ => false,
    }
}

/// The file before this change, which wrote over these bytes or took them away; `file` is the one behind it.
fn before(
    alloc: Global,
    file: &[u8],
    change: &DiskChange,
    bytes: &[u8],
) -> Result<Vec<u8>, AllocError>
    ensures { IfOk result (λ old. old.items ≡ undone file.now (change.now, bytes.now)) }
{
    match change {
        DiskChange::Wrote { at, count, .. } => {
            let start = file.len().min(*at);
            let end = file.len().min(at.saturating_add(*count));
            spliced(alloc, &file[..start], bytes, &file[end..])
        }
        DiskChange::Cut { .. } => spliced(alloc, file, bytes, &[]),
        DiskChange::Synced => file.to_vec(alloc),
    }
}

/// These three one behind the other.
fn spliced(alloc: Global, front: &[u8], middle: &[u8], back: &[u8]) -> Result<Vec<u8>, AllocError>
    ensures { IfOk result (λ all. all.items ≡ front.now ++ (middle.now ++ back.now)) }
{
    let mut all = front.to_vec(alloc)?;
    all.extend_from_slice(middle)?;
    all.extend_from_slice(back)?;
    Ok(all)
}
