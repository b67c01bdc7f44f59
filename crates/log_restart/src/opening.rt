//! A log is opened on a disk in memory that has room for what it is asked.

ghost use Rattle.std.specs.Prelude.{◌≡◌, ◌≢◌, ◌≤◌, ◌+◌, ℕ, None, length, IfOk, IfSome, OnOk};
ghost use Rattle.kept_journal.specs.Journal.{Stands, recovered};
ghost use Rattle.kept_journal.specs.Replays.{ReachesBy};
ghost use Rattle.log_journal.specs.Inputs.{mark};
ghost use Rattle.log_journal.specs.Steps.{LogStanding, takes};
ghost use Rattle.log_restart.specs.Restarted.{IsOpened, new_log_of};
ghost use Rattle.kept_journal.specs.declared.fault.OpenFault.TheVariants as faults;

use crate::Beginning;
use kept_disk::MemDisk;
use log_journal::{KeptLog, OpenFault};
use std::alloc::{AllocError, Global};

/// The most bytes that opening takes beside those that the file has.
const OPENING_BYTES: usize = 9;

/// The most changes of the disk that opening makes.
const OPENING_CHANGES: usize = 3;

/// Why a file was not opened that stands for inputs of a log: memory was wanting.
fn want(fault: OpenFault) -> AllocError
    requires disk { fault ≢ faults.DiskFault }
    requires journal { fault ≢ faults.NotJournal }
    requires records { (place : ℕ) → fault ≢ faults.BadRecord place }
{
    match fault {
        OpenFault::Memory => AllocError,
        _ => unreachable!(),
    }
}

/// So many bytes and changes, with those that opening a file of this length takes; none where they are too many for a number.
fn room_for(len: usize, bytes: usize, changes: usize) -> Option<(usize, usize)>
    ensures { IfSome result (λ room. (room.0 ≡ len + 9 + bytes) × (room.1 ≡ changes + 3)) }
{
    let bytes = len.checked_add(OPENING_BYTES)?.checked_add(bytes)?;
    let changes = changes.checked_add(OPENING_CHANGES)?;
    Some((bytes, changes))
}

/// Makes room on a disk for so many bytes and changes, beside those that opening it takes. The only error is want of memory.
fn make_room(disk: &mut MemDisk, bytes: usize, changes: usize) -> Result<(), AllocError>
    ensures seen { disk.new.seen ≡ disk.old.seen }
    ensures fuse { disk.new.fuel.fuse ≡ disk.old.fuel.fuse }
    ensures faults { disk.new.faults ≡ disk.old.faults }
    ensures room { OnOk result (length disk.old.seen + 9 + bytes ≤ disk.new.fuel.room) }
    ensures changes { OnOk result (changes + 3 ≤ disk.new.fuel.changes) }
{
    let Some((room, calls)) = room_for(disk.bytes().len(), bytes, changes) else {
        return Err(AllocError);
    };
    disk.reserve(room, calls)?;
    Ok(())
}

/// Opens a log on a disk whose file stands for inputs that it can take again, with room for so many bytes and changes more. The
/// only error is want of memory.
pub(crate) fn open_with_room(
    alloc: Global,
    number: u16,
    beginning: Beginning,
    disk: MemDisk,
    bytes: usize,
    changes: usize,
) -> Result<KeptLog<MemDisk>, AllocError>
    requires stands { Stands mark (recovered disk.seen) disk.seen }
    requires replays { (last : LogStanding)
        × ReachesBy takes (new_log_of number beginning) (recovered disk.seen) last }
    requires unlimited { disk.fuel.fuse ≡ None }
    ensures { IfOk result (λ kept.
        IsOpened (new_log_of number beginning) (recovered disk.seen) bytes changes disk kept) }
{
    let mut disk = disk;
    make_room(&mut disk, bytes, changes)?;
    match KeptLog::open(alloc, number, beginning.directory, beginning.key, disk) {
        Ok(kept) => Ok(kept),
        Err(refused) => Err(want(refused.1)),
    }
}
