//! A log runs on a disk that fails, and again on what a crash leaves of it.

ghost use Rattle.std.specs.Prelude.{◌≡◌, ◌≤◌, ◌+◌, ◌*◌, ◌++◌, ℕ, [], false, None, drop, length, take, IfOk, OnOk, OnErr};
ghost use Rattle.epoch_log.specs.Log.{record_of};
ghost use Rattle.kept_disk.specs.Memory.{fresh_disk, synced};
ghost use Rattle.kept_journal.specs.Journal.{Stands, recovered};
ghost use Rattle.kept_journal.specs.Replays.{ReachesBy};
ghost use Rattle.log_journal.specs.Inputs.{mark};
ghost use Rattle.log_journal.specs.Steps.{LogStanding, standing_of, takes};
ghost use Rattle.log_restart.specs.Inputs.{most_input_bytes, records_cost, texts_of, total_len};
ghost use Rattle.log_restart.specs.Restarted.{AreRestarted, IsOpened, RanAgain, RanFirst, new_log_of, recovered_of, told_of};

use crate::books::book_digest;
use crate::inputs::total_len;
use crate::opening::open_with_room;
use crate::running::ask_all;
use crate::{Beginning, Disks, RestartReport};
use epoch_log::Record;
use kept_disk::MemDisk;
use log_core::LogInput;
use log_journal::KeptLog;
use std::alloc::{AllocError, Global};
use std::mem;

/// How many bytes a record has beside its text: its length in four bytes, and a gate that is written twice.
const RECORD_BYTES: usize = 6;

/// How many calls of the disk a record takes, each of which changes it.
const RECORD_CALLS: usize = 4;

/// Opens a log on a disk, with room for the records of so many inputs, whose texts have so many bytes together. The only error
/// is want of memory.
fn open_for(
    alloc: Global,
    number: u16,
    beginning: Beginning,
    disk: MemDisk,
    inputs: usize,
    total: usize,
) -> Result<KeptLog<MemDisk>, AllocError>
    requires few { inputs ≤ total }
    requires small { total ≤ most_input_bytes }
    requires stands { Stands mark (recovered disk.seen) disk.seen }
    requires replays { (last : LogStanding)
        × ReachesBy takes (new_log_of number beginning) (recovered disk.seen) last }
    requires unlimited { disk.fuel.fuse ≡ None }
    ensures { IfOk result (λ kept.
        IsOpened (new_log_of number beginning) (recovered disk.seen) (total + 6 * inputs)
        (4 * inputs) disk kept) }
{
    let bytes = total + RECORD_BYTES * inputs;
    open_with_room(alloc, number, beginning, disk, bytes, RECORD_CALLS * inputs)
}

/// Runs a log that has done nothing yet through its inputs, on an empty disk of which so many calls pass behind the opening,
/// until it fails or the inputs end, and gives the disk. The only error is want of memory.
fn run_first(
    alloc: Global,
    number: u16,
    beginning: Beginning,
    disk: MemDisk,
    inputs: &[LogInput],
    total: usize,
    calls: u64,
) -> Result<MemDisk, AllocError>
    requires empty { disk ≡ fresh_disk [] }
    requires total { total ≡ total_len (texts_of inputs.now) }
    requires small { total ≤ most_input_bytes }
    requires replays { (last : LogStanding)
        × ReachesBy takes (new_log_of number beginning) (texts_of inputs.now) last }
    ensures { IfOk result (λ before. RanFirst (texts_of inputs.now) calls before) }
{
    let mut kept = open_for(alloc, number, beginning, disk, inputs.len(), total)?;
    kept.fuse(calls);
    ask_all(alloc, &mut kept, inputs)?;
    Ok(kept.into_disk())
}

/// Asks a log again what stands behind the first so many of these things, on a disk that has room for it. The only error is want
/// of memory.
fn ask_rest(
    alloc: Global,
    kept: &mut KeptLog<MemDisk>,
    inputs: &[LogInput],
    from: usize,
) -> Result<(), AllocError>
    requires within { from ≤ length inputs.now }
    requires going { kept.old.journal.stopped ≡ false }
    requires replays { (last : LogStanding)
        × ReachesBy takes (standing_of kept.old.log) (texts_of (drop from inputs.now)) last }
    requires unlimited { kept.old.journal.disk.fuel.fuse ≡ None }
    requires room { records_cost (texts_of (drop from inputs.now))
        ≤ kept.old.journal.disk.fuel.room }
    requires changes { 4 * length (texts_of (drop from inputs.now))
        ≤ kept.old.journal.disk.fuel.changes }
    ensures became { OnOk result
        (ReachesBy takes (standing_of kept.old.log) (texts_of (drop from inputs.now))
        (standing_of kept.new.log)) }
    ensures stands { OnOk result
        (Stands mark (kept.old.journal.texts
        ++ texts_of (drop from inputs.now)) kept.new.journal.disk.seen) }
    ensures lasts { OnOk result
        (Stands mark (kept.old.journal.texts ++ texts_of (drop from inputs.now))
        (synced kept.new.journal.disk.seen kept.new.journal.disk.events)) }
{
    if !ask_all(alloc, kept, &inputs[from..])? {
        unreachable!()
    }
    Ok(())
}

/// What is told of a log with this record in the end, of which so many of so many inputs were recovered. The only error is want
/// of memory.
fn tell(
    alloc: Global,
    past: &Record,
    recovered: u64,
    inputs: usize,
) -> Result<RestartReport, AllocError>
    ensures { IfOk result (λ told. told ≡ told_of recovered inputs (record_of past.now).signed) }
{
    Ok(RestartReport {
        recovered,
        inputs: inputs as u64,
        signed: past.signed.list().len() as u64,
        digest: book_digest(alloc, &past.signed)?,
    })
}

/// Opens a log on what a crash leaves of this disk which takes all away that was not synced, runs it through the inputs that
/// were not recovered, and gives what is told of it, with its disk. The only error is want of memory.
fn run_again(
    alloc: Global,
    number: u16,
    beginning: Beginning,
    before: &MemDisk,
    inputs: &[LogInput],
    total: usize,
) -> Result<(RestartReport, MemDisk), AllocError>
    requires total { total ≡ total_len (texts_of inputs.now) }
    requires small { total ≤ most_input_bytes }
    requires replays { (last : LogStanding)
        × ReachesBy takes (new_log_of number beginning) (texts_of inputs.now) last }
    requires lost { (many : ℕ) × (many ≤ length inputs.now)
        × Stands mark (take many (texts_of inputs.now)) (synced before.now.seen before.now.events) }
    ensures { (many : ℕ) (last : LogStanding) → many ≤ length inputs.now
        → Stands mark (take many (texts_of inputs.now)) (synced before.now.seen before.now.events)
        → ReachesBy takes (new_log_of number beginning) (texts_of inputs.now) last
        → IfOk result (λ ended.
        RanAgain (texts_of inputs.now) many last.core.log.past.signed ended.0 ended.1) }
{
    let lost = before.lost(alloc)?;
    let mut kept = open_for(alloc, number, beginning, lost, inputs.len(), total)?;
    let recovered = kept.inputs();
    ask_rest(alloc, &mut kept, inputs, recovered as usize)?;
    let told = tell(alloc, kept.record(), recovered, inputs.len())?;
    Ok((told, kept.into_disk()))
}

/// Runs a log that has done nothing yet through its inputs, with a journal on the first disk, of which so many calls pass behind
/// the opening of the journal; then opens it on what a crash leaves of that disk which takes all away that was not synced, runs
/// it through the inputs that were not recovered, and tells of it.
///
/// The first disk is then as its run left it, and the second one is that of the second run. The log's number, directory and
/// first key are handed in twice, since each run owns its log. The only error is want of memory, and then both disks are as they
/// were.
pub fn restart(
    alloc: Global,
    number: u16,
    first: Beginning,
    again: Beginning,
    inputs: &[LogInput],
    calls: u64,
    disks: &mut Disks,
) -> Result<RestartReport, AllocError>
    requires empty { (disks.old.before ≡ fresh_disk []) × (disks.old.after ≡ fresh_disk []) }
    requires same { (again.directory ≡ first.directory) × (again.key ≡ first.key) }
    requires small { total_len (texts_of inputs.now) ≤ most_input_bytes }
    requires replays { (last : LogStanding)
        × ReachesBy takes (new_log_of number first) (texts_of inputs.now) last }
    // What is told of the log that the inputs make of the new one.
    ensures told { (last : LogStanding)
        → ReachesBy takes (new_log_of number first) (texts_of inputs.now) last
        → IfOk result (λ told.
        told ≡ told_of (recovered_of (length inputs.now) calls)
        (length inputs.now) last.core.log.past.signed) }
    // What the disks hold.
    ensures disks { OnOk result
        (AreRestarted (texts_of inputs.now) calls disks.new.before disks.new.after) }
    ensures memory { OnErr result ((disks.new.before ≡ disks.old.before)
        × (disks.new.after ≡ disks.old.after)) }
{
    let Some(total) = total_len(inputs) else {
        unreachable!()
    };
    let empty = mem::replace(&mut disks.before, MemDisk::new(alloc, Vec::new(alloc)));
    let before = run_first(alloc, number, first, empty, inputs, total, calls)?;
    let (told, after) = run_again(alloc, number, again, &before, inputs, total)?;
    disks.before = before;
    disks.after = after;
    Ok(told)
}
