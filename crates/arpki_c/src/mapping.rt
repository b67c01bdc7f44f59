ghost use Rattle.std.specs.Prelude.{◌≡◌};
ghost use Rattle.ar_base.specs.Gives.{GivesUnless};
ghost use Rattle.arpki_c.specs.Mapped.{AreUnlessMemory, digest_told, map_answer, map_told, shown_fault_answer, told_by, with_own_entries, with_own_entry};
ghost use Rattle.arpki_c.specs.Told.{IsUnlessMemory};
ghost use Rattle.table_map.specs.Digests.{directory_digest};
ghost use Rattle.table_map.specs.Shown.{shown_in};
ghost use Rattle.arpki_c.specs.declared.keys.KeysFault.TheVariants.{Memory};

use crate::answers::{CallAnswer, NO_MEMORY};
use crate::keys::{Entry, KeysFault, take};
use crate::questions::CallQuestion;
use party_keys::Directory;
use std::alloc::Global;
use table_map::{MapJudgement, ShownDirectory, ShownFault, TableMap, directory_digest, judge_in};

/// No directory is shown.
const NO_DIRECTORY: u32 = 15;
/// The directory is shown as that of another table than the name's.
const OTHER_TABLE: u32 = 16;
/// The path does not lead from the directory to the root of the map.
const OTHER_ROOT: u32 = 17;
/// A map has at most 24 bits.
const NO_MAP: u32 = 18;

/// A next key of a log or an authority, with the digest of the directory that learnt it. The caller keeps it.
#[repr(C)]
#[derive(Clone, Copy, PartialEq, Eq)]
pub struct MapEntry {
    /// The digest of the directory.
    pub directory: [u8; 32],
    /// What it learnt.
    pub entry: Entry,
}

/// What a client of a map trusts: the root, how many first bits of a name's key are its table; and next keys, of whatever
/// tables, in the order in which they were learnt.
#[repr(C)]
#[derive(Drop)]
pub struct CallMap<'a> {
    pub learnt: &'a [MapEntry],
    pub root: [u8; 32],
    pub bits: u8,
}

/// Takes an entry that was learnt under the directory with this digest, and passes over another.
fn take_own(
    alloc: Global,
    directory: Directory,
    entry: &MapEntry,
    digest: &[u8; 32],
) -> Result<Directory, KeysFault>
    ensures { GivesUnless Memory (λ directory.
        directory) result (with_own_entry digest.now directory entry.now) }
{
    if entry.directory != *digest {
        return Ok(directory);
    }
    take(alloc, directory, &entry.entry)
}

/// Takes the directory's own entries, in their order.
#[tactic(auto, unfolding(crate::specs::Mapped::with_own_entries))]
fn take_each_own(
    alloc: Global,
    directory: Directory,
    entries: &[MapEntry],
    digest: &[u8; 32],
) -> Result<Directory, KeysFault>
    ensures { GivesUnless Memory (λ directory.
        directory) result (with_own_entries digest.now directory entries.now) }
{
    let mut directory = directory;
    for entry in entries {
        directory = take_own(alloc, directory, entry, digest)?;
    }
    Ok(directory)
}

/// What is told of a judgement under a map.
fn of_map_judgement(judgement: &MapJudgement) -> CallAnswer
    ensures { result ≡ map_answer judgement.now }
{
    match judgement {
        MapJudgement::Judged(judgement) => CallAnswer::of_judgement(judgement),
        MapJudgement::OtherTable => CallAnswer::said(OTHER_TABLE, 0),
        MapJudgement::OtherRoot => CallAnswer::said(OTHER_ROOT, 0),
    }
}

/// What is told where no directory is shown.
fn of_shown_fault(fault: ShownFault) -> CallAnswer
    ensures { result ≡ shown_fault_answer fault }
{
    match fault {
        ShownFault::NoDirectory => CallAnswer::said(NO_DIRECTORY, 0),
        ShownFault::Memory => CallAnswer::said(NO_MEMORY, 0),
    }
}

/// What is told by a directory that is shown.
fn told_by_directory(
    alloc: Global,
    map: &TableMap,
    shown: ShownDirectory,
    learnt: &[MapEntry],
    question: &CallQuestion,
) -> CallAnswer
    ensures { IsUnlessMemory result
        (told_by map.now shown.entry.table shown.entry.path.now
        (with_own_entries (directory_digest shown.entry.directory) shown.entry.directory learnt.now)
        question.now) }
{
    let digest = directory_digest(&shown.directory);
    match take_each_own(alloc, shown.directory, learnt, &digest) {
        Ok(directory) => of_map_judgement(&judge_in(
            map,
            shown.table,
            &directory,
            shown.path,
            question.name,
            question.confirmation,
            question.epoch,
            question.age,
        )),
        Err(fault) => CallAnswer::of_fault(fault),
    }
}

/// What is told of a confirmation under a map.
#[tactic(auto, unfolding(crate::specs::Mapped::map_told))]
fn judged_in(alloc: Global, map: &CallMap, question: &CallQuestion, shown: &[u8]) -> CallAnswer
    ensures { IsUnlessMemory result (map_told map.now question.now shown.now) }
{
    let Some(table_map) = TableMap::new(map.bits, map.root) else {
        return CallAnswer::said(NO_MAP, 0);
    };
    match ShownDirectory::read(alloc, shown) {
        Ok(shown) => told_by_directory(alloc, &table_map, shown, map.learnt, question),
        Err(fault) => of_shown_fault(fault),
    }
}

/// Judges the bytes of a confirmation of a name as `arpki_judge` does, by the directory that is shown beside it, where that
/// is the directory of the name's table in the map: writes the answer, all of it, and returns its outcome.
#[unsafe(no_mangle)]
pub extern "C" fn arpki_judge_in(
    alloc: Global,
    map: &CallMap,
    question: &CallQuestion,
    shown: &[u8],
    answer: &mut CallAnswer,
) -> u32
    ensures told { IsUnlessMemory answer.new (map_told map.now question.now shown.now) }
    ensures outcome { result ≡ answer.new.outcome }
{
    *answer = judged_in(alloc, map, question, shown);
    answer.outcome
}

/// Writes the digest of the directory that is shown, under which its entries are to be kept, or zeros; and returns 0, or that
/// none is shown, or that memory ran out.
#[unsafe(no_mangle)]
pub extern "C" fn arpki_directory(alloc: Global, shown: &[u8], digest: &mut [u8; 32]) -> u32
    ensures { AreUnlessMemory (digest.new, result) (digest_told (shown_in shown.now)) }
{
    match ShownDirectory::read(alloc, shown) {
        Ok(shown) => {
            *digest = directory_digest(&shown.directory);
            0
        }
        Err(fault) => {
            *digest = [0; 32];
            of_shown_fault(fault).outcome
        }
    }
}
