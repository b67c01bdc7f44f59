ghost use Rattle.std.specs.Prelude.{◌≡◌};
ghost use Rattle.client_rule.specs.Notes.{note_of};
ghost use Rattle.ar_message.specs.Messages.{message_in};
ghost use Rattle.arpki_c.specs.Given.{directory_given};
ghost use Rattle.arpki_c.specs.Learning.{IsUnlessNoMemory, entry_of, fault_lesson, learnt_lesson, lesson_on, lesson_told, said_lesson};

use crate::keys::{Entry, Keys, KeysFault, directory_of};
use client_rule::RollNote;
use party_keys::{Directory, LearnFault, Learned};
use std::alloc::{AllocError, Global};

/// The key is new, and the entry is to be kept behind the others.
const LEARNT: u32 = 0;
/// The key was known as the next already.
const KNOWN: u32 = 1;
/// The bytes are no RollNote.
const NO_NOTE: u32 = 2;
/// Memory ran out.
const NO_MEMORY: u32 = 3;
/// The keys make no directory; `check` says what is wrong with them, 1 to 6.
const BAD_KEYS: u32 = 4;
/// The party is no log and no authority of the directory.
const UNKNOWN_PARTY: u32 = 5;
/// The party's signature is not valid; `check` is the number of the test that fails, 1 to 7.
const BAD_SIGNATURE: u32 = 6;
/// Another key is known as the next.
const OTHER_KEY: u32 = 7;

/// What is learnt of a RollNote. The entry is zero but where the outcome is 0.
#[repr(C)]
#[derive(Clone, Copy, PartialEq, Eq)]
pub struct CallLesson {
    /// The key that was learnt.
    pub entry: Entry,
    /// 0 learnt, 1 known, 2 no note, 3 no memory, 4 bad keys, 5 unknown party, 6 bad signature, 7 other key.
    pub outcome: u32,
    /// The number of what fails; 0 where nothing does.
    pub check: u32,
}

/// The entry of what a note announces.
fn entry_of(note: &RollNote) -> Entry
    ensures { result ≡ entry_of note.now }
{
    Entry {
        generation: note.generation,
        number: note.party.number,
        role: u16::from(note.party.role.number()),
        key: note.key.bytes(),
    }
}

impl CallLesson {
    /// An outcome with a number, and no entry.
    fn said(outcome: u32, check: u32) -> CallLesson
        ensures { result ≡ said_lesson outcome check }
    {
        CallLesson {
            entry: Entry {
                generation: 0,
                number: 0,
                role: 0,
                key: [0; 56],
            },
            outcome,
            check,
        }
    }

    /// What is told of keys that make no directory.
    fn of_fault(fault: KeysFault) -> CallLesson
        ensures { result ≡ fault_lesson fault }
    {
        match fault {
            KeysFault::Memory => CallLesson::said(NO_MEMORY, 0),
            _ => CallLesson::said(BAD_KEYS, fault.number()),
        }
    }

    /// What is told of a note, by what the directory learnt.
    fn of_learned(learned: Result<Learned, LearnFault>, note: &RollNote) -> CallLesson
        ensures { result ≡ learnt_lesson learned note.now }
    {
        match learned {
            Ok(Learned::New) => CallLesson {
                entry: entry_of(note),
                outcome: LEARNT,
                check: 0,
            },
            Ok(Learned::Again) => CallLesson::said(KNOWN, 0),
            Err(LearnFault::Unknown) => CallLesson::said(UNKNOWN_PARTY, 0),
            Err(LearnFault::Bad(test)) => CallLesson::said(BAD_SIGNATURE, u32::from(test)),
            Err(LearnFault::Other) => CallLesson::said(OTHER_KEY, 0),
            Err(LearnFault::Memory) => CallLesson::said(NO_MEMORY, 0),
        }
    }
}

/// What a directory learns of bytes.
fn lesson_on(alloc: Global, directory: Directory, bytes: &[u8]) -> CallLesson
    ensures { IsUnlessNoMemory result (lesson_on directory (note_of (message_in bytes.now))) }
{
    let mut directory = directory;
    match RollNote::read(alloc, bytes) {
        Ok(Some(note)) => CallLesson::of_learned(note.teach(alloc, &mut directory), &note),
        Ok(None) => CallLesson::said(NO_NOTE, 0),
        Err(AllocError) => CallLesson::said(NO_MEMORY, 0),
    }
}

/// What is learnt of a RollNote.
fn learnt(alloc: Global, keys: &Keys, note: &[u8]) -> CallLesson
    ensures { IsUnlessNoMemory result (lesson_told (directory_given keys.now) note.now) }
{
    match directory_of(alloc, keys) {
        Ok(directory) => lesson_on(alloc, directory, note),
        Err(fault) => CallLesson::of_fault(fault),
    }
}

/// Learns from the bytes of a RollNote: writes the lesson, all of it, and returns its outcome.
#[unsafe(no_mangle)]
pub extern "C" fn arpki_learn(
    alloc: Global,
    keys: &Keys,
    note: &[u8],
    lesson: &mut CallLesson,
) -> u32
    ensures told { IsUnlessNoMemory lesson.new (lesson_told (directory_given keys.now) note.now) }
    ensures outcome { result ≡ lesson.new.outcome }
{
    *lesson = learnt(alloc, keys, note);
    lesson.outcome
}
