ghost use Rattle.std.specs.Prelude.{◌≡◌, IfOk};
ghost use Rattle.party_keys.specs.Learning.{after_learning};
ghost use Rattle.table_map.specs.Recalling as recalling;

use crate::directory_digest;
use client_rule::RollNote;
use party_keys::{Directory, LearnFault};
use std::alloc::{AllocError, Global};

/// The note of a Roll, with the digest of the directory that learnt it.
#[derive(Debug, Drop)]
pub struct Lesson<'a> {
    /// The digest of the directory.
    pub under: [u8; 32],
    /// What it learnt.
    pub note: &'a RollNote,
}

/// The directory behind the lessons that were learnt under it, in their order; those that were learnt under another are
/// passed over. Each is verified again. The only error is want of memory.
#[tactic(auto, unfolding(crate::specs::Recalling::recalled))]
pub fn recall(
    alloc: Global,
    directory: Directory,
    lessons: &[Lesson],
) -> Result<Directory, AllocError>
    ensures { IfOk result (λ later. later ≡ recalling.recalled directory lessons.now) }
{
    let digest = directory_digest(&directory);
    take_each(alloc, directory, lessons, &digest)
}

// The directory behind lessons, of which it takes those with this digest.
#[tactic(auto, unfolding(crate::specs::Recalling::after_lessons))]
fn take_each(
    alloc: Global,
    directory: Directory,
    lessons: &[Lesson],
    digest: &[u8; 32],
) -> Result<Directory, AllocError>
    ensures { IfOk result (λ later.
        later ≡ recalling.after_lessons digest.now directory lessons.now) }
{
    let mut directory = directory;
    for lesson in lessons {
        directory = take(alloc, directory, lesson, digest)?;
    }
    Ok(directory)
}

// The directory behind one lesson.
fn take(
    alloc: Global,
    directory: Directory,
    lesson: &Lesson,
    digest: &[u8; 32],
) -> Result<Directory, AllocError>
    ensures { IfOk result (λ later. later ≡ recalling.after_lesson digest.now directory lesson.now) }
{
    if lesson.under != *digest {
        return Ok(directory);
    }
    learn(alloc, directory, lesson.note)
}

// The directory behind one note.
fn learn(alloc: Global, directory: Directory, note: &RollNote) -> Result<Directory, AllocError>
    ensures { IfOk result (λ later. later ≡ after_learning directory note.now) }
{
    let mut directory = directory;
    match note.teach(alloc, &mut directory) {
        Err(LearnFault::Memory) => Err(AllocError),
        _ => Ok(directory),
    }
}
