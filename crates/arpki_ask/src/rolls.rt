ghost use Rattle.std.specs.Prelude.{◌≡◌, IfOk};
ghost use Rattle.ar_lines.specs.Readings.{FollowsUnless, ReadsUnless, spelled};
ghost use Rattle.arpki_ask.specs.Inquiries.{learnt_of_hex, most_rolls, roll_at, rolls_at};
ghost use Rattle.arpki_ask.specs.Notes.{learnt_by, learnt_from};

use ar_lines::{LineFault, Lines, Word};
use client_rule::RollNote;
use party_keys::{Directory, LearnFault, Learned};
use std::alloc::{AllocError, Global};

/// How many RollNotes the directory may learn from.
const MOST_ROLLS: usize = 64;

/// The directory that learnt from a RollNote; `None` where it is not learnt.
fn learnt_by(
    alloc: Global,
    directory: Directory,
    note: &RollNote,
) -> Result<Option<Directory>, AllocError>
    ensures { IfOk result (λ learnt. learnt ≡ learnt_by directory note.now) }
{
    let mut directory = directory;
    match note.teach(alloc, &mut directory) {
        Ok(Learned::New | Learned::Again) => Ok(Some(directory)),
        Err(LearnFault::Memory) => Err(AllocError),
        _ => Ok(None),
    }
}

/// The directory that learnt from the text of a RollNote; `None` where the bytes are none, or it is not learnt.
#[tactic(auto, unfolding(crate::specs::Notes::learnt_from))]
fn learnt_from(
    alloc: Global,
    directory: Directory,
    bytes: &[u8],
) -> Result<Option<Directory>, AllocError>
    ensures { IfOk result (λ learnt. learnt ≡ learnt_from directory bytes.now) }
{
    match RollNote::read(alloc, bytes)? {
        Some(note) => learnt_by(alloc, directory, &note),
        None => Ok(None),
    }
}

/// The directory that learnt from the RollNote that a word spells.
fn learnt(alloc: Global, word: &Word, directory: Directory) -> Result<Directory, LineFault>
    ensures { ReadsUnless (λ learnt.
        learnt) result (spelled word.now (learnt_of_hex directory word.now.text)) }
{
    let bytes = word.bytes(alloc)?;
    match learnt_from(alloc, directory, &bytes)? {
        Some(learnt) => Ok(learnt),
        None => Err(LineFault::Refused(word.refusal())),
    }
}

/// `roll <hex of a RollNote>`: the directory that learnt it.
#[tactic(auto, unfolding(ar_lines::specs::Rows::value_at))]
fn roll(alloc: Global, lines: &mut Lines, directory: Directory) -> Result<Directory, LineFault>
    ensures { FollowsUnless (λ learnt. learnt) result lines.new (roll_at directory lines.old) }
{
    let field = lines.field(b"roll")?;
    learnt(alloc, &field, directory)
}

/// The directory that learnt from the lines `roll`, of which there are at most 64.
#[tactic(auto, using(crate::proofs::RollLines::roll_lines))]
pub fn rolls(alloc: Global, lines: &mut Lines, directory: Directory) -> Result<Directory, LineFault>
    ensures { FollowsUnless (λ learnt.
        learnt) result lines.new (rolls_at most_rolls directory lines.old) }
{
    let mut directory = directory;
    for _ in 0..MOST_ROLLS {
        if !lines.is_next(b"roll") {
            return Ok(directory);
        }
        directory = roll(alloc, lines, directory)?;
    }
    Ok(directory)
}
