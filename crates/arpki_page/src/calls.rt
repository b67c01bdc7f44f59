ghost use Rattle.std.specs.Prelude.{◌≡◌, ◌≢◌, ◌≤◌, ◌⊎◌, ◌++◌, length, take, drop, min, IfOk};
ghost use Rattle.arpki_page.specs.Called.{IsAnswered, Program, texts_given};

use crate::kept::Kept;
use crate::words::{CallWord, words_of};
use ar_io::QuietSource;
use arpki_play::arpki_main;
use log_restart::Disks;
use owner_check::empty_books;
use std::alloc::{AllocError, Global};

/// The status where memory ran out.
const NO_MEMORY: u32 = 6;

/// The most authorities of a script.
const MOST_AUTHORITIES: usize = 16;

/// What the program wrote, and its status.
#[derive(Drop)]
struct Told {
    kept: Kept,
    status: u8,
}

/// Runs the program over an input. The only error is want of memory.
fn run_program(
    alloc: Global,
    words: &[CallWord],
    input: &[u8],
    room: usize,
) -> Result<Told, AllocError>
    ensures answered { IfOk result (λ told.
        Program (texts_given words.now) input.now told.kept told.status) }
    ensures statuses { IfOk result (λ told. told.status ≤ 3) }
{
    let words = words_of(alloc, words)?;
    let mut source = QuietSource::new(Vec::from_slice(alloc, input)?);
    let mut kept = Kept::with_room(alloc, room)?;
    let checks = empty_books(alloc, MOST_AUTHORITIES)?;
    let mut disks = Disks::empty(alloc);
    let status = arpki_main(alloc, &words, &mut source, &mut kept, checks, &mut disks);
    if status > 3 {
        return Err(AllocError);
    }
    Ok(Told { kept, status })
}

/// Puts bytes over the front of `output`, as many as there is room for.
fn show(bytes: &[u8], output: &mut [u8])
    ensures { let n = min (length output.old) (length bytes.now)
        in output.new ≡ take n bytes.now ++ drop n output.old }
{
    let count = output.len().min(bytes.len());
    output[..count].copy_from_slice(&bytes[..count]);
}

/// Answers these words and this input as the program `arpki` does: puts the front of what it writes into `output`, as much
/// as there is room for, sets `needed` to the length of all of it, and returns the status.
///
/// It is 0 to 3, as the program's, or 6 where memory ran out: then `output` is as it was, and `needed` is 0. Where `needed`
/// is more than the length of `output`, the same call with more room gives all of it.
#[unsafe(no_mangle)]
pub extern "C" fn arpki_page(
    alloc: Global,
    words: &[CallWord],
    input: &[u8],
    output: &mut [u8],
    needed: &mut usize,
) -> u32
    ensures statuses { (result ≤ 3) ⊎ (result ≡ 6) }
    ensures answered { result ≢ 6
        → IsAnswered (texts_given words.now) input.now output.old output.new needed.new result }
    ensures memory { result ≡ 6 → (output.new ≡ output.old) × (needed.new ≡ 0) }
{
    *needed = 0;
    let Ok(told) = run_program(alloc, words, input, output.len()) else {
        return NO_MEMORY;
    };
    let bytes = told.kept.bytes();
    *needed = bytes.len();
    show(bytes, output);
    u32::from(told.status)
}
