//! Bytes that a script composes of pieces.

ghost use Rattle.std.specs.Prelude.{◌≡◌, [], OnOk, Some};
ghost use Rattle.std.specs.Option.{ok_or, option_map};
ghost use Rattle.std.specs.Result.{result_map_both};
ghost use Rattle.ar_base.specs.Gives.{GivesUnless};
ghost use Rattle.ar_lines.specs.Forms.{bytes_of_hex};
ghost use Rattle.ar_lines.specs.Lines.{words_of};
ghost use Rattle.ar_nodes.specs.Composing.{grown, grown_by, composed, cut_from, cut_of, piece_of, slice_in};
ghost use Rattle.ar_nodes.specs.declared.fault.WorldFault.TheVariants.{Limit, Memory};

use crate::fault::WorldFault;
use crate::pool::Pool;
use ar_lines::{LineFault, Word, first_word};
use ar_message::LONGEST;
use script_text::{Pieces, slice_of};
use std::alloc::{AllocError, Global};
use std::marker::Model;

/// The bytes of the pieces so far, which are kept as long as they are no more than a message may have.
#[derive(Drop)]
struct Text {
    bytes: Vec<u8>,
    /// There were too many. Those that are kept say nothing then.
    over: bool,
}

// Clauses see the bytes, where they are not too many.
impl Model for Text {
    ghost use Rattle.std.specs.Prelude.{ℕ, ◌≤◌, if◌then◌else◌, List, length, Option, Some, None};
    ghost use Rattle.ar_message.specs.Messages.{longest};

    ghost Value = { Option (List ℕ) };

    ghost view = { λ t. if t.over then None else Some t.bytes.items };

    ghost invariant = { λ t. length t.bytes.items ≤ longest };
}

impl Text {
    /// No bytes.
    fn new(alloc: Global) -> Text
        ensures { result ≡ Some [] }
    {
        Text {
            bytes: Vec::new(alloc),
            over: false,
        }
    }

    /// Puts bytes behind the others, where they are not too many.
    fn add(&mut self, more: &[u8]) -> Result<(), AllocError>
        ensures ok { OnOk result (self.new ≡ grown self.old more.now) }
    {
        if more.len() <= LONGEST - self.bytes.len() {
            self.bytes.extend_from_slice(more)
        } else {
            self.over = true;
            Ok(())
        }
    }

    /// The bytes, where they are not too many.
    fn finish(self) -> Result<Vec<u8>, WorldFault>
        ensures { result_map_both (λ bytes.
            bytes.items) (λ e. e) result ≡ ok_or (grown self []) Limit }
    {
        if self.over {
            return Err(WorldFault::Limit);
        }
        Ok(self.bytes)
    }
}

/// The bytes from one place up to, but not with, another, where they are there.
fn cut_from(bytes: &[u8], from: u64, to: u64) -> Option<&[u8]>
    ensures { option_map (λ cut. cut.now) result ≡ cut_from bytes.now from to }
{
    if from <= to && to <= bytes.len() as u64 {
        Some(&bytes[from as usize..to as usize])
    } else {
        None
    }
}

/// The bytes of a message between two places.
fn cut_of(pool: &Pool, message: u64, from: u64, to: u64) -> Option<&[u8]>
    ensures { option_map (λ cut. cut.now) result ≡ cut_of pool.now.messages message from to }
{
    let message = pool.get(message)?;
    cut_from(message.bytes.as_slice(), from, to)
}

/// The bytes of the slice that a word says.
fn slice_in<'a>(pool: &'a Pool, word: &[u8]) -> Option<&'a [u8]>
    ensures { option_map (λ cut. cut.now) result ≡ slice_in pool.now.messages word.now }
{
    let (message, from, to) = slice_of(word)?;
    cut_of(pool, message, from, to)
}

/// Puts the bytes of a hex word, which has this number in its line, behind the others.
fn add_hex(alloc: Global, number: usize, word: &[u8], text: &mut Text) -> Result<(), WorldFault>
    ensures { GivesUnless Memory (λ _.
        text.new) result (grown_by text.old number (bytes_of_hex word.now)) }
{
    match Word::new(0, number, word).bytes(alloc) {
        Ok(bytes) => {
            text.add(&bytes)?;
            Ok(())
        }
        Err(LineFault::Refused(_)) => Err(WorldFault::Absent(number)),
        Err(LineFault::Memory) => Err(WorldFault::Memory),
    }
}

/// Puts the bytes of a slice, which has this number in its line, behind the others.
fn add_slice(pool: &Pool, number: usize, word: &[u8], text: &mut Text) -> Result<(), WorldFault>
    ensures { GivesUnless Memory (λ _.
        text.new) result (grown_by text.old number (slice_in pool.now.messages word.now)) }
{
    match slice_in(pool, word) {
        Some(bytes) => {
            text.add(bytes)?;
            Ok(())
        }
        None => Err(WorldFault::Absent(number)),
    }
}

/// Puts the bytes of a piece, which has this number in its line, behind the others.
fn add_piece(
    alloc: Global,
    pool: &Pool,
    number: usize,
    word: &[u8],
    text: &mut Text,
) -> Result<(), WorldFault>
    ensures { GivesUnless Memory (λ _.
        text.new) result (grown_by text.old number (piece_of pool.now.messages word.now)) }
{
    match word {
        [b'x', digits @ ..] => add_hex(alloc, number, digits, text),
        [_, places @ ..] => add_slice(pool, number, places, text),
        [] => Err(WorldFault::Absent(number)),
    }
}

/// The bytes of the pieces that stand in a text, of which the first has the number 2 in its line.
#[tactic(auto, using(crate::proofs::Pieces::piece_laws))]
fn composed_of(alloc: Global, pool: &Pool, text: &[u8]) -> Result<Vec<u8>, WorldFault>
    ensures { GivesUnless Memory (λ bytes.
        bytes.items) result (composed pool.now.messages (words_of text.now)) }
{
    let mut bytes = Text::new(alloc);
    let mut number = 2;
    let mut rest = Some(text);
    while let Some(words) = rest {
        let (word, behind) = first_word(words);
        add_piece(alloc, pool, number, word, &mut bytes)?;
        number += 1;
        rest = behind;
    }
    bytes.finish()
}

/// The bytes of the pieces of a line, one behind the other. A piece that is not there is refused before bytes that are too
/// many, of which no more are kept than a message may have.
pub fn composed(alloc: Global, pool: &Pool, pieces: &Pieces) -> Result<Vec<u8>, WorldFault>
    ensures { GivesUnless Memory (λ bytes.
        bytes.items) result (composed pool.now.messages pieces.now) }
{
    composed_of(alloc, pool, pieces.text())
}
