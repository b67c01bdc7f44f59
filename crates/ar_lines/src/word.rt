ghost use Rattle.std.specs.Prelude.{◌≡◌, ◌≤◌, IfSome, Option, List, ℕ};
ghost use Rattle.std.specs.List.{list_all};
ghost use Rattle.ar_lines.specs.Forms.{bytes_of_hex, is_hex, is_lower_hex_digit, is_numeral, key_of_hex, name_of, number_in, number_of, sized_of_hex};
ghost use Rattle.std.specs.Char.{is_ascii_digit};
ghost use Rattle.ar_lines.specs.Readings.{ReadsOrWants, spelled};
ghost use Rattle.ar_lines.specs.declared.refusal.Reason.TheVariants.{Field};

use crate::refusal::{LineFault, Reason, Refusal};
use ar_names::{Name, NameFault};
use lms_tree::LmsPublic;
use std::alloc::Global;
use std::marker::Model;
use std::str;

/// A word of a line, which knows where it stands.
///
/// Each reader of a word below refuses it as `field` exactly where it is not of the reader's form. The
/// other error, of those that take memory, is want of it.
#[derive(Debug, Drop)]
pub struct Word<'a> {
    line: u64,
    number: usize,
    text: &'a [u8],
}

// Clauses see the three fields.
impl<'a> Model for Word<'a> {
    ghost use Rattle.ar_lines.specs.Readings.{WordAt};

    ghost Value = { WordAt };

    ghost view = { λ w. record { line = w.line; number = w.number; text = w.text.now } };
}

/// Whether a word has hex digits alone, in lower case.
fn are_hex_digits(word: &[u8]) -> bool
    ensures { result ≡ list_all is_lower_hex_digit word.now }
{
    word.iter()
        .all(|byte| matches!(byte, b'0'..=b'9' | b'a'..=b'f'))
}

/// Whether a word is two lower-case digits for each of some bytes.
pub fn is_hex(word: &[u8]) -> bool
    ensures { result ≡ is_hex word.now }
{
    are_hex_digits(word) && word.len() % 2 == 0
}

impl<'a> Word<'a> {
    /// The word of this number, from 0, of a line.
    pub fn new(line: u64, number: usize, text: &'a [u8]) -> Word<'a>
        ensures { result ≡ record { line = line; number = number; text = text.now } }
    {
        Word { line, number, text }
    }

    /// The number of its line.
    pub fn line(&self) -> u64
        ensures { result ≡ self.now.line }
    {
        self.line
    }

    /// Its bytes.
    pub fn text(&self) -> &'a [u8]
        ensures { result.now ≡ self.now.text }
    {
        self.text
    }

    /// The refusal of a word that is not of its form or range.
    pub fn refusal(&self) -> Refusal
        ensures { result ≡ record { line = self.now.line; reason = Field self.now.number } }
    {
        Refusal::new(self.line, Reason::Field(self.number))
    }

    /// The bytes that a hex word spells: two lower-case digits for each byte.
    /// Another word is refused as the field that it is; `Memory` is want of memory.
    #[tactic(auto, using(crate::proofs::HexWords::hex_laws))]
    pub fn bytes(&self, alloc: Global) -> Result<Vec<u8>, LineFault>
        ensures { ReadsOrWants (λ bytes.
            bytes.items) result (spelled self.now (bytes_of_hex self.now.text)) }
    {
        if !is_hex(self.text) {
            return Err(LineFault::Refused(self.refusal()));
        }
        match hex::decode(alloc, self.text) {
            Ok(bytes) => Ok(bytes),
            Err(_) => Err(LineFault::Memory),
        }
    }

    /// The public key whose text a hex word of 112 digits spells. It takes no memory.
    /// Another word is refused as the field that it is.
    pub fn key(&self) -> Result<LmsPublic, Refusal>
        ensures { result ≡ spelled self.now (key_of_hex self.now.text) }
    {
        key_of_hex(self.text).ok_or(self.refusal())
    }

    /// The number below 2^64 that the word spells in decimal digits, without a sign and without leading
    /// zeros.
    /// Another word is refused as the field that it is.
    pub fn number(&self) -> Result<u64, Refusal>
        ensures { result ≡ spelled self.now (number_of self.now.text) }
    {
        number_of(self.text).ok_or(self.refusal())
    }

    /// The name that the word is.
    /// Another word is refused as the field that it is; `Memory` is want of memory.
    pub fn name(&self, alloc: Global) -> Result<Name, LineFault>
        ensures { ReadsOrWants (λ name. name) result (spelled self.now (name_of self.now.text)) }
    {
        match Name::read(alloc, self.text) {
            Ok(name) => Ok(name),
            Err(NameFault::Refused(_)) => Err(LineFault::Refused(self.refusal())),
            Err(NameFault::Memory) => Err(LineFault::Memory),
        }
    }
}

/// The `N` bytes that a hex word of twice as many digits spells; `None` exactly where it spells no such bytes.
#[tactic(auto, using(crate::proofs::HexWords::sized_laws))]
pub fn array_of_hex<const N: usize>(word: &[u8]) -> Option<[u8; N]>
    ensures { result ≡ sized_of_hex N word.now }
{
    if !are_hex_digits(word) {
        return None;
    }
    let mut bytes = [0; N];
    match hex::decode_to_slice(word, &mut bytes) {
        Ok(()) => Some(bytes),
        Err(_) => None,
    }
}

/// The public key whose text a hex word of 112 digits spells; `None` exactly where it spells none.
#[tactic(auto, using(crate::proofs::HexWords::key_laws))]
fn key_of_hex(word: &[u8]) -> Option<LmsPublic>
    ensures { result ≡ key_of_hex word.now }
{
    let text = array_of_hex::<56>(word)?;
    LmsPublic::read(&text)
}

/// Whether a word is `0`, or decimal digits of which the first is not `0`.
fn is_numeral(word: &[u8]) -> bool
    ensures { result ≡ is_numeral word.now }
{
    has_digits(word) && !word.is_empty() && (word.len() == 1 || word[0] != b'0')
}

/// Whether the word has decimal digits alone.
fn has_digits(word: &[u8]) -> bool
    ensures { result ≡ list_all is_ascii_digit word.now }
{
    word.iter().all(|byte| byte.is_ascii_digit())
}

/// The number below 2^64 that a word spells in decimal digits, without a sign and without leading zeros; `None`
/// exactly where it spells none.
pub fn number_of(word: &[u8]) -> Option<u64>
    ensures { result ≡ number_of word.now }
{
    if !is_numeral(word) {
        return None;
    }
    match str::from_utf8(word) {
        Ok(digits) => digits.parse().ok(),
        // Digits are text.
        Err(_) => unreachable!(),
    }
}

/// The number that such a word spells, where it is not below the first of these bounds and not above the second.
#[tactic(auto, unfolding(crate::specs::Forms::number_in))]
pub fn number_in(least: u64, most: u64, word: &[u8]) -> Option<u64>
    ensures value { result ≡ number_in least most word.now }
    ensures most { IfSome result (λ n. n ≤ most) }
{
    let number = number_of(word)?;
    if number < least || most < number {
        return None;
    }
    Some(number)
}
