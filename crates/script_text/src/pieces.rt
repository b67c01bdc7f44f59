ghost use Rattle.std.specs.Prelude.{◌≡◌, IfOk};
ghost use Rattle.std.specs.Result.{result_map_both};
ghost use Rattle.ar_lines.specs.Lines.{words_of};
ghost use Rattle.script_text.specs.Forms.{is_piece, slice_of};
ghost use Rattle.script_text.specs.Grammar.{are_pieces};

use ar_lines::{Reason, first_part, first_word, is_hex, number_of};
use std::marker::Model;

/// The pieces of bytes that a line composes: one or more words, with one space between each two. A piece is
/// `x` and lower-case hex, or `m<k>:<from>:<to>`, the bytes of message k from the place `from` up to, but not
/// with, the place `to`.
#[derive(Debug, Drop)]
pub struct Pieces<'a> {
    text: &'a [u8],
}

// Clauses see the words.
impl<'a> Model for Pieces<'a> {
    ghost use Rattle.std.specs.Prelude.{ℕ, List};
    ghost use Rattle.ar_lines.specs.Lines.{words_of};

    ghost Value = { List (List ℕ) };

    ghost view = { λ p. words_of p.text.now };
}

impl<'a> Pieces<'a> {
    /// The pieces of a text.
    pub(crate) fn new(text: &'a [u8]) -> Pieces<'a>
        ensures { result ≡ words_of text.now }
    {
        Pieces { text }
    }

    /// The bytes of the words, with the spaces between them.
    pub fn text(&self) -> &'a [u8]
        ensures { words_of result.now ≡ self.now }
    {
        self.text
    }
}

/// The slice of a message that a word says: the number of the message, the place of the first byte, and the
/// place behind the last, with `:` between each two.
#[tactic(auto, using(crate::proofs::Parts::more_than_three), unfolding(crate::specs::Forms::slice_of))]
pub fn slice_of(word: &[u8]) -> Option<(u64, u64, u64)>
    ensures { result ≡ slice_of word.now }
{
    let (message, Some(places)) = first_part(word, b':') else {
        return None;
    };
    let (from, Some(to)) = first_part(places, b':') else {
        return None;
    };
    let (to, None) = first_part(to, b':') else {
        return None;
    };
    Some((number_of(message)?, number_of(from)?, number_of(to)?))
}

/// Whether a word is a piece.
#[tactic(auto, unfolding(crate::specs::Forms::is_piece))]
fn is_piece(word: &[u8]) -> bool
    ensures { result ≡ is_piece word.now }
{
    match word {
        [b'x', digits @ ..] => is_hex(digits),
        [b'm', places @ ..] => slice_of(places).is_some(),
        _ => false,
    }
}

/// The pieces of a text, whose first word has this number in its line; the first word that is none is refused.
#[tactic(auto, using(crate::proofs::Parts::words_counted))]
pub(crate) fn pieces_of(text: &[u8]) -> Result<Pieces<'_>, Reason>
    ensures value { IfOk result (λ pieces. pieces ≡ words_of text.now) }
    ensures tells { result_map_both (λ _. tt) (λ e. e) result ≡ are_pieces 2 (words_of text.now) }
{
    let mut number = 2;
    let mut rest = Some(text);
    while let Some(words) = rest {
        let (word, behind) = first_word(words);
        if !is_piece(word) {
            return Err(Reason::Field(number));
        }
        number += 1;
        rest = behind;
    }
    Ok(Pieces::new(text))
}
