ghost use Rattle.std.specs.Prelude.{◌≡◌, ◌<◌, [], ◌∷◌, MatchOption, length};
ghost use Rattle.std.specs.Option.{option_copied};
ghost use Rattle.ar_lines.specs.Lines.{is_text, lines_of, parts_of, words_of};
ghost use Rattle.ar_lines.specs.Views.{parts_behind, words_behind};

use crate::refusal::{Reason, Refusal};
use crate::word::Word;
use ar_base::position_of;
use std::marker::Model;

/// A reader of the lines of an input, from the first on.
///
/// A call that refuses a line leaves it open what is read then.
#[derive(Debug, Drop)]
pub struct Lines<'a> {
    next: u64,
    input: &'a [u8],
}

// Clauses see the number of the next line, and the lines that are still ahead.
impl<'a> Model for Lines<'a> {
    ghost use Rattle.std.specs.Prelude.{◌+◌, ◌<◌, ◌^◌, length};
    ghost use Rattle.ar_lines.specs.Lines.{lines_of};
    ghost use Rattle.ar_lines.specs.Readings.{LineCursor};

    ghost Value = { LineCursor };

    ghost view = { λ l. record { next = l.next; ahead = lines_of l.input.now } };

    ghost invariant = { λ l. l.next + length l.input.now < 2 ^ 64 };
}

/// The row of a named line: its number, and what stands behind its first word and the space after that,
/// where there is a space.
#[derive(Debug, Drop)]
struct RowText<'a> {
    line: u64,
    behind: Option<&'a [u8]>,
}

/// The first part of a text, which is cut at these bytes, and what stands behind the byte that ends it, where
/// there is one.
#[tactic(auto, using(crate::proofs::LineLaws::first_part_laws))]
pub fn first_part(text: &[u8], mark: u8) -> (&[u8], Option<&[u8]>)
    ensures { parts_of mark text.now ≡ result.0.now ∷ parts_behind mark (option_copied result.1) }
{
    match position_of(text, mark) {
        Some(end) => (&text[..end], Some(&text[end + 1..])),
        None => (text, None),
    }
}

/// The first line of an input, without its newline, and what follows that newline; `None` where the
/// input has no line, since it is empty.
#[tactic(auto, using(crate::proofs::LineLaws::first_line_laws))]
fn first_line(input: &[u8]) -> Option<(&[u8], &[u8])>
    ensures cut { MatchOption result (lines_of input.now ≡ []) (λ cut.
        lines_of input.now ≡ cut.0.now ∷ lines_of cut.1.now) }
    ensures shorter { MatchOption result (length input.now ≡ 0)
        (λ cut. length cut.1.now < length input.now) }
{
    if input.is_empty() {
        return None;
    }
    match position_of(input, b'\n') {
        Some(end) => Some((&input[..end], &input[end + 1..])),
        None => Some((input, &[])),
    }
}

/// The first word of a line, and what stands behind the space after it, where there is a space.
pub fn first_word(line: &[u8]) -> (&[u8], Option<&[u8]>)
    ensures { words_of line.now ≡ result.0.now ∷ words_behind (option_copied result.1) }
{
    first_part(line, b' ')
}

/// Whether a line is text: each byte of it is one of 0x20 to 0x7e.
pub fn is_text(line: &[u8]) -> bool
    ensures { result ≡ is_text line.now }
{
    line.iter().all(|byte| matches!(byte, 0x20..=0x7e))
}

impl<'a> RowText<'a> {
    ghost use Rattle.ar_lines.specs.Rows.{both_of, only_of};
    ghost use Rattle.ar_lines.specs.Views.{row_in};

    /// Its one field.
    fn only(&self) -> Result<Word<'a>, Refusal>
        ensures { result ≡ only_of self.now.line (row_in self.now).fields }
    {
        let line = self.line;
        let Some(behind) = self.behind else {
            return Err(Refusal::new(line, Reason::Words));
        };
        let (text, more) = first_word(behind);
        match more {
            None => Ok(Word::new(line, 1, text)),
            Some(_) => Err(Refusal::new(line, Reason::Words)),
        }
    }

    /// Its two fields.
    fn both(&self) -> Result<(Word<'a>, Word<'a>), Refusal>
        ensures { result ≡ both_of self.now.line (row_in self.now).fields }
    {
        let line = self.line;
        let Some(behind) = self.behind else {
            return Err(Refusal::new(line, Reason::Words));
        };
        let (first, behind) = first_word(behind);
        let Some(behind) = behind else {
            return Err(Refusal::new(line, Reason::Words));
        };
        let (second, more) = first_word(behind);
        match more {
            None => Ok((Word::new(line, 1, first), Word::new(line, 2, second))),
            Some(_) => Err(Refusal::new(line, Reason::Words)),
        }
    }
}

impl<'a> Lines<'a> {
    ghost use Rattle.ar_lines.specs.Readings.{Follows, line_at, start_of_lines};
    ghost use Rattle.ar_lines.specs.Rows.{field_at, is_next, no_row_at, row_at, two_fields_at};
    ghost use Rattle.ar_lines.specs.Readings.{no_line_at};
    ghost use Rattle.ar_lines.specs.Views.{row_in};

    /// A reader that stands before the first line.
    pub fn new(input: &'a [u8]) -> Lines<'a>
        ensures { result ≡ start_of_lines input.now }
    {
        Lines { next: 1, input }
    }

    /// The next line, as one word; a missing one is refused as `words`.
    #[tactic(auto, unfolding(crate::specs::Readings::line_at))]
    pub fn line(&mut self) -> Result<Word<'a>, Refusal>
        ensures { Follows (λ word. word) result self.new (line_at self.old) }
    {
        let line = self.next;
        let Some((text, rest)) = first_line(self.input) else {
            return Err(Refusal::new(line, Reason::Words));
        };
        self.next += 1;
        self.input = rest;
        Ok(Word::new(line, 0, text))
    }

    /// Nothing, where no line is left; a line too many is refused as `words`.
    pub fn no_line(&self) -> Result<(), Refusal>
        ensures { result ≡ no_line_at self.now }
    {
        match first_line(self.input) {
            None => Ok(()),
            Some(_) => Err(Refusal::new(self.next, Reason::Words)),
        }
    }

    /// The next line, which has to be text and to begin with this word.
    #[tactic(auto, unfolding(crate::specs::Rows::row_at))]
    fn row(&mut self, name: &[u8]) -> Result<RowText<'a>, Refusal>
        ensures { Follows row_in result self.new (row_at name.now self.old) }
    {
        let line = self.line()?;
        if !is_text(line.text()) {
            return Err(Refusal::new(line.line(), Reason::Text));
        }
        let (word, behind) = first_word(line.text());
        if word != name {
            return Err(Refusal::new(line.line(), Reason::Word));
        }
        Ok(RowText {
            line: line.line(),
            behind,
        })
    }

    /// The next line, which has to be text of two words: this one, and the field that is given.
    /// A missing line is refused as `words`, another by the first of `text`, `word` and `words` that holds.
    #[tactic(auto, unfolding(crate::specs::Rows::field_at))]
    pub fn field(&mut self, name: &[u8]) -> Result<Word<'a>, Refusal>
        ensures { Follows (λ word. word) result self.new (field_at name.now self.old) }
    {
        let row = self.row(name)?;
        row.only()
    }

    /// The next line, which has to be text of three words: this one, and the two fields that are given.
    /// It is refused as in `field`.
    #[tactic(auto, unfolding(crate::specs::Rows::two_fields_at))]
    pub fn two_fields(&mut self, name: &[u8]) -> Result<(Word<'a>, Word<'a>), Refusal>
        ensures { Follows (λ words. words) result self.new (two_fields_at name.now self.old) }
    {
        let row = self.row(name)?;
        row.both()
    }

    /// Whether the next line begins with this word. The line is not taken, and a missing one does not.
    pub fn is_next(&self, name: &[u8]) -> bool
        ensures { result ≡ is_next name.now self.now }
    {
        match first_line(self.input) {
            None => false,
            Some((line, _)) => first_word(line).0 == name,
        }
    }

    /// Nothing, where no line is left; a line too many is refused as `text` or as `word`.
    pub fn no_row(&self) -> Result<(), Refusal>
        ensures { result ≡ no_row_at self.now }
    {
        match first_line(self.input) {
            None => Ok(()),
            Some((line, _)) if is_text(line) => Err(Refusal::new(self.next, Reason::Word)),
            Some(_) => Err(Refusal::new(self.next, Reason::Text)),
        }
    }
}
