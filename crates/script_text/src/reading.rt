ghost use Rattle.std.specs.Prelude.{◌≡◌};
ghost use Rattle.script_text.specs.Grammar.{is_skipped, line_by, plain};
ghost use Rattle.script_text.specs.Rows.{read_of, row_of, table};

use crate::keyword::Keyword;
use crate::line::Line;
use crate::rows;
use crate::words::Words;
use ar_lines::{Reason, first_word, is_text};

/// Whether a line is skipped.
fn is_skipped(line: &[u8]) -> bool
    ensures { result ≡ is_skipped line.now }
{
    match line {
        [] => true,
        [first, ..] => *first == b'#',
    }
}

/// A line without fields.
fn plain<'a>(words: Words<'a>, line: Line<'a>) -> Result<Line<'a>, Reason>
    ensures { result ≡ plain line.entry words.entry }
{
    words.none()?;
    Ok(line)
}

/// The line of this first word, by those behind it.
fn line_with<'a>(keyword: Keyword, words: Words<'a>) -> Result<Line<'a>, Reason>
    ensures { result ≡ (row_of keyword).fields words.entry }
{
    match keyword {
        Keyword::Secret => rows::secret(words),
        Keyword::Keys => rows::keys(words),
        Keyword::Logs => rows::logs(words),
        Keyword::Authorities => rows::authorities(words),
        Keyword::Dishonest => rows::dishonest(words),
        Keyword::Owner => rows::owner(words),
        Keyword::Teach => rows::teach(words),
        Keyword::Forget => rows::forget(words),
        Keyword::Retire => rows::retire(words),
        Keyword::Register => rows::register(words),
        Keyword::Update => rows::update(words),
        Keyword::Revoke => rows::revoke(words),
        Keyword::Handover => rows::handover(words),
        Keyword::Object => rows::object(words),
        Keyword::Submit => rows::submit(words),
        Keyword::Propose => rows::propose(words),
        Keyword::Pass => rows::pass(words),
        Keyword::Roll => rows::roll(words),
        Keyword::Learn => rows::learn(words),
        Keyword::Ask => rows::ask(words),
        Keyword::Deliver => rows::deliver(words),
        Keyword::Flush => rows::flush(words),
        Keyword::Judge => rows::judge(words),
        Keyword::Sign => rows::sign(words),
        Keyword::Inject => rows::inject(words),
        Keyword::Burst => plain(words, Line::Burst),
        Keyword::End => plain(words, Line::End),
    }
}

/// The line of this first word and those behind it.
#[tactic(auto, using(crate::proofs::Table::table_laws))]
fn line_of<'a>(word: &[u8], words: Words<'a>) -> Result<Line<'a>, Reason>
    ensures { result ≡ line_by table word.now words.entry }
{
    match Keyword::of(word) {
        Some(keyword) => line_with(keyword, words),
        None => Err(Reason::Word),
    }
}

impl<'a> Line<'a> {
    /// Reads a line of a script, which is given without its newline. `None` is a line that is skipped: it is
    /// empty, or begins with `#`, whatever its bytes are.
    ///
    /// A line is refused as `Text` for a byte outside of 0x20 to 0x7e, else as `Word` where its first word is
    /// that of no line, else as `Words` for the count of its words, and else as `Field` with the number of
    /// its leftmost word that is not of its form or range.
    #[tactic(auto, unfolding(crate::specs::Rows::read_of))]
    pub fn read(line: &'a [u8]) -> Result<Option<Line<'a>>, Reason>
        ensures { result ≡ read_of line.now }
    {
        if is_skipped(line) {
            return Ok(None);
        }
        if !is_text(line) {
            return Err(Reason::Text);
        }
        let (word, behind) = first_word(line);
        let line = line_of(word, Words::new(behind))?;
        Ok(Some(line))
    }
}
