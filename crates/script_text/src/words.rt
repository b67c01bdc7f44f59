ghost use Rattle.std.specs.Prelude.{◌≡◌, [], ◌∷◌, MatchResult};
ghost use Rattle.std.specs.Result.{result_map_both};
ghost use Rattle.ar_lines.specs.Lines.{words_of};
ghost use Rattle.script_text.specs.Grammar.{five_words, four_words, no_words, one_word, policy_words, some_words, three_words, two_words};

use ar_lines::{Reason, first_word};
use std::marker::Model;

/// A word of a line.
#[derive(Debug, Drop)]
pub(crate) struct Word<'a> {
    text: &'a [u8],
}

// Clauses see its bytes.
impl<'a> Model for Word<'a> {
    ghost use Rattle.std.specs.Prelude.{ℕ, List};

    ghost Value = { List ℕ };

    ghost view = { λ w. w.text.now };
}

impl<'a> Word<'a> {
    /// The bytes.
    pub(crate) fn text(&self) -> &'a [u8]
        ensures { result.now ≡ self.now }
    {
        self.text
    }
}

/// The words of a line that are still ahead: what stands behind the last word that was taken and the space
/// after it, where there is a space.
#[derive(Debug, Drop)]
pub(crate) struct Words<'a> {
    behind: Option<&'a [u8]>,
}

// Clauses see the words.
impl<'a> Model for Words<'a> {
    ghost use Rattle.std.specs.Prelude.{ℕ, List};
    ghost use Rattle.std.specs.Option.{option_copied};
    ghost use Rattle.ar_lines.specs.Views.{words_behind};

    ghost Value = { List (List ℕ) };

    ghost view = { λ w. words_behind (option_copied w.behind) };
}

/// The words of a policy.
#[derive(Debug, Drop)]
pub(crate) struct PolicyTexts<'a> {
    pub(crate) threshold: Word<'a>,
    pub(crate) binding: Word<'a>,
    pub(crate) max_age: Word<'a>,
    pub(crate) until: Word<'a>,
    pub(crate) trusted: Word<'a>,
}

// Clauses see them as definitions have them.
impl<'a> Model for PolicyTexts<'a> {
    ghost use Rattle.script_text.specs.Grammar.{PolicyFields};

    ghost Value = { PolicyFields };

    ghost view = { λ p. record {
      threshold = p.threshold;
      binding = p.binding;
      max_age = p.max_age;
      until = p.until;
      trusted = p.trusted;
    } };
}

impl<'a> Words<'a> {
    ghost use Rattle.ar_lines.specs.Views.{words_behind};
    ghost use Rattle.std.specs.Option.{option_copied};
    ghost use Rattle.ar_lines.specs.declared.refusal.Reason.TheVariants as reason;

    /// The words of what stands behind a word and its space.
    pub(crate) fn new(behind: Option<&'a [u8]>) -> Words<'a>
        ensures { result ≡ words_behind (option_copied behind.entry) }
    {
        Words { behind }
    }

    /// Takes the next word.
    fn next(&mut self) -> Result<Word<'a>, Reason>
        ensures { MatchResult result (λ word.
            self.old ≡ word ∷ self.new) (λ e. (e ≡ reason.Words) × (self.old ≡ [])) }
    {
        let Some(text) = self.behind else {
            return Err(Reason::Words);
        };
        let (word, behind) = first_word(text);
        self.behind = behind;
        Ok(Word { text: word })
    }

    /// Nothing, where no word is left.
    pub(crate) fn none(self) -> Result<(), Reason>
        ensures { result ≡ no_words self.entry }
    {
        match self.behind {
            None => Ok(()),
            Some(_) => Err(Reason::Words),
        }
    }

    /// The one word.
    pub(crate) fn one(mut self) -> Result<Word<'a>, Reason>
        ensures { result ≡ one_word self.entry }
    {
        let a = self.next()?;
        self.none()?;
        Ok(a)
    }

    /// The two words.
    pub(crate) fn two(mut self) -> Result<(Word<'a>, Word<'a>), Reason>
        ensures { result ≡ two_words self.entry }
    {
        let a = self.next()?;
        let b = self.next()?;
        self.none()?;
        Ok((a, b))
    }

    /// The three words.
    pub(crate) fn three(mut self) -> Result<(Word<'a>, Word<'a>, Word<'a>), Reason>
        ensures { result ≡ three_words self.entry }
    {
        let a = self.next()?;
        let b = self.next()?;
        let c = self.next()?;
        self.none()?;
        Ok((a, b, c))
    }

    /// The four words.
    pub(crate) fn four(mut self) -> Result<(Word<'a>, Word<'a>, Word<'a>, Word<'a>), Reason>
        ensures { result ≡ four_words self.entry }
    {
        let a = self.next()?;
        let b = self.next()?;
        let c = self.next()?;
        let d = self.next()?;
        self.none()?;
        Ok((a, b, c, d))
    }

    /// The five words.
    pub(crate) fn five(
        mut self,
    ) -> Result<(Word<'a>, Word<'a>, Word<'a>, Word<'a>, Word<'a>), Reason>
        ensures { result ≡ five_words self.entry }
    {
        let a = self.next()?;
        let b = self.next()?;
        let c = self.next()?;
        let d = self.next()?;
        let e = self.next()?;
        self.none()?;
        Ok((a, b, c, d, e))
    }

    /// Two words, those of a policy, and one.
    pub(crate) fn policy(
        mut self,
    ) -> Result<(Word<'a>, Word<'a>, PolicyTexts<'a>, Word<'a>), Reason>
        ensures { result ≡ policy_words self.entry }
    {
        let a = self.next()?;
        let b = self.next()?;
        let threshold = self.next()?;
        let binding = self.next()?;
        let max_age = self.next()?;
        let until = self.next()?;
        let trusted = self.next()?;
        let asks = self.next()?;
        self.none()?;
        let texts = PolicyTexts {
            threshold,
            binding,
            max_age,
            until,
            trusted,
        };
        Ok((a, b, texts, asks))
    }

    /// The first word, and the text of the others, of which there is at least one.
    pub(crate) fn some(mut self) -> Result<(Word<'a>, &'a [u8]), Reason>
        ensures { result_map_both (λ x.
            (x.0, words_of x.1.now)) (λ e. e) result ≡ some_words self.entry }
    {
        let a = self.next()?;
        match self.behind {
            Some(pieces) => Ok((a, pieces)),
            None => Err(Reason::Words),
        }
    }
}
