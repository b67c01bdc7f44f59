ghost use Rattle.std.specs.Prelude.{◌≡◌, [], Some, IfOk, OnOk, OnErr, replicate};
ghost use Rattle.owner_check.specs.Answers.{with_answer};
ghost use Rattle.owner_check.specs.Book.{with_pair, without_pair};
ghost use Rattle.owner_check.specs.declared.answer.Outcome.TheVariants.{Failed};

use crate::book::{enter, has, keep, strike};
use crate::{AskFault, CheckAnswer, Outcome, OwnerCheck, Pair};
use std::alloc::{AllocError, Global};
use std::marker::Model;

/// A check that answers by a book of pairs in memory, and never fails.
///
/// A call compares the name and the key with each pair of the book.
#[derive(Debug, Drop)]
pub struct BookCheck {
    book: Vec<Pair>,
    answers: Vec<CheckAnswer>,
}

// Clauses see the book, each pair once in the order in which it was learnt, and the answers.
impl Model for BookCheck {
    ghost use Rattle.owner_check.specs.Answers.{Booked};

    ghost Value = { Booked };

    ghost view = { λ c. record { book = c.book.items; answers = c.answers.items } };
}

impl BookCheck {
    /// A check with an empty book. It takes no memory.
    pub fn new(alloc: Global) -> BookCheck
        ensures { result ≡ record { book = []; answers = [] } }
    {
        BookCheck {
            book: Vec::new(alloc),
            answers: Vec::new(alloc),
        }
    }

    /// The pairs of the book, in the order in which they were learnt.
    pub fn book(&self) -> &[Pair]
        ensures { result.now ≡ self.now.book }
    {
        self.book.as_slice()
    }

    /// The answers that the check gave, in order.
    pub fn answers(&self) -> &[CheckAnswer]
        ensures { result.now ≡ self.now.answers }
    {
        self.answers.as_slice()
    }

    // Keeps an ask that failed behind the answers.
    pub(crate) fn keep_failed(
        &mut self,
        alloc: Global,
        name: &[u8],
        key: &[u8; 56],
    ) -> Result<(), AllocError>
        ensures ok { OnOk result
            (self.new ≡ record self.old
            { answers = with_answer self.old.answers name.now key.now Failed }) }
        ensures err { OnErr result (self.new ≡ self.old) }
    {
        keep(alloc, &mut self.answers, name, key, Outcome::Failed)
    }
}

/// So many checks with empty books, as one for each authority that there may be. The only error is want of memory.
pub fn empty_books(alloc: Global, count: usize) -> Result<Vec<BookCheck>, AllocError>
    ensures { IfOk result (λ checks.
        checks.items ≡ replicate count (record { book = []; answers = [] })) }
{
    let mut checks = Vec::with_capacity(alloc, count)?;
    for _ in 0..count {
        checks.push(BookCheck::new(alloc))?;
    }
    Ok(checks)
}

impl OwnerCheck for BookCheck {
    ghost told = { λ c. Some (record { book = c.book; fails = [] }) };

    ghost answers = { λ c. c.answers };

    ghost faults = { λ _. 0 };

    fn ask(&mut self, alloc: Global, name: &[u8], key: &[u8; 56]) -> Result<bool, AskFault> {
        let yes = has(self.book.as_slice(), name, key);
        let outcome = if yes { Outcome::Yes } else { Outcome::No };
        keep(alloc, &mut self.answers, name, key, outcome)?;
        Ok(yes)
    }

    fn learn(&mut self, alloc: Global, name: &[u8], key: &[u8; 56]) -> Result<(), AllocError>
        ensures ok { OnOk result
            (self.new ≡ record self.old { book = with_pair self.old.book name.now key.now }) }
        ensures err { OnErr result (self.new ≡ self.old) }
    {
        enter(alloc, &mut self.book, name, key)
    }

    fn forget(&mut self, name: &[u8], key: &[u8; 56])
        ensures { self.new ≡ record self.old
            { book = without_pair self.old.book name.now key.now } }
    {
        strike(&mut self.book, name, key);
    }
}
