//! The check of an authority that is kept.

ghost use Rattle.std.specs.Prelude.{◌≡◌, [], Some, if◌then◌else◌, OnErr, OnOk};
ghost use Rattle.owner_check.specs.Answers.{with_answer};
ghost use Rattle.owner_check.specs.Book.{has_pair, is_of};
ghost use Rattle.owner_check.specs.declared.answer.Outcome.TheVariants.{No, Yes};

use ar_base::Items;
use owner_check::{AskFault, BookCheck, CheckAnswer, Outcome, OwnerCheck, Pair};
use std::alloc::{AllocError, Global};
use std::marker::Model;

/// A check that answers by a book of pairs and never fails, as `BookCheck` does, and can let go of the answers that it gave: so an
/// authority keeps no more of what it was asked than its book.
#[derive(Debug, Drop)]
pub(crate) struct ForgetfulCheck {
    // It is asked nothing: its book alone is looked at.
    lessons: BookCheck,
    answers: Vec<CheckAnswer>,
}

// Clauses see the book, each pair once in the order in which it was learnt, and the answers that it did not let go.
impl Model for ForgetfulCheck {
    ghost use Rattle.owner_check.specs.Answers.{Booked};

    ghost Value = { Booked };

    ghost view = { λ c. record { book = c.lessons.book; answers = c.answers.items } };
}

/// Whether a pair is of this name and this key.
fn is_of(pair: &Pair, name: &[u8], key: &[u8; 56]) -> bool
    ensures { result ≡ is_of name.now key.now pair.now }
{
    pair.name.as_slice() == name && pair.key == *key
}

/// Whether the book has the name with the key.
fn has(book: &[Pair], name: &[u8], key: &[u8; 56]) -> bool
    ensures { result ≡ has_pair book.now name.now key.now }
{
    book.iter().any(|pair| is_of(pair, name, key))
}

/// Keeps behind the other answers that the name has the key, or that it has it not.
fn keep(
    alloc: Global,
    answers: &mut Vec<CheckAnswer>,
    name: &[u8],
    key: &[u8; 56],
    yes: bool,
) -> Result<(), AllocError>
    ensures ok { OnOk result (answers.new.items
        ≡ with_answer answers.old.items name.now key.now (if yes then Yes else No)) }
    ensures err { OnErr result (answers.new.items ≡ answers.old.items) }
{
    let name = Items::from_vec(name.to_vec(alloc)?);
    let pair = Pair { name, key: *key };
    let outcome = if yes { Outcome::Yes } else { Outcome::No };
    answers.push(CheckAnswer { pair, outcome })?;
    Ok(())
}

impl ForgetfulCheck {
    /// A check with an empty book. It takes no memory.
    pub(crate) fn new(alloc: Global) -> ForgetfulCheck
        ensures { result ≡ record { book = []; answers = [] } }
    {
        ForgetfulCheck {
            lessons: BookCheck::new(alloc),
            answers: Vec::new(alloc),
        }
    }

    /// Lets go of the answers that it gave. It takes no memory.
    pub(crate) fn let_go(&mut self)
        ensures { self.new ≡ record self.old { answers = [] } }
    {
        self.answers.clear();
    }
}

impl OwnerCheck for ForgetfulCheck {
    ghost told = { λ c. Some (record { book = c.book; fails = [] }) };

    ghost answers = { λ c. c.answers };

    ghost faults = { λ _. 0 };

    fn ask(&mut self, alloc: Global, name: &[u8], key: &[u8; 56]) -> Result<bool, AskFault> {
        let yes = has(self.lessons.book(), name, key);
        keep(alloc, &mut self.answers, name, key, yes)?;
        Ok(yes)
    }

    fn learn(&mut self, alloc: Global, name: &[u8], key: &[u8; 56]) -> Result<(), AllocError> {
        self.lessons.learn(alloc, name, key)
    }

    fn forget(&mut self, name: &[u8], key: &[u8; 56]) {
        self.lessons.forget(name, key);
    }
}
