ghost use Rattle.std.specs.Prelude.{◌≡◌};

use crate::{audits, follows};
use ar_run::{Answer, Respond};
use arpki_ask::refuse_long;
use std::alloc::{AllocError, Global};

/// What is judged of an input, without a script.
#[derive(Clone, Copy, Debug, PartialEq, Eq)]
pub enum Review {
    /// `audit`: who contradicts himself in signed statements.
    Audit,
    /// `follow`: what a client that remembers answers to confirmations, one after the other.
    Follow,
}

impl Review {
    ghost use Rattle.review.specs.Reviews.{review_named};

    /// The review of this name.
    pub fn of(word: &str) -> Option<Review>
        ensures { result ≡ review_named word.now }
    {
        match word {
            "audit" => Some(Review::Audit),
            "follow" => Some(Review::Follow),
            _ => None,
        }
    }
}

impl Respond for Review {
    ghost use Rattle.review.specs.Answers.{answer_to};

    ghost answer_to = { answer_to };

    fn answer(&self, alloc: Global, input: &[u8]) -> Result<Answer, AllocError> {
        match self {
            Review::Audit => audits::answer(alloc, input),
            Review::Follow => follows::answer(alloc, input),
        }
    }

    fn refuse(&self, alloc: Global) -> Result<Answer, AllocError> {
        refuse_long(alloc)
    }
}
