ghost use Rattle.std.specs.Prelude.{◌≡◌, ◌+◌, [], Some, OnOk, OnErr};
ghost use Rattle.owner_check.specs.Answers.{ask_number, fails_at};
ghost use Rattle.owner_check.specs.Book.{with_pair, without_pair};

use crate::{AskFault, BookCheck, OwnerCheck};
use std::alloc::{AllocError, Global};
use std::marker::Model;

/// A check that answers by a book of pairs in memory, and fails on demand.
///
/// Its asks are numbered from 1, one that wants memory not counted.
#[derive(Debug, Drop)]
pub struct FailingCheck {
    check: BookCheck,
    fails: Vec<u64>,
    faults: u64,
}

// Clauses see the book with its answers, the numbers of the asks that fail, and how many failed.
impl Model for FailingCheck {
    ghost use Rattle.owner_check.specs.Answers.{Failing};

    ghost Value = { Failing };

    ghost view = { λ c. record { booked = c.check; fails = c.fails.items; faults = c.faults } };
}

impl FailingCheck {
    /// A check with an empty book. Its asks of a number in `fails`, counted from 1, fail. It takes no memory.
    pub fn new(alloc: Global, fails: Vec<u64>) -> FailingCheck
        ensures { result ≡ record {
          booked = record { book = []; answers = [] };
          fails = fails.items;
          faults = 0;
        } }
    {
        FailingCheck {
            check: BookCheck::new(alloc),
            fails,
            faults: 0,
        }
    }

    /// The check without its failing numbers: its book, and the answers that it gave in order.
    pub fn check(&self) -> &BookCheck
        ensures { result.now ≡ self.now.booked }
    {
        &self.check
    }

    // Whether the next ask is one that is to fail.
    fn is_due(&self) -> bool
        ensures { result ≡ fails_at self.now.fails (ask_number self.now.booked.answers) }
    {
        let number = self.check.answers().len() as u64 + 1;
        self.fails.contains(&number)
    }
}

impl OwnerCheck for FailingCheck {
    ghost told = { λ c. Some (record { book = c.booked.book; fails = c.fails }) };

    ghost answers = { λ c. c.booked.answers };

    ghost faults = { λ c. c.faults };

    fn ask(&mut self, alloc: Global, name: &[u8], key: &[u8; 56]) -> Result<bool, AskFault> {
        if self.is_due() {
            self.check.keep_failed(alloc, name, key)?;
            self.faults = self.faults.saturating_add(1);
            return Err(AskFault::Failed);
        }
        self.check.ask(alloc, name, key)
    }

    fn learn(&mut self, alloc: Global, name: &[u8], key: &[u8; 56]) -> Result<(), AllocError>
        ensures ok { OnOk result
            (self.new ≡ record self.old {
              booked = record self.old.booked
                  { book = with_pair self.old.booked.book name.now key.now };
            }) }
        ensures err { OnErr result (self.new ≡ self.old) }
    {
        self.check.learn(alloc, name, key)
    }

    fn forget(&mut self, name: &[u8], key: &[u8; 56])
        ensures { self.new ≡ record self.old {
          booked = record self.old.booked
              { book = without_pair self.old.booked.book name.now key.now };
        } }
    {
        self.check.forget(name, key);
    }
}
