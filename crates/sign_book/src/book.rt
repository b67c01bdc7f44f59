ghost use Rattle.std.specs.Prelude.{◌≡◌, ◌<◌, ◌-◌, ◌↔◌, [], length, max, None, Err, Contains, IsTrue, OnOk, OnErr};
ghost use Rattle.ar_base.specs.Gives.{GivesUnless};
ghost use Rattle.ar_statement.specs.Claims.{claim_of, text_of};
ghost use Rattle.sign_book.specs.Book.{IsSignBook};
ghost use Rattle.sign_book.specs.Entry.{after_entry, due_at, due_of, next_leaf, with_text};
ghost use Rattle.ar_base.specs.Places.{place_of};
ghost use Rattle.ar_statement.specs.declared.fault.BookFault.TheVariants.{Memory, Spent};

use crate::places::place_of;
use crate::{BookFault, Due};
use ar_statement::{Statement, Text};
use std::alloc::{AllocError, Global};
use std::marker::Model;

/// The statements that the leaves of one key serve, in the order of their leaves.
///
/// A key belongs to one book alone, and has signed nothing before the book was made. Each call that
/// looks for a statement compares its text with those of the book in order, which are at most as many
/// as there are leaves.
#[derive(Debug, Drop)]
pub struct SignBook {
    texts: Vec<Text>,
    leaves: u32,
    // For how many more texts memory was taken.
    room: usize,
}

// Clauses see the texts, the leaves and the room.
impl Model for SignBook {
    ghost use Rattle.std.specs.Prelude.{◌+◌, ◌≤◌, vec_len, vec_capacity};
    ghost use Rattle.sign_book.specs.Book.{Book, IsSignBook};

    ghost Value = { Book };

    ghost view = { λ book. record {
      texts = book.texts.items;
      leaves = book.leaves;
      room = book.room;
    } };

    ghost invariant = { λ book. IsSignBook (record {
      texts = book.texts.items;
      leaves = book.leaves;
      room = book.room;
    })
        × (vec_len book.texts + book.room ≤ vec_capacity book.texts) };
}

impl SignBook {
    /// The book of a key's first leaves, so many, or of all: none serves a statement yet. It takes no
    /// memory.
    pub fn new(alloc: Global, leaves: u32) -> SignBook
        ensures { result ≡ record { texts = []; leaves = leaves; room = 0 } }
    {
        SignBook {
            texts: Vec::new(alloc),
            leaves,
            room: 0,
        }
    }

    /// Takes memory for `n` more statements, where there is room for fewer: the next `n` entries then
    /// do not answer `Memory`. The only error is want of memory, and then the book is as it was. The
    /// allocator is the one that the book was made with.
    pub fn reserve(&mut self, _alloc: Global, n: usize) -> Result<(), AllocError>
        ensures ok { OnOk result (self.new ≡ record self.old { room = max self.old.room n }) }
        ensures err { OnErr result (self.new ≡ self.old) }
    {
        self.texts.reserve(n)?;
        self.room = self.room.max(n);
        Ok(())
    }

    /// Gives the statement its leaf: the one that it has, and to a new one the next. What is due then
    /// must be signed.
    ///
    /// It is `Spent` exactly where each leaf serves another statement, and `Memory` only where the
    /// statement is new and no room was reserved for it. After an error the book is as it was. The
    /// allocator is the one that the book was made with.
    pub fn enter(&mut self, _alloc: Global, statement: &Statement) -> Result<Due, BookFault>
        // The leaf, and when none is left.
        ensures answer { GivesUnless Memory (λ due.
            due) result (due_of self.old (text_of (claim_of statement.now))) }
        ensures spent { result ≡ Err Spent ↔ ((length self.old.texts ≡ self.old.leaves)
            × ¬ Contains self.old.texts (text_of (claim_of statement.now))) }

        // When memory may be wanting.
        ensures memory { result ≡ Err Memory → (self.old.room ≡ 0)
            × ¬ Contains self.old.texts (text_of (claim_of statement.now)) }

        // What it leaves.
        ensures ok { OnOk result
            (self.new ≡ after_entry self.old (text_of (claim_of statement.now))) }
        ensures err { OnErr result (self.new ≡ self.old) }
    {
        let text = Text::of(statement);
        match place_of(&self.texts, &text) {
            Some(place) => Ok(Due::new(place as u32, text, self.leaves)),
            None => self.append(text),
        }
    }

    // Gives a new text the next leaf.
    fn append(&mut self, text: Text) -> Result<Due, BookFault>
        requires { place_of self.old.texts text ≡ None }
        ensures answer { GivesUnless Memory (λ due.
            due) result (due_at self.old text (next_leaf self.old)) }
        ensures spent { result ≡ Err Spent ↔ (length self.old.texts ≡ self.old.leaves) }
        ensures memory { result ≡ Err Memory → self.old.room ≡ 0 }
        ensures ok { OnOk result (self.new ≡ with_text self.old text) }
        ensures err { OnErr result (self.new ≡ self.old) }
    {
        let leaf = self.texts.len() as u32;
        if leaf == self.leaves {
            return Err(BookFault::Spent);
        }
        self.texts.reserve(1)?;
        self.texts.push_reserved(text);
        self.room = self.room.saturating_sub(1);
        Ok(Due::new(leaf, text, self.leaves))
    }

    /// How many leaves the book has, the first ones of its key.
    pub fn leaves(&self) -> u32
        ensures { result ≡ self.now.leaves }
    {
        self.leaves
    }

    /// How many leaves serve no statement yet.
    pub fn free(&self) -> u32
        ensures { result ≡ self.now.leaves - length self.now.texts }
    {
        self.leaves - self.texts.len() as u32
    }

    /// Whether the statement has a leaf.
    pub fn holds(&self, statement: &Statement) -> bool
        ensures { IsTrue result ↔ Contains self.now.texts (text_of (claim_of statement.now)) }
    {
        place_of(&self.texts, &Text::of(statement)).is_some()
    }

    /// The texts of the statements that have a leaf, in the order of their leaves from 0.
    pub fn texts(&self) -> &[Text]
        ensures texts { result.now ≡ self.now.texts }
        ensures sound { IsSignBook self.now }
    {
        &self.texts
    }
}
