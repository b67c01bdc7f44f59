ghost use Rattle.std.specs.Prelude.{◌≡◌, ◌<◌, ◌≤◌, ◌+◌, ◌⊎◌, Some, None, Err, Contains, OnOk, OnErr, IfSome, false, is_some, true, length, max, slice_get, ◌↔◌};
ghost use Rattle.ar_base.specs.Gives.{GivesOrWants};
ghost use Rattle.ar_base.specs.Places.{place_of};
ghost use Rattle.ar_statement.specs.Claims.{claim_of, text_of};
ghost use Rattle.key_roll.specs.Book.{IsRollBook, empty_book, texts_of};
ghost use Rattle.key_roll.specs.Entry.{after_entry, announced, due_at, due_of, entered, entered_new, leaf_of, roll_text, rolled, with_roll, with_text};
ghost use Rattle.key_roll.specs.Rolls.{is_roll, named_generation, plain_count};
ghost use Rattle.ar_statement.specs.declared.fault.BookFault.TheVariants as book_fault;
ghost use Rattle.key_roll.specs.declared.fault.RollFault.TheVariants as roll_fault;

use crate::entries::{is_roll, leaf_number, place_of, plain_count};
use crate::{BookFault, RollDue, RollFault, SignedText, forgo};
use ar_statement::{Party, Statement, Text};
use lms_tree::LmsPublic;
use std::alloc::{AllocError, Global};
use std::marker::Model;

/// The last generation.
pub const LAST_GENERATION: u32 = 999;

/// The statements that the leaves of a party's keys serve, in the order in which they were entered, each
/// with the generation of its key.
///
/// The keys of a party belong to one book alone, and have signed nothing before the book was made. The
/// last leaf of each key is kept for the Roll that announces the next one. Each call that looks for a
/// statement compares its text with those of the book in order.
#[derive(Debug, Drop)]
pub struct RollBook {
    list: Vec<SignedText>,
    leaves: u32,
    newest: u32,
    // For how many more statements memory was taken.
    room: usize,
}

// Clauses see the leaves, the newest generation and the list, and the room beside them.
impl Model for RollBook {
    ghost use Rattle.std.specs.Prelude.{◌+◌, ◌≤◌, vec_len, vec_capacity};
    ghost use Rattle.key_roll.specs.Book.{IsRollBook, Kept};

    ghost Value = { Kept };

    ghost view = { λ b. record {
      book = record {
        leaves = b.leaves;
        newest = b.newest;
        list = b.list.items;
      };
      room = b.room;
    } };

    ghost invariant = { λ b. IsRollBook
        (record { leaves = b.leaves; newest = b.newest; list = b.list.items })
        × (vec_len b.list + b.room ≤ vec_capacity b.list) };
}

impl RollBook {
    /// The book of a party whose keys have this many leaves each, with generation 0 as the newest and no
    /// statement yet. It takes no memory.
    pub fn new(alloc: Global, leaves: u32) -> RollBook
        requires { 0 < leaves }
        ensures { result ≡ record { book = empty_book leaves; room = 0 } }
    {
        RollBook {
            list: Vec::new(alloc),
            leaves,
            newest: 0,
            room: 0,
        }
    }

    /// Takes memory for `n` more statements, where there is room for fewer: the next `n` entries then do
    /// not answer `Memory`. The only error is want of memory, and then the book is as it was. The
    /// allocator is the one that the book was made with.
    pub fn reserve(&mut self, _alloc: Global, n: usize) -> Result<(), AllocError>
        ensures ok { OnOk result (self.new ≡ record self.old { room = max self.old.room n }) }
        ensures err { OnErr result (self.new ≡ self.old) }
    {
        self.list.reserve(n)?;
        self.room = self.room.max(n);
        Ok(())
    }

    /// Gives the statement its generation and leaf: those that it has, and to a new one the next leaf of
    /// the newest generation. What is due then must be signed or forgone.
    ///
    /// The statement is no Roll, or the book holds it. It is `Spent` exactly where the statement is new
    /// and each leaf of the newest generation but the last serves another, and `Memory` only where the
    /// statement is new and no room was reserved for it. After an error the book is as it was. The
    /// allocator is the one that the book was made with.
    pub fn enter(&mut self, _alloc: Global, statement: &Statement) -> Result<RollDue, BookFault>
        requires { (is_roll (text_of (claim_of statement.now)) ≡ false)
            ⊎ Contains (texts_of self.old.book) (text_of (claim_of statement.now)) }

        // The generation and the leaf, and when none is left.
        ensures answer { GivesOrWants book_fault.Memory (λ due.
            due) result (entered self.old.book (text_of (claim_of statement.now))) }
        ensures spent { result ≡ Err book_fault.Spent
            ↔ ((plain_count self.old.book.newest self.old.book.list + 1 ≡ self.old.book.leaves)
            × ¬ Contains (texts_of self.old.book) (text_of (claim_of statement.now))) }

        // When memory may be wanting.
        ensures memory { result ≡ Err book_fault.Memory → (self.old.room ≡ 0)
            × ¬ Contains (texts_of self.old.book) (text_of (claim_of statement.now)) }

        // What it leaves.
        ensures ok { OnOk result
            (self.new.book ≡ after_entry self.old.book (text_of (claim_of statement.now))) }
        ensures room { self.old.room ≤ self.new.room + 1 }
        ensures err { OnErr result (self.new ≡ self.old) }
    {
        let text = Text::of(statement);
        match place_of(&self.list, &text) {
            Some(place) => Ok(self.due(place)),
            None => self.append(text),
        }
    }

    /// Enters the Roll of this party, which announces its next key: it has the last leaf of the newest
    /// generation, and the next generation is the newest then. It needs no free leaf.
    ///
    /// It is `Last` exactly where the newest generation is 999, and `Memory` only where no room was
    /// reserved. After an error the book is as it was. The allocator is the one that the book was made
    /// with.
    pub fn roll(
        &mut self,
        _alloc: Global,
        party: Party,
        next: &LmsPublic,
    ) -> Result<RollDue, RollFault>
        // The generation and the leaf, and when there is no next.
        ensures answer { GivesOrWants roll_fault.Memory (λ due.
            due) result (announced self.old.book party next.now) }
        // When memory may be wanting.
        ensures memory { result ≡ Err roll_fault.Memory → self.old.room ≡ 0 }
        // What it leaves.
        ensures ok { OnOk result
            (self.new.book ≡ with_roll self.old.book
            (roll_text party self.old.book.newest next.now)) }
        ensures room { self.old.room ≤ self.new.room + 1 }
        ensures err { OnErr result (self.new ≡ self.old) }
    {
        let statement = Statement::Roll {
            signer: party,
            generation: self.newest,
            key: next.bytes(),
        };
        self.announce(Text::of(&statement))
    }

    // Gives a new text the next leaf of the newest generation.
    fn append(&mut self, text: Text) -> Result<RollDue, BookFault>
        requires new { place_of (texts_of self.old.book) text ≡ None }
        requires plain { is_roll text ≡ false }
        ensures answer { GivesOrWants book_fault.Memory (λ due.
            due) result (entered_new self.old.book text) }
        ensures spent { result ≡ Err book_fault.Spent
            ↔ (plain_count self.old.book.newest self.old.book.list + 1 ≡ self.old.book.leaves) }
        ensures memory { result ≡ Err book_fault.Memory → self.old.room ≡ 0 }
        ensures ok { OnOk result (self.new.book ≡ with_text self.old.book text) }
        ensures room { self.old.room ≤ self.new.room + 1 }
        ensures err { OnErr result (self.new ≡ self.old) }
    {
        let leaf = plain_count(&self.list, self.newest);
        if leaf + 1 >= self.leaves as usize {
            return Err(BookFault::Spent);
        }
        self.list.reserve(1)?;
        let entry = SignedText {
            generation: self.newest,
            text,
        };
        self.list.push_reserved(entry);
        self.room = self.room.saturating_sub(1);
        Ok(RollDue::new(self.newest, leaf as u32, text, self.leaves))
    }

    // Enters a text as the Roll of the newest generation, behind which is the next.
    fn announce(&mut self, text: Text) -> Result<RollDue, RollFault>
        requires roll { is_roll text ≡ true }
        requires named { named_generation text ≡ self.old.book.newest }
        ensures answer { GivesOrWants roll_fault.Memory (λ due. due) result
            (rolled self.old.book text) }
        ensures memory { result ≡ Err roll_fault.Memory → self.old.room ≡ 0 }
        ensures ok { OnOk result (self.new.book ≡ with_roll self.old.book text) }
        ensures room { self.old.room ≤ self.new.room + 1 }
        ensures err { OnErr result (self.new ≡ self.old) }
    {
        if self.newest == LAST_GENERATION {
            return Err(RollFault::Last);
        }
        self.list.reserve(1)?;
        let generation = self.newest;
        self.list.push_reserved(SignedText { generation, text });
        self.room = self.room.saturating_sub(1);
        self.newest += 1;
        Ok(RollDue::new(generation, self.leaves - 1, text, self.leaves))
    }

    // What is due for the entry at a place.
    fn due(&self, place: usize) -> RollDue
        requires { place < length self.now.book.list }
        ensures { due_at self.now.book place ≡ Some result }
    {
        let entry = self.list[place];
        if is_roll(&entry.text) {
            return RollDue::new(entry.generation, self.leaves - 1, entry.text, self.leaves);
        }
        let count = plain_count(&self.list[..place], entry.generation);
        let leaf = leaf_number(count, self.leaves);
        RollDue::new(entry.generation, leaf, entry.text, self.leaves)
    }

    /// The leaf of the statement at this place of the list, from 0.
    pub fn leaf_at(&self, place: usize) -> u32
        requires { place < length self.now.book.list }
        ensures { IfSome (slice_get self.now.book.list place)
            (λ s. result ≡ leaf_of self.now.book place s) }
    {
        let due = self.due(place);
        let leaf = due.leaf;
        forgo(due);
        leaf
    }

    /// Whether the book holds the statement, at whatever generation.
    pub fn holds(&self, statement: &Statement) -> bool
        ensures { result ≡ is_some
            (place_of (texts_of self.now.book) (text_of (claim_of statement.now))) }
    {
        place_of(&self.list, &Text::of(statement)).is_some()
    }

    /// What is due for a statement that the book holds: the generation and leaf that it has. It is `None` exactly
    /// where the book does not hold the statement.
    pub fn held(&self, statement: &Statement) -> Option<RollDue>
        ensures { result ≡ due_of self.now.book (text_of (claim_of statement.now)) }
    {
        match place_of(&self.list, &Text::of(statement)) {
            Some(place) => Some(self.due(place)),
            None => None,
        }
    }

    /// The newest generation.
    pub fn generation(&self) -> u32
        ensures { result ≡ self.now.book.newest }
    {
        self.newest
    }

    /// How many statements more the newest generation has a leaf for, beside its last, which is kept for its Roll.
    pub fn free(&self) -> u32
        ensures { plain_count self.now.book.newest self.now.book.list + result + 1
            ≡ self.now.book.leaves }
    {
        let count = plain_count(&self.list, self.newest);
        self.leaves - leaf_number(count, self.leaves) - 1
    }

    /// The statements that have a leaf, in the order of entry.
    pub fn list(&self) -> &[SignedText]
        ensures list { result.now ≡ self.now.book.list }
        ensures sound { IsRollBook self.now.book }
    {
        &self.list
    }
}
