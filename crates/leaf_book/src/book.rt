ghost use Rattle.std.specs.Prelude.{◌≡◌, ◌<◌, ◌≤◌, ◌↔◌, length, IsOk, IfOk, IfErr, OnErr, Err};
ghost use Rattle.ar_seats.specs.Shares.{whole};
ghost use Rattle.ar_seats.specs.Numbers.{HasEachBelow};
ghost use Rattle.leaf_book.specs.Book.{Draws, FindsNone, AreApart, first_seat, left_seat, given_seat, joined_seat};
ghost use Rattle.ar_seats.specs.declared.split_fault.SplitFault.TheVariants.{Narrow};

use crate::held::Held;
use crate::steps::{Compare, Draw, Halve, LeafRule, Look, Unite};
use crate::{Exhausted, Leaf, LeafSeat, SplitFault};
use ar_seats::Share;
use atomic_table::Table;
use std::alloc::{AllocError, Global};
use std::marker::Model;

/// The leaves of one key, for many threads. It lies in one place, and each thread has a seat.
#[derive(Drop)]
pub struct LeafBook {
    table: Table<(), Held, u32, LeafRule, Global>,
    leaves: u32,
}

// Clauses see which book it is, and how many leaves it has.
impl Model for LeafBook {
    ghost use Rattle.std.specs.Prelude.{◌≡◌};
    ghost use Rattle.leaf_book.specs.Book.{LeafBookParts};

    ghost Value = { LeafBookParts };

    ghost view = { λ book. record { table = book.table.shared.table_id; leaves = book.leaves } };

    ghost invariant = { λ book. (book.table.shared.key ≡ book.leaves)
        × (book.table.shared.table_id.words ≡ 1)
        × (book.table.shared.table_id.slots ≡ 0) };
}

impl LeafBook {
    /// A book of this many leaves, none of which is drawn, and its first seat. The only error is want
    /// of memory.
    pub fn new(alloc: Global, leaves: u32) -> Result<(LeafBook, LeafSeat), AllocError>
        ensures leaves { IfOk result (λ made. made.0.leaves ≡ leaves) }
        ensures seat { IfOk result (λ made. made.1 ≡ first_seat made.0 whole) }
    {
        let (table, seat) = Table::of_words(alloc, &[0], &leaves)?;
        let share = Share::whole();
        Ok((LeafBook { table, leaves }, LeafSeat { seat, share }))
    }

    /// Draws a leaf, which no seat ever got or gets again. It looks first, and then takes one atomic
    /// addition; it takes no lock and does not wait.
    ///
    /// It is `Exhausted` only where a step of this call saw the word past all leaves.
    pub fn draw(&self, seat: &mut LeafSeat) -> Result<Leaf, Exhausted>
        requires { seat.old.book ≡ self.now }
        ensures leaf { IfOk result (λ leaf. Draws seat.old leaf.number seat.new) }
        ensures leaves { IfOk result (λ leaf. leaf.leaves ≡ self.now.leaves) }
        ensures none { IfErr result (λ fault. FindsNone seat.old fault.seen seat.new) }
    {
        let leaves = u64::from(self.leaves);
        let seen = self.table.shared.load::<Look>(&mut seat.seat, 0);
        if seen >= leaves {
            return Err(Exhausted { seen });
        }
        let found = self.table.shared.fetch_add::<Draw>(&mut seat.seat, 0, 1);
        if found >= leaves {
            return Err(Exhausted { seen: found });
        }
        Ok(Leaf::new(found as u32, self.leaves))
    }

    /// Gives a new seat the lesser half of the share, for another thread. It is `Narrow` exactly where
    /// the share is 1, and does not ask for memory as it stands.
    pub fn split(&self, _alloc: Global, seat: &mut LeafSeat) -> Result<LeafSeat, SplitFault>
        requires { seat.old.book ≡ self.now }
        ensures wide { IsOk result ↔ (1 < seat.old.share) }
        ensures narrow { result ≡ Err Narrow ↔ (seat.old.share ≡ 1) }
        ensures left { IfOk result (λ given. seat.new ≡ left_seat seat.old) }
        ensures given { IfOk result (λ given. given ≡ given_seat seat.old) }
        ensures err { OnErr result (seat.new ≡ seat.old) }
    {
        let Some(share) = seat.share.split() else {
            return Err(SplitFault::Narrow);
        };
        let given = self.table.shared.split_seat::<Halve>(&mut seat.seat);
        Ok(LeafSeat { seat: given, share })
    }

    /// Takes in another seat of the book, with its share and its leaves.
    pub fn join(&self, seat: &mut LeafSeat, other: LeafSeat)
        requires own { seat.old.book ≡ self.now }
        requires other { other.book ≡ self.now }
        ensures joined { seat.new ≡ joined_seat seat.old other }
        ensures apart { AreApart seat.old.drawn other.drawn }
    {
        let LeafSeat { seat: given, share } = other;
        self.table.shared.join_seat::<Unite>(&mut seat.seat, given);
        self.table.shared.load::<Compare>(&mut seat.seat, 0);
        seat.share.join(share);
    }

    /// Gives the book up, and answers how many leaves were drawn: the leaves of the seat, which are
    /// the numbers below that, each once.
    pub fn close(self, seat: LeafSeat) -> u64
        requires own { seat.book ≡ self }
        requires all { seat.share ≡ whole }
        ensures count { result ≡ length seat.drawn }
        ensures each { HasEachBelow result seat.drawn }
        ensures most { result ≤ self.leaves }
        ensures exhausted { self.leaves ≤ seat.seen → result ≡ self.leaves }
    {
        let LeafBook { table, leaves } = self;
        let LeafSeat { seat, share: _ } = seat;
        let closed = table.close_with(seat);
        let word = closed.word(0);
        closed.free();
        word.min(u64::from(leaves))
    }
}
