//! Laws on the rule of a book, over the definitions alone: each is the contract of a function with an
//! empty body. The rule holds between any two steps of any threads, for any number of seats.
ghost use Rattle.std.specs.Prelude.{◌≡◌, ◌≢◌, ◌<◌, ◌≤◌, ◌^◌, ℕ, List, [], min, Contains};
ghost use mathlib.Core.Option.{some};
ghost use lib.ListN.{get_elem?};
ghost use Rattle.ar_seats.specs.Shares.{whole};
ghost use Rattle.ar_seats.specs.Numbers.{HasEachBelow, times};
ghost use Rattle.leaf_book.specs.Book.{AreApart};
ghost use Rattle.leaf_book.specs.Rule.{Keeps};
ghost use Rattle.leaf_book.specs.declared.held.Held.{Held};

/// No leaf is in the lists of two seats.
pub fn no_leaf_is_drawn_by_two_seats()
    ensures { (leaves word : ℕ) (seats : List Held) (one two : ℕ) (seat other : Held)
        → Keeps leaves word seats → one ≢ two
        → get_elem? seats one ≡ some seat → get_elem? seats two ≡ some other
        → AreApart seat.drawn other.drawn }
{}

/// No leaf is twice in a seat's list.
pub fn no_leaf_is_drawn_twice()
    ensures { (leaves word : ℕ) (seats : List Held) (place : ℕ) (seat : Held) (leaf : ℕ)
        → Keeps leaves word seats → get_elem? seats place ≡ some seat
        → times leaf seat.drawn ≤ 1 }
{}

/// A leaf that a seat drew is one of the book's, and the word has passed it.
pub fn a_leaf_that_is_drawn_is_below_the_word()
    ensures { (leaves word : ℕ) (seats : List Held) (place : ℕ) (seat : Held) (leaf : ℕ)
        → Keeps leaves word seats → get_elem? seats place ≡ some seat
        → Contains seat.drawn leaf → (leaf < leaves) × (leaf < word) }
{}

/// Each leaf that the word has passed is in the list of some seat.
pub fn each_leaf_below_the_word_is_drawn()
    ensures { (leaves word : ℕ) (seats : List Held) (leaf : ℕ)
        → Keeps leaves word seats → leaf < leaves → leaf < word
        → (place : ℕ) × (seat : Held) × (get_elem? seats place ≡ some seat)
        × Contains seat.drawn leaf }
{}

/// The word stays far from its end, so that an addition never wraps.
pub fn the_word_never_wraps()
    ensures { (leaves word : ℕ) (seats : List Held) → Keeps leaves word seats → word < 2 ^ 33 }
{}

/// A seat with the whole share has all leaves that were drawn, and every other seat was joined away.
pub fn a_seat_with_the_whole_share_is_the_only_one()
    ensures leaves { (leaves word : ℕ) (seats : List Held) (place : ℕ) (seat : Held)
        → Keeps leaves word seats → get_elem? seats place ≡ some seat → seat.share ≡ whole
        → HasEachBelow (min word leaves) seat.drawn }
    ensures others { (leaves word : ℕ) (seats : List Held) (place there : ℕ) (seat other : Held)
        → Keeps leaves word seats → get_elem? seats place ≡ some seat → seat.share ≡ whole
        → get_elem? seats there ≡ some other → there ≢ place
        → (other.share ≡ 0) × (other.drawn ≡ []) }
{}
