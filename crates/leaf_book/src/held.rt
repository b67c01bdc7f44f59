use std::collections::LinkedList;

/// What a seat knows and has done. It stands in the proofs alone: no value of it is made.
pub struct Held {
    /// How many leaves the book has.
    pub leaves: u32,
    /// The seat's part of 2^32; 0 where it was joined into another.
    pub share: u64,
    /// The leaves that the seat drew, with those of the seats that were joined into it.
    pub drawn: LinkedList<u64>,
    /// How often the seat added to the word where no leaf was left.
    pub over: u64,
    /// The word is known to be at least this.
    pub seen: u64,
}
