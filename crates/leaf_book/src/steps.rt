//! The rule of a book's table, and what each of its atomic steps tells.

use crate::held::Held;
use atomic_table::{Join, Play, Split, TableRule};

/// The rule of a table with the number of the book's leaves.
pub(crate) struct LeafRule;

impl TableRule<(), Held, u32> for LeafRule {
    ghost use Rattle.leaf_book.specs.Rule.{IsKept};
    ghost use Rattle.leaf_book.specs.Steps.{first_view};

    ghost holds = { IsKept };

    ghost first = { first_view };
}

/// A load before a leaf is drawn.
pub(crate) struct Look;

impl Play<(), Held> for Look {
    ghost use Rattle.leaf_book.specs.Steps.{looks};

    ghost then = { λ step. looks };
}

/// One addition to the word.
pub(crate) struct Draw;

impl Play<(), Held> for Draw {
    ghost use Rattle.leaf_book.specs.Steps.{draws};

    ghost then = { λ step. draws };
}

/// A load behind a join.
pub(crate) struct Compare;

impl Play<(), Held> for Compare {
    ghost use Rattle.leaf_book.specs.Steps.{compares};

    ghost then = { λ step. compares };
}

/// How a view is split.
pub(crate) struct Halve;

impl Split<Held> for Halve {
    ghost use Rattle.leaf_book.specs.Steps.{left_view, given_view};

    ghost left = { left_view };

    ghost right = { given_view };
}

/// How two views are joined.
pub(crate) struct Unite;

impl Join<Held> for Unite {
    ghost use Rattle.leaf_book.specs.Steps.{joined_view, spent_view};

    ghost both = { joined_view };

    ghost spent = { spent_view };
}
