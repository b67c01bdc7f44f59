//! Whether a book has leaves for statements.
ghost use Rattle.std.specs.Prelude.{◌≡◌, [], ◌∷◌};
ghost use Rattle.ar_statement.specs.Claims.{claim_of, text_of};
ghost use Rattle.ar_council.specs.Room.{has_leaves, new_count};

use ar_statement::Statement;
use key_roll::RollBook;

/// How many leaves a statement needs: none where the book holds it.
fn need(book: &RollBook, statement: &Statement) -> u32
    ensures { result ≡ new_count book.now.book (text_of (claim_of statement.now) ∷ []) }
{
    if book.holds(statement) { 0 } else { 1 }
}

/// Whether there is a leaf for the statement, if it needs one.
pub fn has_leaf(book: &RollBook, statement: &Statement) -> bool
    ensures { result ≡ has_leaves book.now.book (text_of (claim_of statement.now) ∷ []) }
{
    need(book, statement) <= book.free()
}

/// Whether there are leaves for two statements, where they need them.
#[tactic(auto, using(crate::proofs::Needs::two_needs))]
pub fn has_leaves(book: &RollBook, first: &Statement, second: &Statement) -> bool
    ensures { result ≡ has_leaves book.now.book
        (text_of (claim_of first.now) ∷ (text_of (claim_of second.now) ∷ [])) }
{
    need(book, first) as u64 + need(book, second) as u64 <= book.free() as u64
}
