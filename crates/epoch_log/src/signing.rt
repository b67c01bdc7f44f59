//! Statements get their leaves.
ghost use Rattle.std.specs.Prelude.{◌≡◌, ◌≤◌, ◌<◌, ◌+◌, [], ◌∷◌, Ok, Err, IfErr, IsOk, OnOk, false};
ghost use Rattle.ar_council.specs.Room.{HasRoom};
ghost use Rattle.ar_statement.specs.Claims.{claim_of, text_of};
ghost use Rattle.key_roll.specs.Book.{IsRollBook};
ghost use Rattle.key_roll.specs.Entry.{after_entry, entered};
ghost use Rattle.key_roll.specs.Rolls.{is_roll};
ghost use Rattle.epoch_log.specs.Answers.{first_entered};

use ar_council::{has_leaf, has_leaves};
use ar_statement::Statement;
use key_roll::{BookFault, RollBook, RollDue};
use std::alloc::Global;

/// That there is a leaf for the statement, if it needs one; it is `Spent` exactly where there is none.
#[tactic(auto, using(crate::proofs::Leaves::leaves_left))]
pub(crate) fn leaf_for(book: &RollBook, statement: &Statement) -> Result<(), BookFault>
    requires sound { IsRollBook book.now.book }
    requires plain { is_roll (text_of (claim_of statement.now)) ≡ false }
    ensures room { OnOk result (HasRoom book.now.book (text_of (claim_of statement.now) ∷ [])) }
    ensures some { OnOk result (IsOk (entered book.now.book (text_of (claim_of statement.now)))) }
    ensures none { IfErr result (λ fault.
        entered book.now.book (text_of (claim_of statement.now)) ≡ Err fault) }
{
    if has_leaf(book, statement) {
        Ok(())
    } else {
        Err(BookFault::Spent)
    }
}

/// Gives a statement its leaf. There is one for it, and room in the book.
pub(crate) fn sign(alloc: Global, book: &mut RollBook, statement: &Statement) -> RollDue
    requires plain { is_roll (text_of (claim_of statement.now)) ≡ false }
    requires leaf { HasRoom book.old.book (text_of (claim_of statement.now) ∷ []) }
    requires room { 0 < book.old.room }
    ensures due { entered book.old.book (text_of (claim_of statement.now)) ≡ Ok result }
    ensures book { book.new.book ≡ after_entry book.old.book (text_of (claim_of statement.now)) }
    ensures room { book.old.room ≤ book.new.room + 1 }
{
    match book.enter(alloc, statement) {
        Ok(due) => due,
        Err(_) => unreachable!(),
    }
}

/// That there are leaves for two statements, where they need them; it is `Spent` exactly where there are not.
#[tactic(auto, using(crate::proofs::Leaves::leaves_for_two))]
pub(crate) fn leaves_for(
    book: &RollBook,
    first: &Statement,
    second: &Statement,
) -> Result<(), BookFault>
    requires sound { IsRollBook book.now.book }
    requires plain { is_roll (text_of (claim_of first.now)) ≡ false }
    ensures room { OnOk result
        (HasRoom book.now.book
        (text_of (claim_of first.now) ∷ (text_of (claim_of second.now) ∷ []))) }
    ensures some { OnOk result
        (IsOk (first_entered book.now.book (text_of (claim_of first.now))
        (text_of (claim_of second.now)))) }
    ensures none { IfErr result (λ fault.
        first_entered book.now.book (text_of (claim_of first.now))
        (text_of (claim_of second.now)) ≡ Err fault) }
{
    if has_leaves(book, first, second) {
        Ok(())
    } else {
        Err(BookFault::Spent)
    }
}
