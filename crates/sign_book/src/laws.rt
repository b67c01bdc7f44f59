//! Laws on books, over the definitions alone: each is the contract of a function that does nothing.

ghost use Rattle.std.specs.Prelude.{◌≡◌, ◌<◌, ◌≤◌, ◌↔◌, ℕ, List, [], ◌++◌, length, slice_index_or, Contains, Some, Ok, Err};
ghost use Rattle.ar_statement.specs.Claims.{Claim, text_of};
ghost use Rattle.ar_statement.specs.Ranges.{IsHeld};
ghost use Rattle.sign_book.specs.Book.{Book, IsSignBook};
ghost use Rattle.sign_book.specs.Entry.{after_entry, leaf_of};
ghost use Rattle.sign_book.specs.Run.{DrawnParts, RunParts, after_draw, drawn};
ghost use Rattle.ar_statement.specs.declared.fault.BookFault.TheVariants.{Spent};

use ar_statement::laws::a_text_is_of_one_statement;

/// A book that gave a leaf to a text has the text at the place with the leaf's number, and the leaf
/// is one of the book's.
pub fn a_leaf_is_the_place_of_its_text()
    ensures { (book : Book) (text : List ℕ) (leaf : ℕ) → IsSignBook book
        → leaf_of book text ≡ Ok leaf
        → (leaf < book.leaves) × (leaf < length (after_entry book text).texts)
        × (slice_index_or (after_entry book text).texts leaf [] ≡ text) }
{}

/// No leaf serves two statements, of all that the types can hold: where a book gives one leaf to a statement, and later, with
/// whatever texts behind those that it had then, to a statement again, the two statements are one.
pub fn no_leaf_serves_two_statements()
    ensures { (book later : Book) (more : List (List ℕ)) (first second : Claim) (leaf : ℕ)
        → IsHeld first → IsHeld second
        → leaf_of book (text_of first) ≡ Ok leaf
        → later.texts ≡ (after_entry book (text_of first)).texts ++ more
        → leaf_of later (text_of second) ≡ Ok leaf
        → first ≡ second }
{
    a_text_is_of_one_statement()
}

/// A statement keeps its leaf: a book that gave it one gives it the same again, whatever texts came
/// since, and it stays as it is.
pub fn a_statement_keeps_its_leaf()
    ensures { (book later : Book) (more : List (List ℕ)) (text : List ℕ) (leaf : ℕ)
        → IsSignBook later
        → leaf_of book text ≡ Ok leaf
        → later.texts ≡ (after_entry book text).texts ++ more
        → (leaf_of later text ≡ Ok leaf) × (after_entry later text ≡ later) }
{}

/// No leaf is left exactly where each serves another text.
pub fn a_book_is_spent_exactly_where_it_is_full()
    ensures { (book : Book) (text : List ℕ) → IsSignBook book
        → (leaf_of book text ≡ Err Spent)
        ↔ ((length book.texts ≡ book.leaves) × ¬ Contains book.texts text) }
{}

/// After an entry no text stands twice in the book, and none past its last leaf.
pub fn entries_keep_a_book_sound()
    ensures { (book : Book) (text : List ℕ) (leaf : ℕ) → IsSignBook book
        → leaf_of book text ≡ Ok leaf
        → IsSignBook (after_entry book text) }
{}

/// A leaf that is drawn is one of the run's, and none that is drawn later: what is left begins behind it.
pub fn each_leaf_is_drawn_once()
    ensures { (run : RunParts) (one : DrawnParts) → drawn run ≡ Some one
        → (run.next ≤ one.leaf) × (one.leaf < run.end) × (one.leaf < (after_draw run).next)
        × ((after_draw run).end ≡ run.end) }
{}
