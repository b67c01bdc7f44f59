//! Laws on books, over the definitions alone: each is the contract of a function that does nothing.

ghost use Rattle.std.specs.Prelude.{◌≡◌, ◌++◌, ◌<◌, ◌^◌, ◌==◌, ◌⊎◌, ℕ, List, None, Some, Ok, false, true, Contains};
ghost use Rattle.ar_statement.specs.Claims.{Claim, kind_of, roll, text_of};
ghost use Rattle.ar_statement.specs.Ranges.{IsHeld};
ghost use Rattle.ar_statement.specs.declared.party.Party.{Party};
ghost use Rattle.ar_base.specs.Places.{place_of};
ghost use Rattle.key_roll.specs.Book.{RollBook, IsRollBook, last_generation, texts_of};
ghost use Rattle.key_roll.specs.Due.{DueParts};
ghost use Rattle.key_roll.specs.Entry.{LeafServes, after_entry, due_of, entered, rolled, with_roll};
ghost use Rattle.key_roll.specs.Later.{IsLaterBook, IsServed};
ghost use Rattle.key_roll.specs.Rolls.{is_roll, named_generation};
ghost use Rattle.key_roll.specs.declared.signed.SignedText.{SignedText};

use ar_statement::laws::a_text_is_of_one_statement;

/// No generation's leaf serves two texts.
pub fn no_leaf_serves_two_texts()
    ensures { (book : RollBook) (generation leaf : ℕ) (first second : List ℕ) → IsRollBook book
        → LeafServes book generation leaf first → LeafServes book generation leaf second
        → first ≡ second }
{}

/// No generation's leaf serves two statements, of all that the types can hold.
pub fn no_leaf_serves_two_statements()
    ensures { (book : RollBook) (generation leaf : ℕ) (first second : Claim) → IsRollBook book
        → IsHeld first → IsHeld second
        → LeafServes book generation leaf (text_of first)
        → LeafServes book generation leaf (text_of second)
        → first ≡ second }
{
    a_text_is_of_one_statement()
}

/// The text of a statement is a Roll's exactly where the statement is a Roll, and names its generation.
pub fn texts_tell_rolls()
    ensures kind { (claim : Claim) → is_roll (text_of claim) ≡ (kind_of claim == 10) }
    ensures named { (signer : Party) (generation : ℕ) (key : List ℕ) → generation < 2 ^ 32
        → named_generation (text_of (roll signer generation key)) ≡ generation }
{}

/// What a leaf serves it serves in each later book: a text keeps its generation and leaf over entries and
/// rolls.
pub fn a_text_keeps_its_leaf()
    ensures { (book later : RollBook) (more : List SignedText) (generation leaf : ℕ) (text : List ℕ)
        → later.leaves ≡ book.leaves → later.list ≡ book.list ++ more
        → LeafServes book generation leaf text → LeafServes later generation leaf text }
{}

/// Entries keep a book sound, also where the book holds the text or has no room for it.
pub fn entries_keep_a_book_sound()
    ensures { (book : RollBook) (text : List ℕ) → IsRollBook book
        → (is_roll text ≡ false) ⊎ Contains (texts_of book) text
        → IsRollBook (after_entry book text) }
{}

/// A Roll that names the newest generation is new to a book, and a roll keeps the book sound.
pub fn rolls_keep_a_book_sound()
    ensures new { (book : RollBook) (text : List ℕ) → IsRollBook book → is_roll text ≡ true
        → named_generation text ≡ book.newest → place_of (texts_of book) text ≡ None }
    ensures sound { (book : RollBook) (text : List ℕ) → IsRollBook book → is_roll text ≡ true
        → named_generation text ≡ book.newest → book.newest < last_generation
        → IsRollBook (with_roll book text) }
{}

/// A book only grows, by entries and rolls; so what a leaf serves it serves in each later book.
pub fn books_only_grow()
    ensures entry { (book : RollBook) (text : List ℕ) → IsLaterBook book (after_entry book text) }
    ensures roll { (book : RollBook) (text : List ℕ) → IsLaterBook book (with_roll book text) }
    ensures on { (book later last : RollBook) → IsLaterBook book later → IsLaterBook later last
        → IsLaterBook book last }
    ensures serves { (book later : RollBook) (generation leaf : ℕ) (text : List ℕ)
        → IsLaterBook book later
        → LeafServes book generation leaf text → LeafServes later generation leaf text }
{}

/// What is due for a text is the leaf that serves it: in the book behind an entry or a Roll, in a book that holds the text,
/// and in each later book.
pub fn what_is_due_is_served()
    ensures entry { (book : RollBook) (text : List ℕ) (due : DueParts) → entered book text ≡ Ok due
        → IsServed (after_entry book text) due }
    ensures roll { (book : RollBook) (text : List ℕ) (due : DueParts) → is_roll text ≡ true
        → rolled book text ≡ Ok due
        → IsServed (with_roll book text) due }
    ensures held { (book : RollBook) (text : List ℕ) (due : DueParts) → due_of book text ≡ Some due
        → IsServed book due × (due.text ≡ text) }
    ensures later { (book later : RollBook) (due : DueParts) → IsLaterBook book later
        → IsServed book due → IsServed later due }
{}

/// What a leaf serves is due in each sound book, so that what is due for a text stays due while the book grows.
pub fn what_is_due_stays_due()
    ensures served { (book : RollBook) (due : DueParts) → IsRollBook book → IsServed book due
        → due_of book due.text ≡ Some due }
    ensures stays { (book later : RollBook) (text : List ℕ) (due : DueParts) → IsRollBook later
        → IsLaterBook book later
        → due_of book text ≡ Some due → due_of later text ≡ Some due }
{}
