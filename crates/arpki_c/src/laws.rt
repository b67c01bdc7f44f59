//! Laws on what a caller keeps, over the definitions alone: each is the contract of a function without a body.

ghost use Rattle.std.specs.Prelude.{◌≡◌, List, ℕ, Ok, Result, All};
ghost use Rattle.ar_base.specs.Bytes.{AreBytes};
ghost use Rattle.ar_cert.specs.Changes.{Change};
ghost use Rattle.client_memory.specs.Answers.{pinned_by};
ghost use Rattle.client_memory.specs.Book.{Pin};
ghost use Rattle.client_rule.specs.Rule.{Asked, judgement};
ghost use Rattle.party_keys.specs.Directory.{Directory};
ghost use Rattle.arpki_c.specs.Following.{following, keeping_pin};
ghost use Rattle.arpki_c.specs.Given.{directory_from};
ghost use Rattle.arpki_c.specs.Stored.{book_stored, changes_in};
ghost use Rattle.arpki_c.specs.Keeping.{after_bytes, after_notes, keeping_all, keeping_from};
ghost use Rattle.arpki_c.specs.declared.keys.Entry.{Entry};
ghost use Rattle.arpki_c.specs.declared.keys.KeysFault.{KeysFault};
ghost use Rattle.arpki_c.specs.declared.pins.PinFault.TheVariants as pin_fault;

/// The directory of a caller who keeps each entry that was written, behind those before it, is the one that learnt from
/// the same notes: of one note, and of any number of them, whatever bytes they are.
pub fn what_is_kept_is_what_was_learnt()
    ensures one { (first : Result Directory KeysFault) (entries : List Entry) (keys : Directory)
        (note : List ℕ)
        → AreBytes note → directory_from first entries ≡ Ok keys
        → directory_from first (keeping_from first entries note) ≡ Ok (after_bytes keys note) }
    ensures each { (first : Result Directory KeysFault) (entries : List Entry) (keys : Directory)
        (notes : List (List ℕ))
        → All AreBytes notes → directory_from first entries ≡ Ok keys
        → directory_from first (keeping_all first entries notes) ≡ Ok (after_notes keys notes) }
{}

/// The bytes of a pin, kept as each answer says, make the book that the calls made: where the bytes that are stored make a
/// book, and the links are changes, the bytes that are stored behind the call make the book behind it, whatever bytes the
/// confirmation is.
pub fn a_pin_is_the_book()
    ensures { (asked : Asked) (confirmation pin links : List ℕ) (book : List Pin)
        (changes : List Change)
        → AreBytes confirmation → AreBytes pin → AreBytes links
        → book_stored asked.name pin ≡ Ok book → changes_in pin_fault.Links links ≡ Ok changes
        → book_stored asked.name
        (keeping_pin pin links
        (following (pinned_by book asked confirmation changes).0
        (judgement asked confirmation)))
        ≡ Ok (pinned_by book asked confirmation changes).1 }
{}
