//! Laws on what an authority that is kept takes, over the definitions alone: each is the contract of a function that does nothing.

ghost use Rattle.std.specs.Prelude.{◌≡◌, ℕ, List, Some, true};
ghost use Rattle.ar_base.specs.Bytes.{AreBytes};
ghost use Rattle.ar_message.specs.Messages.{message_in};
ghost use Rattle.ar_message.specs.declared.sent.Sent.{Sent};
ghost use Rattle.authority_core.specs.Row.{asked_in};
ghost use Rattle.authority_core.specs.declared.entries.Approved.{Approved};
ghost use Rattle.authority_keeper.specs.Inputs.{Input, IsWhole, input_in, input_text, takes};
ghost use Rattle.authority_keeper.specs.Keeping.{AuthorityStanding, Steps};
ghost use Rattle.owner_check.specs.Book.{has_pair};
ghost use Rattle.owner_check.specs.declared.pair.Pair.{Pair};

/// The text of an input says it, and no other.
pub fn a_text_says_its_input()
    ensures { (input : Input) → IsWhole input → input_in (input_text input) ≡ Some input }
{}

/// A text that says an input is that input's text: none other says it.
pub fn an_input_has_one_text()
    ensures { (text : List ℕ) (input : Input) → AreBytes text → input_in text ≡ Some input
        → text ≡ input_text input }
{}

/// An authority that takes a request to endorse had a book, which has the name of the certificate with its subject key.
pub fn none_is_endorsed_but_by_the_book()
    ensures { (old new : AuthorityStanding) (bytes : List ℕ) (asked : Approved) (sent : Sent)
        → asked_in (message_in bytes) ≡ Some asked → Steps old (takes bytes) sent new
        → (book : List Pair) × ((old.book ≡ Some book)
        × (has_pair book asked.name asked.key ≡ true)) }
{}
