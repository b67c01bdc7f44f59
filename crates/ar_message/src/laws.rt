//! Laws on the texts of messages and on what signing writes into them, over the definitions alone: each is
//! the contract of a function without a body.

ghost use Rattle.std.specs.Prelude.{◌≡◌, ◌≤◌, ◌++◌, ◌↔◌, All, AllPairs, List, ℕ, Ok, length, map};
ghost use Rattle.std.specs.List.{concat};
ghost use Rattle.ar_base.specs.Bytes.{AreBytes, IsDigest};
ghost use Rattle.ar_bytes.specs.Reading.{whole};
ghost use Rattle.ar_bytes.specs.RoundTrip.{ReadsBack, IsSpelledBy};
ghost use Rattle.lms_tree.specs.KeyParts.{KeyParts};
ghost use Rattle.ar_message.specs.Confirmation.{Confirmation, IsConfirmation, confirmation_at, confirmation_text};
ghost use Rattle.ar_message.specs.Filling.{AreApart, IsBlank, IsOutside, IsSigned, byte_at, lengths, signed};
ghost use Rattle.ar_message.specs.Messages.{IsMessage, longest, message_at, message_in, message_text};
ghost use Rattle.ar_message.specs.Sending.{Letter};
ghost use Rattle.ar_message.specs.declared.message.Message.{Message};
ghost use Rattle.tree_proof.specs.Fold.{digests_in};
ghost use Rattle.ar_message.specs.declared.unsigned.Blank.{Blank};

/// A message of any kind is read from exactly its own text, where that is not too long, and a confirmation in
/// place from exactly its own.
pub fn only_texts_are_read()
    ensures messages { (bytes : List ℕ) (m : Message) → AreBytes bytes
        → (message_in bytes ≡ Ok m)
        ↔ (IsMessage m × ((message_text m ≡ bytes) × (length bytes ≤ longest))) }
    ensures confirmations { (bytes : List ℕ) (c : Confirmation) → AreBytes bytes
        → (whole confirmation_at bytes ≡ Ok c)
        ↔ (IsConfirmation c × (confirmation_text c ≡ bytes)) }
{}

/// A message of any kind is read back wherever its text stands and whatever follows it, and so is a confirmation
/// in place.
pub fn texts_are_read_back()
    ensures messages { (m : Message) → IsMessage m → ReadsBack message_at m (message_text m) }
    ensures confirmations { (c : Confirmation) → IsConfirmation c
        → ReadsBack confirmation_at c (confirmation_text c) }
{}

/// What is read is spelled so.
pub fn what_is_read_is_spelled()
    ensures messages { IsSpelledBy message_at message_text IsMessage }
    ensures confirmations { IsSpelledBy confirmation_at confirmation_text IsConfirmation }
{}

/// No two messages have one text, and no text of a message begins that of another, of whatever kinds they are.
pub fn a_text_is_of_one_message()
    ensures { (a b : Message) (behind_a behind_b : List ℕ) → IsMessage a → IsMessage b
        → message_text a ++ behind_a ≡ message_text b ++ behind_b
        → (a ≡ b) × (behind_a ≡ behind_b) }
{}

/// No two confirmations have one text, and no text of a confirmation begins that of another.
pub fn a_text_is_of_one_confirmation()
    ensures { (a b : Confirmation) (behind_a behind_b : List ℕ) → IsConfirmation a
        → IsConfirmation b
        → confirmation_text a ++ behind_a ≡ confirmation_text b ++ behind_b
        → (a ≡ b) × (behind_a ≡ behind_b) }
{}

/// The digests of a path lie in the bytes of its steps, one behind the other.
pub fn a_path_lies_in_its_bytes()
    ensures { (steps : List (List ℕ)) → All IsDigest steps → digests_in (concat steps) ≡ steps }
{}

/// Once all blanks are signed, each has its signature, where no two have a place in common.
pub fn each_blank_is_signed()
    ensures { (keys : List KeyParts) (blanks : List Blank) (letters : List Letter)
        → All (IsBlank keys (lengths letters)) blanks → AllPairs (AreApart keys) blanks
        → All (IsSigned keys (signed keys blanks letters)) blanks }
{}

/// Signing leaves each byte that is none of a blank's, and to whom each message goes.
pub fn all_else_stays()
    ensures bytes { (keys : List KeyParts) (blanks : List Blank) (letters : List Letter)
        → All (IsBlank keys (lengths letters)) blanks → (message place : ℕ)
        → All (IsOutside keys message place) blanks
        → byte_at (signed keys blanks letters) message place ≡ byte_at letters message place }
    ensures addresses { (keys : List KeyParts) (blanks : List Blank) (letters : List Letter)
        → All (IsBlank keys (lengths letters)) blanks
        → map (λ letter. letter.to) (signed keys blanks letters)
        ≡ map (λ letter. letter.to) letters }
{}

/// Signing adds no message and takes none away.
pub fn as_many_are_signed()
    ensures { (keys : List KeyParts) (blanks : List Blank) (letters : List Letter)
        → length (signed keys blanks letters) ≡ length letters }
{}
