//! Laws on the texts of statements, over the definitions alone: each is the contract of a function
//! without a body.

ghost use Rattle.std.specs.Prelude.{◌≡◌, ◌++◌, Bool, List, ℕ, IsTrue};
ghost use Rattle.ar_bytes.specs.RoundTrip.{IsSpelledBy, ReadsBack};
ghost use Rattle.ar_statement.specs.Claims.{Claim, text_of};
ghost use Rattle.ar_statement.specs.Ranges.{IsHeld, IsTextOf};
ghost use Rattle.ar_statement.specs.Texts.{statement_at};

/// No two statements have one text, and no text of a statement begins that of another: of all statements
/// that the types can hold.
pub fn a_text_is_of_one_statement()
    ensures { (a b : Claim) (behind_a behind_b : List ℕ) → IsHeld a → IsHeld b
        → text_of a ++ behind_a ≡ text_of b ++ behind_b → (a ≡ b) × (behind_a ≡ behind_b) }
{}

/// What a text says holds of its statement: a text of a valid statement of which something holds is the
/// text of no other.
pub fn a_text_tells_its_statement()
    ensures { (holds : Claim → Bool) (claim : Claim) → IsHeld claim
        → IsTextOf (λ c. IsTrue (holds c)) (text_of claim) → IsTrue (holds claim) }
{}

/// A text is read as its statement wherever it stands, and only texts are read.
pub fn texts_are_read()
    ensures again { (claim : Claim) → IsHeld claim → ReadsBack statement_at claim (text_of claim) }
    ensures only { IsSpelledBy statement_at text_of IsHeld }
{}
