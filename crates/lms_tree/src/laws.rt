//! Laws of the definitions: each is the contract of a function that does nothing.

ghost use Rattle.std.specs.Prelude.{◌≡◌, ◌<◌, ◌↔◌, ℕ, List, Some, is_some};
ghost use Rattle.ar_base.specs.Bytes.{AreBytes};
ghost use Rattle.lms_tree.specs.Key.{public_of, signature_of};
ghost use Rattle.lms_tree.specs.KeyParts.{KeyParts};
ghost use Rattle.lms_tree.specs.LmsKind.{leaves_of};
ghost use Rattle.lms_tree.specs.PublicKey.{HasWidths, is_key_text, key_of_text, key_text};
ghost use Rattle.lms_tree.specs.Signature.{SignatureParts, FitsTypes, signature_text};
ghost use Rattle.lms_tree.specs.Validity.{HasLength, MeetsAll, MeetsUpTo, parts_of, verdict_of};
ghost use Rattle.lms_tree.specs.declared.public_key.LmsPublic.{LmsPublic};
ghost use Rattle.lms_tree.specs.declared.validity.Verdict.TheVariants.{Invalid, Valid};

/// The text of a key is read as that key, and a key that was read spells the text.
pub fn a_key_is_read_from_its_text_alone()
    ensures again { (key : LmsPublic) → HasWidths key → key_of_text (key_text key) ≡ Some key }
    ensures spelled { (bytes : List ℕ) (key : LmsPublic) → AreBytes bytes
        → key_of_text bytes ≡ Some key
        → (key_text key ≡ bytes) × HasWidths key }
{}

/// Two keys with one text are equal.
pub fn one_text_one_key()
    ensures { (a b : LmsPublic) → HasWidths a → HasWidths b → key_text a ≡ key_text b → a ≡ b }
{}

/// The text of a key is bytes.
pub fn a_key_is_written_in_bytes()
    ensures { (key : LmsPublic) → AreBytes key.id → AreBytes key.root → AreBytes (key_text key) }
{}

/// A key is read exactly from 56 bytes that name two types that are known.
pub fn readable_texts_are_keys()
    ensures { (bytes : List ℕ) → is_some (key_of_text bytes) ≡ is_key_text bytes }
{}

/// The text of a signature is read as its parts, and each signature of the length of a key's types has
/// parts.
pub fn a_signature_has_parts_exactly_with_its_length()
    ensures again { (key : LmsPublic) (parts : SignatureParts) → FitsTypes key.lms key.ots parts
        → parts_of key (signature_text parts) ≡ Some parts }
    ensures length { (key : LmsPublic) (signature : List ℕ)
        → HasLength key signature
        ↔ ((parts : SignatureParts) × (parts_of key signature ≡ Some parts)) }
{}

/// A signature is valid exactly where all five conditions hold, and `Invalid(k)` exactly where condition
/// k does not hold and those before it do.
pub fn a_verdict_tells_the_first_condition_that_fails()
    ensures valid { (key : LmsPublic) (message signature : List ℕ)
        → (verdict_of key message signature ≡ Valid) ↔ MeetsAll key message signature }
    ensures invalid { (key : LmsPublic) (message signature : List ℕ) (k : ℕ)
        → (verdict_of key message signature ≡ Invalid k) ↔ MeetsUpTo key message signature k }
{}

/// Under the public key of a key, its signature of any message by any of its leaves is valid.
pub fn what_is_signed_is_valid()
    ensures { (key : KeyParts) (leaf : ℕ) (message : List ℕ) → leaf < leaves_of key.lms
        → verdict_of (public_of key) message (signature_of key leaf message) ≡ Valid }
{}
