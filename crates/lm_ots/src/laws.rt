//! Laws of the definitions: each is the contract of a function that does nothing.

ghost use Rattle.std.specs.Prelude.{◌≡◌, ◌∷◌, [], List, ℕ, Some, replicate};
ghost use Rattle.lm_ots.specs.declared.ots_type.OtsType.TheVariants.{W1, W2, W4, W8};
ghost use Rattle.lm_ots.specs.declared.secret.OtsSecret.{OtsSecret};
ghost use Rattle.lm_ots.specs.Candidate.{candidate};
ghost use Rattle.lm_ots.specs.Digits.{checksum, coef};
ghost use Rattle.lm_ots.specs.Signing.{public_key_of, signature_of};

/// A signature leads to the public key of the key that made it.
pub fn a_signature_leads_to_its_key()
    ensures { (secret : OtsSecret) (message : List ℕ)
        → candidate secret.id secret.leaf secret.kind message (signature_of secret message)
        ≡ Some (public_key_of secret) }
{}

/// Digits and checksums are those of worked examples: two digits of the bytes 12 34 (RFC 8554, section 3.1.3), and the checksums
/// of the least hash, 8000, 6000, 3c00 and 1fe0 in hex, and of the greatest, which are 0.
pub fn digits_are_those_of_worked_examples()
    ensures bit { coef (0x12 ∷ 0x34 ∷ []) 7 1 ≡ 0 }
    ensures half_byte { coef (0x12 ∷ 0x34 ∷ []) 0 4 ≡ 1 }
    ensures least_of_bits { checksum W1 (replicate 32 0) ≡ 0x8000 }
    ensures least_of_pairs { checksum W2 (replicate 32 0) ≡ 0x6000 }
    ensures least_of_half_bytes { checksum W4 (replicate 32 0) ≡ 0x3c00 }
    ensures least_of_bytes { checksum W8 (replicate 32 0) ≡ 0x1fe0 }
    ensures greatest_of_bits { checksum W1 (replicate 32 255) ≡ 0 }
    ensures greatest_of_pairs { checksum W2 (replicate 32 255) ≡ 0 }
    ensures greatest_of_half_bytes { checksum W4 (replicate 32 255) ≡ 0 }
    ensures greatest_of_bytes { checksum W8 (replicate 32 255) ≡ 0 }
{}
