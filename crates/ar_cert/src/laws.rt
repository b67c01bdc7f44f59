//! Laws on the texts of certificates and changes, and on how changes are judged, over the definitions alone:
//! each is the contract of a function without a body.

ghost use Rattle.std.specs.Prelude.{◌≡◌, ◌<◌, ◌+◌, ◌++◌, ◌∷◌, [], ◌↔◌, List, ℕ, Ok, Option, Some, None, IsNone, IsSome, IsTrue, is_ok, is_some, get_or, length};
ghost use Rattle.ar_bytes.specs.Reading.{whole};
ghost use Rattle.ar_base.specs.Bytes.{AreBytes};
ghost use Rattle.ar_bytes.specs.RoundTrip.{ReadsBack, IsSpelledBy, counted_text};
ghost use Rattle.ar_cert.specs.Certificate.{Certificate, IsCertificate, certificate_at, counted_certificate_at, certificate_text};
ghost use Rattle.ar_cert.specs.Changes.{Change, IsChange, change_at, change_text};
ghost use Rattle.ar_cert.specs.Judging.{IsAccepted, IsChain, IsObjection, IsTakenIn, change_judgement, update_judgement};
ghost use Rattle.cert_policy.specs.declared.manner.Manner.{Manner};
ghost use Rattle.cert_policy.specs.declared.manner.Manner.TheVariants.{Objected};

/// A certificate is read from exactly its own text, and so is a change.
pub fn only_texts_are_read()
    ensures certificates { (bytes : List ℕ) (cert : Certificate) → AreBytes bytes
        → (whole certificate_at bytes ≡ Ok cert)
        ↔ (IsCertificate cert × (certificate_text cert ≡ bytes)) }
    ensures changes { (bytes : List ℕ) (change : Change) → AreBytes bytes
        → (whole change_at bytes ≡ Ok change) ↔ (IsChange change × (change_text change ≡ bytes)) }
{}

/// A certificate is read back wherever its text stands and whatever follows it, and so is a change.
pub fn texts_are_read_back()
    ensures certificates { (cert : Certificate) → IsCertificate cert
        → ReadsBack certificate_at cert (certificate_text cert) }
    ensures counted { (cert : Certificate) → IsCertificate cert
        → ReadsBack counted_certificate_at cert (counted_text (certificate_text cert)) }
    ensures changes { (change : Change) → IsChange change
        → ReadsBack change_at change (change_text change) }
{}

/// What is read is spelled so.
pub fn what_is_read_is_spelled()
    ensures certificates { IsSpelledBy certificate_at certificate_text IsCertificate }
    ensures counted { IsSpelledBy counted_certificate_at (λ cert.
        counted_text (certificate_text cert)) IsCertificate }
    ensures changes { IsSpelledBy change_at change_text IsChange }
{}

/// No two certificates have one text, and no text of a certificate begins that of another.
pub fn a_text_is_of_one_certificate()
    ensures { (a b : Certificate) (behind_a behind_b : List ℕ) → IsCertificate a → IsCertificate b
        → certificate_text a ++ behind_a ≡ certificate_text b ++ behind_b
        → (a ≡ b) × (behind_a ≡ behind_b) }
{}

/// No two changes have one text, and no text of a change begins that of another.
pub fn a_text_is_of_one_change()
    ensures { (a b : Change) (behind_a behind_b : List ℕ) → IsChange a → IsChange b
        → change_text a ++ behind_a ≡ change_text b ++ behind_b → (a ≡ b) × (behind_a ≡ behind_b) }
{}

/// A change is taken exactly where its facts hold: without an objection as the rule says of an update in that
/// manner, and with one where its certificate is what is pending and the old key objects to it.
pub fn a_change_is_taken_where_its_facts_hold()
    ensures plain { (manner : Manner) (old : Certificate) (pending : Option (List ℕ))
        (change : Change) → IsNone change.objection
        → (update_judgement old pending change ≡ Ok manner)
        ↔ IsTakenIn manner old (is_some pending) change }
    ensures objections { (old : Certificate) (pending : Option (List ℕ)) (change : Change)
        → IsSome change.objection
        → (update_judgement old pending change ≡ Ok Objected) ↔ IsObjection old pending change }
{}

/// A change is accepted in a chain exactly where it is judged so: the first as a registration, and each next one
/// behind the certificate before it, with nothing pending.
pub fn a_change_is_accepted_where_it_is_judged_so()
    ensures first { (change : Change)
        → IsTrue (is_ok (change_judgement None change)) ↔ IsAccepted None change }
    ensures next { (old : Certificate) (change : Change)
        → IsTrue (is_ok (update_judgement old None change)) ↔ IsAccepted (Some old) change }
{}

/// A change that registers a name is a chain, and a chain with one accepted change behind it is a chain.
pub fn a_chain_grows_by_accepted_changes()
    ensures one { (change : Change) → IsAccepted None change → IsChain (change ∷ []) }
    ensures more { (chain : List Change) (change : Change) → IsChain chain
        → ((k : ℕ) (d : Change) → k + 1 ≡ length chain
        → IsAccepted (Some (get_or chain k d).cert) change)
        → IsChain (chain ++ change ∷ []) }
{}

/// The serial numbers of a chain count from 0.
pub fn serials_count_a_chain()
    ensures { (chain : List Change) → IsChain chain → (k : ℕ) (d : Change) → k < length chain
        → (get_or chain k d).cert.serial ≡ k }
{}
