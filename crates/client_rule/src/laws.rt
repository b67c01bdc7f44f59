//! Laws on judgements, over the definitions alone: each is the contract of a function without a body.

ghost use Rattle.std.specs.Prelude.{◌≡◌, ◌↔◌, ◌≤◌, List, ℕ, Some, Ok};
ghost use Rattle.ar_base.specs.Bytes.{AreBytes};
ghost use Rattle.ar_cert.specs.Certificate.{Certificate};
ghost use Rattle.ar_claims.specs.Claimed.{claimed_in_bytes};
ghost use Rattle.ar_claims.specs.Verified.{IsVerifiedIn};
ghost use Rattle.ar_message.specs.Confirmation.{Confirmation};
ghost use Rattle.ar_message.specs.Messages.{message_in};
ghost use Rattle.ar_statement.specs.Claims.{authority_party, log_party};
ghost use Rattle.party_keys.specs.Directory.{Directory};
ghost use Rattle.party_keys.specs.Learning.{Announced, learned, roll_claim};
ghost use Rattle.party_keys.specs.Seen.{seen_of};
ghost use Rattle.party_keys.specs.declared.learning.Learned.{Learned};
ghost use Rattle.client_rule.specs.Meaning.{Accepts, AcceptsNone, PassesChecks, Refuses, earlier, learnt};
ghost use Rattle.client_rule.specs.Notes.{note_of};
ghost use Rattle.client_rule.specs.Rule.{Asked, claim_on, judgement};
ghost use Rattle.client_rule.specs.declared.judgement.Judgement.TheVariants.{Absent, Accepted, Refused};

/// Bytes are accepted, with a certificate or with none, exactly where they are a confirmation of which
/// all checks hold: the name that was asked for, three known parties, three signatures that are verified,
/// steps that show it under the root, the ages, and a certificate that is neither revoked nor expired.
/// They are refused by a number exactly where that check does not hold and all before it do.
pub fn a_judgement_means_its_facts()
    ensures accepted { (asked : Asked) (bytes : List ℕ) (certificate : Certificate)
        (digest : List ℕ) (epoch : ℕ) (root : List ℕ)
        → (judgement asked bytes ≡ Accepted certificate digest epoch root)
        ↔ Accepts asked bytes certificate digest epoch root }
    ensures absent { (asked : Asked) (bytes : List ℕ) (epoch : ℕ) (root : List ℕ)
        → (judgement asked bytes ≡ Absent epoch root)
        ↔ AcceptsNone asked bytes epoch root }
    ensures refused { (asked : Asked) (bytes : List ℕ) (number : ℕ)
        → (judgement asked bytes ≡ Refused number)
        ↔ Refuses asked bytes number }
{}

/// What is accepted in an epoch, with a certificate or with none, is accepted so in each earlier epoch that is
/// not before its own, by the same directory, with the same age.
pub fn what_is_accepted_was_accepted_before()
    ensures accepted { (asked : Asked) (bytes : List ℕ) (certificate : Certificate)
        (digest : List ℕ) (epoch : ℕ) (root : List ℕ) (now : ℕ)
        → judgement asked bytes ≡ Accepted certificate digest epoch root
        → epoch ≤ now → now ≤ asked.epoch
        → judgement (earlier asked now) bytes ≡ Accepted certificate digest epoch root }
    ensures absent { (asked : Asked) (bytes : List ℕ) (epoch : ℕ) (root : List ℕ) (now : ℕ)
        → judgement asked bytes ≡ Absent epoch root
        → epoch ≤ now → now ≤ asked.epoch
        → judgement (earlier asked now) bytes ≡ Absent epoch root }
{}

/// What is accepted by a directory, a certificate or that there is none, is accepted so when the directory has learnt more.
pub fn what_is_accepted_stays_so()
    ensures accepted { (asked : Asked) (announced : List Announced) (bytes : List ℕ)
        (certificate : Certificate) (digest : List ℕ) (epoch : ℕ) (root : List ℕ)
        → judgement asked bytes ≡ Accepted certificate digest epoch root
        → judgement (learnt asked announced) bytes ≡ Accepted certificate digest epoch root }
    ensures absent { (asked : Asked) (announced : List Announced) (bytes : List ℕ) (epoch : ℕ)
        (root : List ℕ)
        → judgement asked bytes ≡ Absent epoch root
        → judgement (learnt asked announced) bytes ≡ Absent epoch root }
{}

/// What a client takes stands in the bytes that it took, with a signature that it verified under its directory: of a
/// confirmation that it accepts, the statements of the log and of the two authorities; and of the note of a Roll, from
/// which its directory learns a key or has learnt it before, the Roll.
pub fn what_is_taken_was_claimed()
    ensures log { (asked : Asked) (bytes : List ℕ) (c : Confirmation) → AreBytes bytes
        → PassesChecks asked bytes c
        → IsVerifiedIn asked.keys (claimed_in_bytes bytes)
        (seen_of (log_party c.log.number) (claim_on c.about c.body (log_party c.log.number))) }
    ensures first { (asked : Asked) (bytes : List ℕ) (c : Confirmation) → AreBytes bytes
        → PassesChecks asked bytes c
        → IsVerifiedIn asked.keys (claimed_in_bytes bytes)
        (seen_of (authority_party c.first.number)
        (claim_on c.about c.body (authority_party c.first.number))) }
    ensures second { (asked : Asked) (bytes : List ℕ) (c : Confirmation) → AreBytes bytes
        → PassesChecks asked bytes c
        → IsVerifiedIn asked.keys (claimed_in_bytes bytes)
        (seen_of (authority_party c.second.number)
        (claim_on c.about c.body (authority_party c.second.number))) }
    ensures note { (keys : Directory) (bytes : List ℕ) (a : Announced) (how : Learned)
        → note_of (message_in bytes) ≡ Some a → learned keys a ≡ Ok how
        → IsVerifiedIn keys (claimed_in_bytes bytes) (seen_of a.party (roll_claim a)) }
{}
