//! Laws on the definitions of `specs/`: each is the contract of a function with an empty body.
ghost use Rattle.std.specs.Prelude.{◌≡◌, ◌≤◌, ℕ, List, Contains, Ok, length};
ghost use Rattle.ar_base.specs.Bytes.{AreBytes};
ghost use Rattle.ar_bytes.specs.Reading.{whole};
ghost use Rattle.ar_cert.specs.Certificate.{digest_of};
ghost use Rattle.ar_cert.specs.Changes.{Change, Endorsement};
ghost use Rattle.ar_claims.specs.Claimed.{claimed_in, claimed_in_bytes, claimed_on};
ghost use Rattle.ar_message.specs.Confirmation.{Confirmation, confirmation_at};
ghost use Rattle.ar_message.specs.Messages.{IsMessage, longest, message_text};
ghost use Rattle.ar_message.specs.declared.lists.LogStatus.{LogStatus};
ghost use Rattle.ar_message.specs.declared.lists.Vote.{Vote};
ghost use Rattle.ar_message.specs.declared.message.Confirming.{Confirming};
ghost use Rattle.ar_message.specs.declared.message.Message.{Message};
ghost use Rattle.ar_message.specs.declared.message.Message.TheVariants.{Decision, HalfConfirmed, LogConfirmed, Propose, SkipNote, Submit};
ghost use Rattle.ar_statement.specs.Claims.{authority_party, endorse, log_party, status, vote};
ghost use Rattle.party_keys.specs.Signers.{signed_by};

/// The bytes of a message make the claims of the message, and bytes that a client reads in place as a confirmation make
/// those of the confirmation.
pub fn bytes_claim_what_they_say()
    ensures messages { (m : Message) → IsMessage m → length (message_text m) ≤ longest
        → AreBytes (message_text m)
        → claimed_in_bytes (message_text m) ≡ claimed_in m }
    ensures confirmations { (bytes : List ℕ) (c : Confirmation) → AreBytes bytes
        → whole confirmation_at bytes ≡ Ok c
        → claimed_in_bytes bytes ≡ claimed_on c }
{}

/// Each endorsement of each change of a message is one of its claims.
pub fn each_endorsement_is_claimed()
    ensures submitted { (change : Change) (e : Endorsement) → Contains change.endorsements e
        → Contains (claimed_in (Submit change))
        (signed_by (authority_party e.authority)
        (endorse e.authority (digest_of change.cert)) e.signature) }
    ensures proposed { (log epoch : ℕ) (base root : List ℕ) (changes : List Change)
        (signature : List ℕ) (change : Change) (e : Endorsement)
        → Contains changes change → Contains change.endorsements e
        → Contains (claimed_in (Propose log epoch base root changes signature))
        (signed_by (authority_party e.authority)
        (endorse e.authority (digest_of change.cert)) e.signature) }
    ensures decided { (epoch : ℕ) (base root : List ℕ) (changes : List Change) (votes : List Vote)
        (change : Change) (e : Endorsement)
        → Contains changes change → Contains change.endorsements e
        → Contains (claimed_in (Decision epoch base root changes votes))
        (signed_by (authority_party e.authority)
        (endorse e.authority (digest_of change.cert)) e.signature) }
{}

/// Each vote and each status of a message is one of its claims.
pub fn each_vote_is_claimed()
    ensures decided { (epoch : ℕ) (base root : List ℕ) (changes : List Change) (votes : List Vote)
        (v : Vote) → Contains votes v
        → Contains (claimed_in (Decision epoch base root changes votes))
        (signed_by (log_party v.log) (vote v.log epoch base root) v.signature) }
    ensures skipped { (epoch : ℕ) (statuses : List LogStatus) (s : LogStatus) → Contains statuses s
        → Contains (claimed_in (SkipNote epoch statuses))
        (signed_by (log_party s.log) (status s.log epoch s.value) s.signature) }
    ensures confirmed { (part : Confirming) (v : Vote) → Contains part.votes v
        → Contains (claimed_in (LogConfirmed part))
        (signed_by (log_party v.log) (vote v.log part.epoch part.base part.root) v.signature) }
    ensures confirmed_twice { (part : Confirming) (first_signature : List ℕ) (v : Vote)
        → Contains part.votes v
        → Contains (claimed_in (HalfConfirmed part first_signature))
        (signed_by (log_party v.log) (vote v.log part.epoch part.base part.root) v.signature) }
{}
