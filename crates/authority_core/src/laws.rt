//! Laws on the definitions of `specs/`: each is the contract of a function with an empty body.
ghost use Rattle.std.specs.Prelude.{◌≡◌, ◌⊎◌, ℕ, ◌<◌, ◌≤◌, ◌^◌, Bool, true, false, [], ◌∷◌, ◌++◌, List, Option, All, Contains, Result, Ok, Err, length};
ghost use Rattle.ar_base.specs.Bytes.{AreBytes, IsDigest};
ghost use Rattle.ar_statement.specs.declared.party.Party.{Party};
ghost use Rattle.ar_statement.specs.Claims.{authority_party, confirmation_by, endorse, text_of};
ghost use Rattle.ar_statement.specs.Ranges.{IsKeyText, IsValid};
ghost use Rattle.ar_cert.specs.Certificate.{Certificate, digest_of};
ghost use Rattle.ar_claims.specs.Claimed.{claimed_by};
ghost use Rattle.ar_claims.specs.Verified.{SeesClaimed};
ghost use Rattle.ar_message.specs.Messages.{IsMessage, message_in};
ghost use Rattle.ar_message.specs.declared.message.Confirming.{Confirming};
ghost use Rattle.ar_message.specs.declared.message.Message.{Message};
ghost use Rattle.ar_message.specs.declared.message.Message.TheVariants.{EndorseAsk};
ghost use Rattle.ar_message.specs.declared.unsigned.Unsigned.{Unsigned};
ghost use Rattle.ar_message.specs.Filling.{CanFill};
ghost use Rattle.lms_tree.specs.Key.{public_of};
ghost use Rattle.lms_tree.specs.KeyParts.{KeyParts};
ghost use Rattle.lms_tree.specs.PublicKey.{HasWidths, key_text};
ghost use Rattle.lms_tree.specs.declared.public_key.LmsPublic.{LmsPublic};
ghost use Rattle.owner_check.specs.declared.answer.Outcome.{Outcome};
ghost use Rattle.owner_check.specs.declared.answer.Outcome.TheVariants.{Yes};
ghost use Rattle.key_roll.specs.Book.{texts_of};
ghost use Rattle.key_roll.specs.Entry.{MayRoll};
ghost use Rattle.key_roll.specs.Later.{IsServed};
ghost use Rattle.key_roll.specs.Ring.{IsNext};
ghost use Rattle.ar_council.specs.Council.{Council, IsMember, council_of};
ghost use Rattle.ar_council.specs.Room.{HasRoom};
ghost use Rattle.authority_core.specs.Calls.{MayConfirm, after_endorse, after_half_confirmed, after_learn, after_log_confirmed, after_roll, fresh_authority, kept_claim};
ghost use Rattle.authority_core.specs.ConfirmRows.{half_confirmed_row, log_confirmed_row};
ghost use Rattle.ar_message.specs.Shown.{shows};
ghost use Rattle.authority_core.specs.Confirming.{vote_count};
ghost use Rattle.authority_core.specs.EndorseRow.{endorse_row};
ghost use Rattle.authority_core.specs.Honest.{HasAsked, HasKept, IsOfHonestAuthority};
ghost use Rattle.authority_core.specs.Keyed.{IsRingOf};
ghost use Rattle.authority_core.specs.Later.{AuthorityGrows};
ghost use Rattle.authority_core.specs.Record.{AuthorityRecord};
ghost use Rattle.authority_core.specs.RollRows.{roll_row};
ghost use Rattle.authority_core.specs.Row.{message_row, row};
ghost use Rattle.authority_core.specs.State.{AuthorityState, IsAuthority, most_sent};
ghost use Rattle.authority_core.specs.declared.refusal.AuthorityRefusal.TheVariants.{NotForAuthority};
ghost use Rattle.authority_core.specs.declared.entries.Approved.{Approved};
ghost use Rattle.authority_core.specs.declared.entries.Kept.{Kept};
ghost use Rattle.party_keys.specs.Learning.{Announced};

/// The record of an authority that has done nothing yet is an honest one's.
pub fn a_fresh_authority_is_honest()
    ensures { (council : Council) (me leaves : ℕ) → 0 < leaves
        → IsOfHonestAuthority council me (fresh_authority leaves) }
{}

/// A record stays an honest authority's where the check said yes and the authority endorses. Where a leaf is left for it,
/// the endorsement is signed.
pub fn an_endorsement_keeps_an_authority()
    ensures honest { (council : Council) (me : ℕ) (r : AuthorityRecord) (a : Approved)
        → IsOfHonestAuthority council me r → me < 2 ^ 16
        → IsDigest a.certificate → IsOfHonestAuthority council me (after_endorse me r a) }
    ensures signed { (me : ℕ) (r : AuthorityRecord) (a : Approved)
        → HasRoom r.signed (text_of (endorse me a.certificate) ∷ [])
        → Contains (texts_of (after_endorse me r a).signed) (text_of (endorse me a.certificate)) }
{}

/// A record stays an honest authority's where it confirms what a log says, as it may: as the first of two authorities, or
/// as the second, by what a first one says. Where a leaf is left for it, the confirmation is signed.
pub fn confirmations_keep_an_authority()
    ensures first { (council : Council) (me : ℕ) (r : AuthorityRecord) (log : ℕ) (voters : List ℕ)
        (k : Kept) → IsOfHonestAuthority council me r
        → me < 2 ^ 16 → MayConfirm council log voters k
        → IsOfHonestAuthority council me (after_log_confirmed me r log voters k) }
    ensures second { (council : Council) (me : ℕ) (r : AuthorityRecord) (log : ℕ) (voters : List ℕ)
        (first : ℕ) (k : Kept)
        → IsOfHonestAuthority council me r → me < 2 ^ 16 → MayConfirm council log voters k
        → first < council.authorities
        → IsOfHonestAuthority council me (after_half_confirmed me r log voters first k) }
    ensures signed { (me : ℕ) (r : AuthorityRecord) (log : ℕ) (voters : List ℕ) (k : Kept)
        → HasRoom r.signed (text_of (kept_claim (authority_party me) k) ∷ [])
        → Contains (texts_of (after_log_confirmed me r log voters k).signed)
        (text_of (kept_claim (authority_party me) k)) }
{}

/// A record stays an honest authority's where it sees the Roll of a party of the council, and where it announces its own
/// next key.
pub fn rolls_keep_an_authority()
    ensures learn { (council : Council) (me : ℕ) (r : AuthorityRecord) (a : Announced)
        → IsOfHonestAuthority council me r
        → IsMember council a.party → IsOfHonestAuthority council me (after_learn r a) }
    ensures roll { (council : Council) (me : ℕ) (r : AuthorityRecord) (key : List ℕ)
        → IsOfHonestAuthority council me r → me < 2 ^ 16
        → MayRoll r.signed key → IsOfHonestAuthority council me (after_roll me r key) }
{}

/// An honest authority endorsed only where its check said yes, and confirmed only what it keeps, with the votes of a quorum
/// that it saw.
pub fn what_is_signed_is_told()
    ensures endorsements { (council : Council) (me : ℕ) (r : AuthorityRecord) (certificate : List ℕ)
        → IsOfHonestAuthority council me r
        → IsValid (endorse me certificate)
        → Contains (texts_of r.signed) (text_of (endorse me certificate))
        → HasAsked r.asked certificate }
    ensures confirmations { (council : Council) (me : ℕ) (r : AuthorityRecord) (epoch : ℕ)
        (name : List ℕ) (certificate : Option (List ℕ)) (root : List ℕ)
        → IsOfHonestAuthority council me r
        → IsValid (confirmation_by (authority_party me) epoch name certificate root)
        → Contains (texts_of r.signed)
        (text_of (confirmation_by (authority_party me) epoch name certificate root))
        → HasKept council r.seen r.kept epoch name certificate root }
{}

/// Each row keeps an authority: of each message and of whatever bytes, by whatever the check answered, and of the order to
/// roll, where the next key is one.
pub fn rows_keep_an_authority()
    ensures message { (s : AuthorityState) (retired : Bool) (m : Message) (said : Outcome)
        (later : AuthorityState) (sent : Unsigned) → IsAuthority s → IsMessage m
        → message_row s retired m said ≡ Ok (later, sent) → IsAuthority later }
    ensures bytes { (s : AuthorityState) (retired : Bool) (bytes : List ℕ) (said : Outcome)
        (later : AuthorityState) (sent : Unsigned) → IsAuthority s
        → AreBytes bytes → row s retired (message_in bytes) said ≡ Ok (later, sent)
        → IsAuthority later }
    ensures roll { (s : AuthorityState) (next : LmsPublic) (later : AuthorityState)
        (sent : Unsigned) → IsAuthority s → IsKeyText (key_text next) → HasWidths next
        → roll_row s next ≡ Ok (later, sent) → IsAuthority later }
{}

/// An authority endorses only where its check said yes, and a retired one endorses nothing.
pub fn no_endorsement_without_a_yes()
    ensures said { (s : AuthorityState) (owner : ℕ) (cert : Certificate) (said : Outcome)
        (later : AuthorityState) (sent : Unsigned)
        → endorse_row s false owner cert said ≡ Ok (later, sent)
        → (said ≡ Yes) × HasAsked later.past.asked (digest_of cert) }
    ensures retired { (s : AuthorityState) (owner : ℕ) (cert : Certificate) (said : Outcome)
        → endorse_row s true owner cert said ≡ Err NotForAuthority }
{}

/// An authority confirms only what a quorum of logs voted for, over one base and root, and what the path shows.
pub fn no_confirmation_without_a_quorum()
    ensures first { (s : AuthorityState) (part : Confirming) (later : AuthorityState)
        (sent : Unsigned) → log_confirmed_row s part ≡ Ok (later, sent)
        → (s.keys.quorum ≤ vote_count part) × (shows part ≡ true) }
    ensures second { (s : AuthorityState) (part : Confirming) (first_signature : List ℕ)
        (later : AuthorityState) (sent : Unsigned)
        → half_confirmed_row s part first_signature ≡ Ok (later, sent)
        → (s.keys.quorum ≤ vote_count part) × (shows part ≡ true) }
{}

/// A step sends at most one message.
pub fn each_step_sends_few()
    ensures step { (s : AuthorityState) (retired : Bool) (m : Result Message ℕ) (said : Outcome)
        (later : AuthorityState) (sent : Unsigned)
        → row s retired m said ≡ Ok (later, sent) → length sent.sent.messages ≤ most_sent }
    ensures roll { (s : AuthorityState) (next : LmsPublic) (later : AuthorityState)
        (sent : Unsigned) → roll_row s next ≡ Ok (later, sent)
        → length sent.sent.messages ≤ most_sent }
{}

/// Whatever an authority is asked, it stays the authority with its number, and its directory's council the same.
pub fn each_step_keeps_number_and_council()
    ensures step { (s : AuthorityState) (retired : Bool) (m : Result Message ℕ) (said : Outcome)
        (later : AuthorityState) (sent : Unsigned)
        → row s retired m said ≡ Ok (later, sent)
        → (later.me ≡ s.me) × (council_of later.keys ≡ council_of s.keys) }
    ensures roll { (s : AuthorityState) (next : LmsPublic) (later : AuthorityState)
        (sent : Unsigned) → roll_row s next ≡ Ok (later, sent)
        → (later.me ≡ s.me) × (council_of later.keys ≡ council_of s.keys) }
{}

/// Whatever an authority newly sees stands in what it takes, with a signature that it verified under the keys that it
/// knew; the order to roll shows it nothing.
pub fn what_is_newly_seen_was_claimed()
    ensures step { (s : AuthorityState) (retired : Bool) (m : Result Message ℕ) (said : Outcome)
        (later : AuthorityState) (sent : Unsigned) → row s retired m said ≡ Ok (later, sent)
        → SeesClaimed s.keys (claimed_by m) s.past.seen later.past.seen }
    ensures roll { (s : AuthorityState) (next : LmsPublic) (later : AuthorityState)
        (sent : Unsigned)
        → roll_row s next ≡ Ok (later, sent) → later.past.seen ≡ s.past.seen }
{}

/// Whatever an authority newly notes that its check said yes to is the certificate that the message asks for, with its name, its
/// subject key and its digest; an authority that has retired notes none, nor does one that rolls.
pub fn what_is_newly_asked_was_in_the_message()
    ensures step { (s : AuthorityState) (retired : Bool) (m : Result Message ℕ) (said : Outcome)
        (later : AuthorityState) (sent : Unsigned) → row s retired m said ≡ Ok (later, sent)
        → (a : Approved) → Contains later.past.asked a
        → Contains s.past.asked a ⊎ ((owner : ℕ) × (cert : Certificate)
        × (m ≡ Ok (EndorseAsk owner cert))
        × (a ≡ record { name = cert.name; key = key_text cert.subject; certificate = digest_of cert })
        × (said ≡ Yes) × (retired ≡ false)) }
    ensures roll { (s : AuthorityState) (next : LmsPublic) (later : AuthorityState)
        (sent : Unsigned)
        → roll_row s next ≡ Ok (later, sent) → later.past.asked ≡ s.past.asked }
{}

/// Whatever an authority does, its record only grows: what it saw, signed, what its check said yes to, and what it keeps
/// stays as it was, and what is new stands behind it.
pub fn a_record_only_grows()
    ensures endorse { (me : ℕ) (r : AuthorityRecord) (a : Approved)
        → AuthorityGrows r (after_endorse me r a) }
    ensures first { (me : ℕ) (r : AuthorityRecord) (log : ℕ) (voters : List ℕ) (k : Kept)
        → AuthorityGrows r (after_log_confirmed me r log voters k) }
    ensures second { (me : ℕ) (r : AuthorityRecord) (log : ℕ) (voters : List ℕ) (first : ℕ)
        (k : Kept)
        → AuthorityGrows r (after_half_confirmed me r log voters first k) }
    ensures learn { (r : AuthorityRecord) (a : Announced) → AuthorityGrows r (after_learn r a) }
    ensures roll { (me : ℕ) (r : AuthorityRecord) (key : List ℕ)
        → AuthorityGrows r (after_roll me r key) }
    ensures on { (r later last : AuthorityRecord) → AuthorityGrows r later
        → AuthorityGrows later last → AuthorityGrows r last }
{}

/// Whatever an authority is asked, its record only grows.
pub fn each_step_only_adds()
    ensures step { (s : AuthorityState) (retired : Bool) (m : Result Message ℕ) (said : Outcome)
        (later : AuthorityState) (sent : Unsigned)
        → row s retired m said ≡ Ok (later, sent) → AuthorityGrows s.past later.past }
    ensures roll { (s : AuthorityState) (next : LmsPublic) (later : AuthorityState)
        (sent : Unsigned) → roll_row s next ≡ Ok (later, sent)
        → AuthorityGrows s.past later.past }
{}

/// Each signature of its own that an authority sends is that of a generation and a leaf that serve its text in the book behind
/// the step.
pub fn each_own_signature_is_of_the_book()
    ensures step { (s : AuthorityState) (retired : Bool) (m : Result Message ℕ) (said : Outcome)
        (later : AuthorityState) (sent : Unsigned)
        → row s retired m said ≡ Ok (later, sent)
        → All (λ blank. IsServed later.past.signed blank.due) sent.blanks }
    ensures roll { (s : AuthorityState) (next : LmsPublic) (later : AuthorityState)
        (sent : Unsigned) → roll_row s next ≡ Ok (later, sent)
        → All (λ blank. IsServed later.past.signed blank.due) sent.blanks }
{}

/// What a step leaves blank the authority's keys can sign, and they stay its keys; of the order to roll, those with the next
/// key behind them.
pub fn each_step_can_be_signed()
    ensures step { (s : AuthorityState) (keys : List KeyParts) (retired : Bool)
        (m : Result Message ℕ) (said : Outcome)
        (later : AuthorityState) (sent : Unsigned) → IsAuthority s → IsRingOf s keys
        → row s retired m said ≡ Ok (later, sent)
        → CanFill keys sent × IsRingOf later keys }
    ensures roll { (s : AuthorityState) (keys : List KeyParts) (next : KeyParts)
        (later : AuthorityState) (sent : Unsigned)
        → IsRingOf s keys → IsNext keys next → roll_row s (public_of next) ≡ Ok (later, sent)
        → CanFill (keys ++ next ∷ []) sent × IsRingOf later (keys ++ next ∷ []) }
{}
