//! Laws on the rows of an owner, over the definitions alone: each is the contract of a function
//! without a body.

ghost use Rattle.std.specs.Prelude.{◌≡◌, ◌++◌, ℕ, List, [], ◌∷◌, None, Some, Ok, length, true};
ghost use Rattle.ar_cert.specs.Certificate.{Certificate, digest_of};
ghost use Rattle.ar_cert.specs.Changes.{AreEndorsements, Change, Endorsement, IsEndorsement};
ghost use Rattle.ar_message.specs.declared.address.Address.TheVariants.{Logs};
ghost use Rattle.ar_message.specs.declared.message.Message.TheVariants.{Submit};
ghost use Rattle.ar_message.specs.declared.sent.Sent.{Sent};
ghost use Rattle.lms_tree.specs.KeyParts.{KeyParts};
ghost use Rattle.party_keys.specs.Directory.{Directory};
ghost use Rattle.sign_book.specs.Book.{IsSignBook};
ghost use Rattle.owner_core.specs.Drafts.{endorsed, has_endorsed};
ghost use Rattle.owner_core.specs.Rows.{attach_row, begin_row, first_owner, handover_row, letter, object_row, sent, staple_row, step_row, submit_row, submission};
ghost use Rattle.owner_core.specs.State.{Owner};
ghost use Rattle.owner_core.specs.Vouching.{AreEndorsed, IsEndorsed};

use party_keys::laws::what_was_verified_stays_so;
use sign_book::laws::a_statement_keeps_its_leaf;

/// A handover that was signed is the same bytes when it is asked for again, whatever was signed
/// since, and the owner stays as it is.
pub fn a_handover_is_signed_once()
    ensures { (me later after : Owner) (more : List (List ℕ)) (digest bytes : List ℕ)
        → IsSignBook after.book → after.key ≡ me.key
        → handover_row me digest ≡ Ok (bytes, later) → after.book.texts ≡ later.book.texts ++ more
        → handover_row after digest ≡ Ok (bytes, after) }
{
    a_statement_keeps_its_leaf()
}

/// An answer that was signed at a leaf of the book is the same bytes when it is asked for again,
/// whatever was signed since, and the owner stays as it is.
pub fn a_staple_is_signed_once()
    ensures { (me later after : Owner) (more : List (List ℕ))
        (name digest challenge bytes : List ℕ)
        → IsSignBook after.book → after.key ≡ me.key
        → staple_row me name digest challenge ≡ Ok (bytes, later)
        → after.book.texts ≡ later.book.texts ++ more
        → staple_row after name digest challenge ≡ Ok (bytes, after) }
{
    a_statement_keeps_its_leaf()
}

/// An endorsement that a draft takes is there then, and what stands there ascends by the numbers of
/// the authorities, and is 8 at most.
pub fn endorsements_ascend()
    ensures few { (new : Endorsement) (draft later : Change) → IsEndorsement new
        → AreEndorsements draft.endorsements
        → endorsed new draft ≡ Ok later → AreEndorsements later.endorsements }
    ensures there { (new : Endorsement) (draft later : Change)
        → endorsed new draft ≡ Ok later → has_endorsed new.authority later.endorsements ≡ true }
{}

/// An objection carries no endorsement and no handover: what is sent is one change, to the logs, of
/// the certificate with a signature.
pub fn an_objection_stands_alone()
    ensures { (me later : Owner) (cert : Certificate) (reply : Sent)
        → object_row me cert ≡ Ok (reply, later)
        → (signature : List ℕ)
        × (reply ≡ sent (letter Logs
        (Submit (record {
          cert = cert;
          endorsements = [];
          handover = None;
          objection = Some signature;
        })) ∷ [])) }
{}

/// Each endorsement of a draft is its authority's of the draft's certificate, under the keys that
/// the owner knows: it is so before anything came, and whatever comes keeps it; so it is so of what
/// goes to the logs.
pub fn what_is_submitted_is_endorsed()
    ensures new { (number : ℕ) (keys : Directory) (key : KeyParts) (leaves : ℕ)
        → AreEndorsed (first_owner number keys key leaves) }
    ensures begin { (me later : Owner) (cert : Certificate) (asks : List ℕ) (reply : Sent)
        → AreEndorsed me
        → begin_row me cert asks ≡ Ok (reply, later) → AreEndorsed later }
    ensures step { (me later : Owner) (bytes : List ℕ) (reply : Sent) → AreEndorsed me
        → step_row me bytes ≡ Ok (reply, later) → AreEndorsed later }
    ensures attach { (me later : Owner) (digest handover : List ℕ) → AreEndorsed me
        → attach_row me digest handover ≡ Ok (tt, later) → AreEndorsed later }
    ensures handover { (me later : Owner) (digest bytes : List ℕ) → AreEndorsed me
        → handover_row me digest ≡ Ok (bytes, later) → AreEndorsed later }
    ensures staple { (me later : Owner) (name digest challenge bytes : List ℕ) → AreEndorsed me
        → staple_row me name digest challenge ≡ Ok (bytes, later) → AreEndorsed later }
    ensures object { (me later : Owner) (cert : Certificate) (reply : Sent) → AreEndorsed me
        → object_row me cert ≡ Ok (reply, later) → AreEndorsed later }
    ensures submit { (me : Owner) (digest : List ℕ) (reply : Sent) → AreEndorsed me
        → submit_row me digest ≡ Ok reply
        → (draft : Change) × ((digest_of draft.cert ≡ digest) × IsEndorsed me.directory draft
        × (reply ≡ submission draft)) }
{
    what_was_verified_stays_so()
}

/// So many messages are sent: one to each authority that is asked, none where a message comes, and
/// one with a change.
pub fn so_many_are_sent()
    ensures begin { (me later : Owner) (cert : Certificate) (asks : List ℕ) (reply : Sent)
        → begin_row me cert asks ≡ Ok (reply, later) → length reply.messages ≡ length asks }
    ensures step { (me later : Owner) (bytes : List ℕ) (reply : Sent)
        → step_row me bytes ≡ Ok (reply, later) → length reply.messages ≡ 0 }
    ensures object { (me later : Owner) (cert : Certificate) (reply : Sent)
        → object_row me cert ≡ Ok (reply, later) → length reply.messages ≡ 1 }
    ensures submit { (me : Owner) (digest : List ℕ) (reply : Sent)
        → submit_row me digest ≡ Ok reply → length reply.messages ≡ 1 }
{}
