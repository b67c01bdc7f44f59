ghost use Rattle.std.specs.Prelude.{◌≡◌, ◌-◌, ◌≤◌, ◌^◌, ◌++◌, length, take, IfOk};
ghost use Rattle.lms_tree.specs.Key.{signature_of};
ghost use Rattle.lms_tree.specs.LmsKind.{leaves_of};
ghost use Rattle.lms_tree.specs.Signature.{lms_signature_len_of};
ghost use Rattle.ar_cert.specs.Changes.{IsSignature};
ghost use Rattle.owner_core.specs.Objecting.{AwaitsSignature, objection};

use crate::letters::{room, to_logs};
use crate::owner::Owner;
use crate::refusal::OwnerRefusal;
use ar_base::Items;
use ar_cert::{Cert, ChangeParts};
use ar_message::{Sent, submit_text};
use ar_names::NameView;
use ar_statement::{Statement, Text};
use lms_tree::LmsKey;
use sign_book::{DrawnLeaf, Due, sign, sign_drawn};
use std::alloc::{AllocError, Global};

/// As many zero bytes as a signature of the key has.
fn blank(alloc: Global, key: &LmsKey) -> Result<Vec<u8>, AllocError>
    ensures { IfOk result (λ bytes.
        length bytes.items ≡ lms_signature_len_of key.now.lms key.now.ots) }
{
    let bytes = vec![in alloc; 0u8; key.signature_len()]?;
    Ok(bytes)
}

/// Writes the signature that is due over the last bytes of a text.
fn sign_tail(key: &LmsKey, due: Due, text: &mut [u8])
    requires leaves { due.leaves ≤ leaves_of key.now.lms }
    requires room { lms_signature_len_of key.now.lms key.now.ots ≤ length text.old }
    ensures text { text.new
        ≡ take (length text.old - lms_signature_len_of key.now.lms key.now.ots) text.old
        ++ signature_of key.now due.leaf due.text }
    ensures len { length (signature_of key.now due.leaf due.text)
        ≡ lms_signature_len_of key.now.lms key.now.ots }
{
    let at = text.len() - key.signature_len();
    sign(key, due, &mut text[at..]);
}

/// The parts of an objection to a certificate, with this signature.
fn objection_to<'a>(cert: &'a Cert, signature: &'a Items<u8>) -> ChangeParts<'a>
    requires { IsSignature signature.now }
    ensures { result ≡ objection cert.now signature.now }
{
    let objection = Some(signature);
    ChangeParts {
        cert,
        endorsements: &[],
        handover: None,
        objection,
    }
}

/// The text of an objection to a certificate on its way to the logs, with zero bytes in place of
/// the key's signature.
#[tactic(auto, using(crate::proofs::Texts::unsigned))]
fn unsigned_objection(alloc: Global, key: &LmsKey, cert: &Cert) -> Result<Vec<u8>, AllocError>
    ensures { IfOk result (λ text.
        AwaitsSignature (lms_signature_len_of key.now.lms key.now.ots) cert.now text.items) }
{
    let zeros = Items::from_vec(blank(alloc, key)?);
    submit_text(alloc, &objection_to(cert, &zeros))
}

impl Owner {
    ghost use Rattle.std.specs.Prelude.{◌≡◌, ◌<◌, ◌≤◌, ◌^◌, IfOk, length};
    ghost use Rattle.ar_base.specs.Gives.{StepsUnless};
    ghost use Rattle.ar_statement.specs.Claims.{answer, claim_of, text_of};
    ghost use Rattle.lms_tree.specs.Key.{signature_of};
    ghost use Rattle.lms_tree.specs.LmsKind.{leaves_of};
    ghost use Rattle.lms_tree.specs.Signature.{lms_signature_len_of};
    ghost use Rattle.owner_core.specs.Rows.{Answers, handover_row, object_row, staple_row};
    ghost use Rattle.owner_core.specs.Signing.{signed_by_owner};
    ghost use Rattle.owner_core.specs.declared.refusal.OwnerRefusal.TheVariants.{Memory};

    /// Gives a statement its leaf. What is due then must be signed.
    fn enter(&mut self, alloc: Global, statement: &Statement) -> Result<Due, OwnerRefusal>
        ensures due { IfOk result (λ due. due.leaves ≤ leaves_of self.old.key.lms) }
        ensures key { self.new.key ≡ self.old.key }
        ensures step { StepsUnless Memory (λ me due.
            (signature_of self.old.key due.leaf due.text, me)) result
            self.old self.new (signed_by_owner self.old (claim_of statement.now)) }
    {
        let due = self.book.enter(alloc, statement)?;
        Ok(due)
    }

    /// Signs the handover to the certificate with this digest: the owner agrees by its key that it
    /// replaces the one whose subject key this is. What is signed is the statement Handover, of the
    /// digest alone.
    ///
    /// Asked again, it gives the same bytes and takes no further leaf. `Spent` (O7) comes exactly
    /// where each leaf of the key serves another statement, but that `Memory` may come in place of
    /// it. The signature is bare: it has no generation in front.
    pub fn handover(&mut self, alloc: Global, digest: &[u8; 32]) -> Result<Vec<u8>, OwnerRefusal>
        ensures answer { Answers (λ signature.
            signature.items) self.old self.new result (handover_row self.old digest.now) }
        // It can be attached to a draft.
        ensures fits { IfOk result (λ signature. length signature.items < 2 ^ 16) }
    {
        self.sign_bare(
            alloc,
            &Statement::Handover {
                certificate: *digest,
            },
        )
    }

    /// Signs the answer to a challenge, for the certificate with this digest of a name: who has the
    /// key of the certificate says so to whoever made the challenge. The answer has a leaf of the
    /// book, and so it stands for as long as whoever asks takes this challenge.
    ///
    /// Whoever calls it makes the challenge, of what it is to stand for, and signs none that others
    /// chose: an answer to such a one may be shown elsewhere. Asked again, it gives the same bytes
    /// and takes no further leaf. `Spent` (O7) comes exactly where each leaf of the book serves
    /// another statement, but that `Memory` may come in place of it. The signature is bare.
    pub fn staple(
        &mut self,
        alloc: Global,
        name: NameView,
        certificate: &[u8; 32],
        challenge: &[u8; 32],
    ) -> Result<Vec<u8>, OwnerRefusal>
        ensures { Answers (λ signature.
            signature.items) self.old self.new result
            (staple_row self.old name.entry certificate.now challenge.now) }
    {
        self.sign_bare(
            alloc,
            &Statement::Answer {
                name,
                certificate: *certificate,
                challenge: *challenge,
            },
        )
    }

    /// Writes the same answer into `out`, signed by a leaf that was drawn behind those of the book.
    /// Neither the owner nor its book changes: no one remembers the answer, and asked again it takes
    /// another leaf. It takes no memory.
    ///
    /// The leaf is of a run of leaves of this owner's key.
    pub fn sign_drawn(
        &self,
        drawn: DrawnLeaf,
        name: NameView,
        certificate: &[u8; 32],
        challenge: &[u8; 32],
        out: &mut [u8],
    )
        requires behind { self.now.book.leaves ≤ drawn.leaf }
        requires own { drawn.leaves ≤ leaves_of self.now.key.lms }
        requires room { length out.old
            ≡ lms_signature_len_of self.now.key.lms self.now.key.ots }
        ensures { out.new ≡ signature_of self.now.key drawn.leaf
            (text_of (answer name.entry certificate.now challenge.now)) }
    {
        let text = Text::of(&Statement::Answer {
            name,
            certificate: *certificate,
            challenge: *challenge,
        });
        sign_drawn(&self.key, drawn, &text, out);
    }

    /// The signature of a statement at its leaf, alone.
    #[tactic(auto, using(crate::proofs::Texts::signature_fits))]
    fn sign_bare(&mut self, alloc: Global, statement: &Statement) -> Result<Vec<u8>, OwnerRefusal>
        ensures answer { Answers (λ signature.
            signature.items) self.old self.new result
            (signed_by_owner self.old (claim_of statement.now)) }
        ensures fits { IfOk result (λ signature. length signature.items < 2 ^ 16) }
    {
        let mut signature = blank(alloc, &self.key)?;
        let due = self.enter(alloc, statement)?;
        sign(&self.key, due, &mut signature);
        Ok(signature)
    }

    /// Objects to a certificate by the owner's key, and tells all logs: a change with this
    /// certificate, no endorsement, and the signature of the statement Object of its digest. It is
    /// for the logs to judge whether the certificate is one that waits for a name of this key. The
    /// certificate need not be a draft of the owner's.
    ///
    /// Asked again, it sends the same bytes and takes no further leaf. `Spent` (O7) comes exactly
    /// where each leaf of the key serves another statement, but that `Memory` may come in place of
    /// it.
    pub fn object(&mut self, alloc: Global, cert: &Cert) -> Result<Sent, OwnerRefusal>
        ensures { Answers (λ s. s) self.old self.new result (object_row self.old cert.now) }
    {
        let mut text = unsigned_objection(alloc, &self.key, cert)?;
        let room = room(alloc)?;
        let statement = Statement::Object {
            certificate: cert.digest(),
        };
        let due = self.enter(alloc, &statement)?;
        sign_tail(&self.key, due, &mut text);
        Ok(to_logs(room, text))
    }
}
