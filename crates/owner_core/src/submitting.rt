use crate::drafts::{self, place_of};
use crate::letters::{asking, submission};
use crate::owner::Owner;
use crate::refusal::OwnerRefusal;
use ar_cert::Cert;
use ar_message::Sent;
use std::alloc::Global;

impl Owner {
    ghost use Rattle.std.specs.Prelude.{◌≡◌, ◌⊎◌, ◌<◌, ◌^◌, IfOk, IfErr, Ok, Err, length};
    ghost use Rattle.ar_base.specs.Gives.{GivesOrWants};
    ghost use Rattle.owner_core.specs.declared.refusal.OwnerRefusal.TheVariants.{Memory};
    ghost use Rattle.owner_core.specs.Rows.{Answers, attach_row, begin_row, submit_row};

    /// Makes the certificate a draft, which nothing vouches for yet, and asks each of these
    /// authorities to endorse it, in their order. They are 1 to 8 authorities of the directory,
    /// whose numbers ascend; the call itself sends to whatever numbers it is given.
    ///
    /// A certificate that is a draft already stays as it is, with all that has come for it: so
    /// asking again is how a lost request or a lost answer is mended. Nothing is signed. The only
    /// error is want of memory.
    pub fn begin(&mut self, alloc: Global, cert: Cert, asks: &[u16]) -> Result<Sent, OwnerRefusal>
        ensures { Answers (λ s. s) self.old self.new result (begin_row self.old cert asks.now) }
    {
        let sent = asking(alloc, self.number, &cert, asks)?;
        drafts::begin(alloc, &mut self.drafts, cert)?;
        Ok(sent)
    }

    /// Attaches a handover to the draft with this digest, in place of the one that it had: what
    /// `handover` gives, for this digest, of the owner whose key the certificate replaces, which
    /// may be another one. That it is valid is not tested here: the logs do. Nothing is signed.
    ///
    /// `NoDraft` (O5) comes exactly where no draft has this digest. It takes no memory.
    pub fn attach(&mut self, digest: &[u8; 32], handover: Vec<u8>) -> Result<(), OwnerRefusal>
        requires { length handover.items < 2 ^ 16 }
        ensures ok { IfOk result (λ u.
            attach_row self.old digest.now handover.items ≡ Ok (tt, self.new)) }
        ensures err { IfErr result (λ e.
            (self.new ≡ self.old) × (attach_row self.old digest.now handover.items ≡ Err e)) }
    {
        drafts::attach(&mut self.drafts, digest, handover)
    }

    /// Hands the draft with this digest to all logs, with the endorsements that came and verified
    /// so far, however few, and the handover that was attached last. Nothing is signed, and the
    /// draft stays as it is: with too few endorsements the logs refuse the change, and it can be
    /// submitted again once more have come. So it can where a log did not get it.
    ///
    /// `NoDraft` (O5) comes exactly where no draft has this digest; no want of memory stands in its
    /// place.
    #[tactic(auto, using(crate::proofs::Spots::searched))]
    pub fn submit(&self, alloc: Global, digest: &[u8; 32]) -> Result<Sent, OwnerRefusal>
        ensures { GivesOrWants Memory (λ s. s) result (submit_row self.now digest.now) }
    {
        let Some(place) = place_of(&self.drafts, digest) else {
            return Err(OwnerRefusal::NoDraft);
        };
        Ok(submission(alloc, &self.drafts[place].parts())?)
    }
}
