//! What an owner does, whether it is asked so for the first time or takes it again.

ghost use Rattle.std.specs.Prelude.{◌≡◌, ◌+◌, ◌<◌, ◌≤◌, ◌++◌, ◌^◌, length, vec_len, vec_capacity};
ghost use Rattle.std.specs.Option.{option_copied, option_map};
ghost use Rattle.std.specs.Result.{result_map_both};
ghost use Rattle.ar_cert.specs.Certificate.{digest_of};
ghost use Rattle.ar_base.specs.Chaining.{need};
ghost use Rattle.lms_tree.specs.Key.{public_of};
ghost use Rattle.lms_tree.specs.Signature.{lms_signature_len_of};
ghost use Rattle.owner_core.specs.Rows.{Answers, attach_row};
ghost use Rattle.owner_keeper.specs.Keeping.{attached, draft_in, handing_row, need_known, silent, stapled_reply};
ghost use Rattle.party_keys.specs.Learning.{is_key};
ghost use Rattle.owner_keeper.specs.declared.refusal.OwnerOrderRefusal.TheVariants as refusals;
ghost use Rattle.owner_keeper.specs.declared.reply.OwnerReply.TheVariants as replies;

use crate::stapler::Stapler;
use crate::text::{MOST_ASKS, MOST_HANDOVER};
use crate::{KeptStaple, OwnerOrder, OwnerOrderRefusal, OwnerReply, Permit};
use ar_base::Items;
use ar_cert::Cert;
use ar_message::Sent;
use owner_core::{Owner, OwnerRefusal};
use std::alloc::Global;
use std::marker::Model;

// ---- owners alone

/// The length in bytes of each signature of an owner's key.
fn signature_len(owner: &Owner) -> usize
    ensures { result ≡ lms_signature_len_of owner.now.key.lms owner.now.key.ots }
{
    let public = owner.public();
    8 + public.ots.signature_len() + 32 * public.lms.height() as usize
}

/// Appends bytes, for which there is room.
fn append(out: &mut Vec<u8>, bytes: &[u8])
    requires { vec_len out.old + length bytes.now ≤ vec_capacity out.old }
    ensures { out.new.items ≡ out.old.items ++ bytes.now }
{
    match out.extend_from_slice(bytes) {
        Ok(()) => (),
        Err(_) => unreachable!(),
    }
}

/// Attaches a handover where the owner has the draft; else it stays as it is.
fn attach_own(owner: &mut Owner, digest: &[u8; 32], handover: Vec<u8>)
    requires { length handover.items < 2 ^ 16 }
    ensures { owner.new ≡ attached owner.old (attach_row owner.old digest.now handover.items) }
{
    match owner.attach(digest, handover) {
        Ok(()) => {}
        Err(_) => {}
    }
}

/// Signs a handover, and attaches it where the owner has the draft. All memory is taken before the first change.
fn hand(owner: &mut Owner, alloc: Global, digest: &[u8; 32]) -> Result<Items<u8>, OwnerRefusal>
    ensures { Answers (λ signature.
        signature) owner.old owner.new result (handing_row owner.old digest.now) }
{
    let mut copied = Vec::with_capacity(alloc, signature_len(owner))?;
    let signature = owner.handover(alloc, digest)?;
    append(&mut copied, &signature);
    attach_own(owner, digest, copied);
    Ok(Items::from_vec(signature))
}

// ---- replies

/// The reply that sends what an owner sent.
fn sent_reply(sent: Result<Sent, OwnerRefusal>) -> Result<OwnerReply, OwnerOrderRefusal>
    ensures { result ≡ result_map_both replies.Sends refusals.Owner sent }
{
    match sent {
        Ok(sent) => Ok(OwnerReply::Sends(sent)),
        Err(refusal) => Err(OwnerOrderRefusal::Owner(refusal)),
    }
}

/// The reply with a handover to the certificate with this digest.
fn handed_reply(
    digest: [u8; 32],
    signature: Result<Items<u8>, OwnerRefusal>,
) -> Result<OwnerReply, OwnerOrderRefusal>
    ensures { result ≡ result_map_both (replies.Handed digest) refusals.Owner signature }
{
    match signature {
        Ok(signature) => Ok(OwnerReply::Handed { digest, signature }),
        Err(refusal) => Err(OwnerOrderRefusal::Owner(refusal)),
    }
}

/// The reply with a staple for this certificate.
fn stapled_reply(
    cert: &Cert,
    staple: &KeptStaple,
    signature: Result<Items<u8>, OwnerRefusal>,
) -> Result<OwnerReply, OwnerOrderRefusal>
    ensures { result
        ≡ result_map_both (stapled_reply cert.now staple.now) refusals.Owner signature }
{
    match signature {
        Ok(signature) => Ok(OwnerReply::Stapled {
            digest: cert.digest(),
            epoch: staple.epoch,
            channel: staple.channel,
            signature,
        }),
        Err(refusal) => Err(OwnerOrderRefusal::Owner(refusal)),
    }
}

/// The reply that sends nothing.
fn silence(alloc: Global) -> OwnerReply
    ensures { result ≡ silent tt }
{
    OwnerReply::Sends(Sent::nothing(alloc))
}

/// The reply where nothing is sent.
fn silent_reply(
    alloc: Global,
    attached: Result<(), OwnerRefusal>,
) -> Result<OwnerReply, OwnerOrderRefusal>
    ensures { result ≡ result_map_both silent refusals.Owner attached }
{
    match attached {
        Ok(()) => Ok(silence(alloc)),
        Err(refusal) => Err(OwnerOrderRefusal::Owner(refusal)),
    }
}

// ---- certificates by their numbers

/// The certificate of the draft with this number; `None` where there is none.
fn cert_of(certs: &[Cert], draft: u64) -> Option<&Cert>
    ensures { option_copied result ≡ draft_in certs.now draft }
{
    if draft == 0 {
        return None;
    }
    certs.get(draft as usize - 1)
}

/// Refuses a number for which there is no certificate.
fn need_known(certs: &[Cert], draft: u64) -> Result<(), OwnerOrderRefusal>
    ensures { result ≡ need_known certs.now draft }
{
    match cert_of(certs, draft) {
        Some(_) => Ok(()),
        None => Err(OwnerOrderRefusal::NoCertificate),
    }
}

/// The digest of the draft with this number; `None` where there is none.
fn digest_at(certs: &[Cert], draft: u64) -> Option<[u8; 32]>
    ensures { result ≡ option_map digest_of (draft_in certs.now draft) }
{
    match cert_of(certs, draft) {
        Some(cert) => Some(cert.digest()),
        None => None,
    }
}

/// Refuses a certificate whose subject key is not the owner's.
fn need_own(owner: &Owner, cert: &Cert) -> Result<(), OwnerOrderRefusal>
    ensures { result
        ≡ need (is_key cert.now.subject (public_of owner.now.key)) refusals.Foreign }
{
    if cert.subject.bytes() == owner.public().bytes() {
        Ok(())
    } else {
        Err(OwnerOrderRefusal::Foreign)
    }
}

// ---- with the certificates that it knows

/// An owner, and the certificates that it knows, by the numbers of drafts from 1.
#[derive(Drop)]
pub(crate) struct Knowing {
    pub(crate) owner: Owner,
    pub(crate) certs: Vec<Cert>,
    pub(crate) stapler: Stapler,
}

// Clauses see where it stands, but for the room of its book.
impl Model for Knowing {
    ghost use Rattle.owner_keeper.specs.Keeping.{OwnerStanding, standing_with};

    ghost Value = { OwnerStanding };

    ghost view = { λ k. standing_with k.owner k.certs.items k.stapler };
}

impl Knowing {
    ghost use Rattle.owner_keeper.specs.Keeping.{Does, draft_of, order_row};
    ghost use Rattle.owner_keeper.specs.declared.order.OwnerOrder.TheVariants as orders;

    /// The certificate of the draft with this number; `None` where there is none.
    pub(crate) fn cert(&self, draft: u64) -> Option<&Cert>
        ensures { option_copied result ≡ draft_of self.now draft }
    {
        cert_of(&self.certs, draft)
    }

    /// Takes a message. All memory is taken before the first change.
    fn take(&mut self, alloc: Global, bytes: &[u8]) -> Result<OwnerReply, OwnerOrderRefusal>
        ensures { Does self.old self.new result (order_row self.old (orders.Take bytes.now)) }
    {
        let keys = self.stapler.keys_behind(alloc, bytes)?;
        match self.owner.step(alloc, bytes) {
            Ok(sent) => {
                self.stapler.go_on_with(keys);
                Ok(OwnerReply::Sends(sent))
            }
            Err(refusal) => Err(OwnerOrderRefusal::Owner(refusal)),
        }
    }

    /// Makes a certificate a draft. All memory is taken before the first change.
    fn begin(
        &mut self,
        alloc: Global,
        cert: &Cert,
        asks: &[u16],
    ) -> Result<OwnerReply, OwnerOrderRefusal>
        ensures { Does self.old self.new result
            (order_row self.old (orders.Begin cert.now asks.now)) }
    {
        if asks.len() > MOST_ASKS {
            return Err(OwnerOrderRefusal::Long);
        }
        let own = cert.copy(alloc)?;
        let known = cert.copy(alloc)?;
        self.certs.reserve(1)?;
        match self.owner.begin(alloc, own, asks) {
            Ok(sent) => {
                self.certs.push_reserved(known);
                Ok(OwnerReply::Sends(sent))
            }
            Err(refusal) => Err(OwnerOrderRefusal::Owner(refusal)),
        }
    }

    /// Knows a certificate.
    fn know(&mut self, alloc: Global, cert: &Cert) -> Result<OwnerReply, OwnerOrderRefusal>
        ensures { Does self.old self.new result (order_row self.old (orders.Know cert.now)) }
    {
        let known = cert.copy(alloc)?;
        self.certs.push(known)?;
        Ok(silence(alloc))
    }

    /// Signs the handover to a draft, and puts it to that draft where it is its own.
    fn hand_over(&mut self, alloc: Global, draft: u64) -> Result<OwnerReply, OwnerOrderRefusal>
        ensures { Does self.old self.new result (order_row self.old (orders.Handover draft)) }
    {
        let Some(digest) = digest_at(&self.certs, draft) else {
            return Err(OwnerOrderRefusal::NoCertificate);
        };
        handed_reply(digest, hand(&mut self.owner, alloc, &digest))
    }

    /// Puts a handover to a draft.
    fn attach(
        &mut self,
        alloc: Global,
        draft: u64,
        handover: &[u8],
    ) -> Result<OwnerReply, OwnerOrderRefusal>
        ensures { Does self.old self.new result
            (order_row self.old (orders.Attach draft handover.now)) }
    {
        if handover.len() > MOST_HANDOVER {
            return Err(OwnerOrderRefusal::Long);
        }
        let Some(digest) = digest_at(&self.certs, draft) else {
            return Err(OwnerOrderRefusal::NoCertificate);
        };
        let copied = Vec::from_slice(alloc, handover)?;
        silent_reply(alloc, self.owner.attach(&digest, copied))
    }

    /// Objects to a draft.
    fn object(&mut self, alloc: Global, draft: u64) -> Result<OwnerReply, OwnerOrderRefusal>
        ensures { Does self.old self.new result (order_row self.old (orders.Object draft)) }
    {
        let Some(cert) = cert_of(&self.certs, draft) else {
            return Err(OwnerOrderRefusal::NoCertificate);
        };
        sent_reply(self.owner.object(alloc, cert))
    }

    /// Sends a draft to all logs.
    fn submit(&self, alloc: Global, draft: u64) -> Result<OwnerReply, OwnerOrderRefusal>
        ensures { Does self.now self.now result (order_row self.now (orders.Submit draft)) }
    {
        let Some(digest) = digest_at(&self.certs, draft) else {
            return Err(OwnerOrderRefusal::NoCertificate);
        };
        sent_reply(self.owner.submit(alloc, &digest))
    }

    /// Allows staples for a TLS key.
    fn allow(&mut self, alloc: Global, permit: &Permit) -> Result<OwnerReply, OwnerOrderRefusal>
        ensures { Does self.old self.new result (order_row self.old (orders.Allow permit.now)) }
    {
        need_known(&self.certs, permit.draft)?;
        self.stapler.allow(permit)?;
        Ok(silence(alloc))
    }

    /// Allows them no longer.
    fn disallow(&mut self, alloc: Global, permit: &Permit) -> Result<OwnerReply, OwnerOrderRefusal>
        ensures { Does self.old self.new result (order_row self.old (orders.Disallow permit.now)) }
    {
        need_known(&self.certs, permit.draft)?;
        self.stapler.disallow(permit);
        Ok(silence(alloc))
    }

    /// Signs a staple of an epoch that was confirmed.
    fn restaple(
        &mut self,
        alloc: Global,
        staple: &KeptStaple,
    ) -> Result<OwnerReply, OwnerOrderRefusal>
        ensures { Does self.old self.new result (order_row self.old (orders.Restaple staple.now)) }
    {
        let Some(cert) = cert_of(&self.certs, staple.draft) else {
            return Err(OwnerOrderRefusal::NoCertificate);
        };
        need_own(&self.owner, cert)?;
        self.stapler.may_staple(&self.owner, staple)?;
        let signature = self.stapler.sign(alloc, &mut self.owner, cert, staple);
        stapled_reply(cert, staple, signature)
    }

    /// Signs the staple of the epoch of a confirmation.
    fn staple(
        &mut self,
        alloc: Global,
        permit: &Permit,
        confirmation: &[u8],
    ) -> Result<OwnerReply, OwnerOrderRefusal>
        ensures { Does self.old self.new result
            (order_row self.old (orders.Staple permit.now confirmation.now)) }
    {
        let Some(cert) = cert_of(&self.certs, permit.draft) else {
            return Err(OwnerOrderRefusal::NoCertificate);
        };
        let epoch = self.stapler.confirmed_epoch(cert, confirmation)?;
        self.restaple(alloc, &KeptStaple::new(permit, epoch))
    }

    /// Does what it is asked. After a refusal it is as it was.
    pub(crate) fn act(
        &mut self,
        alloc: Global,
        order: &OwnerOrder,
    ) -> Result<OwnerReply, OwnerOrderRefusal>
        ensures { Does self.old self.new result (order_row self.old order.now) }
    {
        match order {
            OwnerOrder::Take(bytes) => self.take(alloc, bytes.as_slice()),
            OwnerOrder::Begin { cert, asks } => self.begin(alloc, cert, asks.as_slice()),
            OwnerOrder::Know { cert } => self.know(alloc, cert),
            OwnerOrder::Handover { draft } => self.hand_over(alloc, *draft),
            OwnerOrder::Attach { draft, handover } => {
                self.attach(alloc, *draft, handover.as_slice())
            }
            OwnerOrder::Object { draft } => self.object(alloc, *draft),
            OwnerOrder::Submit { draft } => self.submit(alloc, *draft),
            OwnerOrder::Allow(permit) => self.allow(alloc, permit),
            OwnerOrder::Disallow(permit) => self.disallow(alloc, permit),
            OwnerOrder::Staple {
                permit,
                confirmation,
            } => self.staple(alloc, permit, confirmation.as_slice()),
            OwnerOrder::Restaple(staple) => self.restaple(alloc, staple),
            OwnerOrder::Leaves => Ok(silence(alloc)),
        }
    }
}
