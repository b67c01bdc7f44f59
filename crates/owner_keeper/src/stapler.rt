//! What an owner goes by when it staples.

ghost use Rattle.std.specs.Prelude.{◌≡◌, ◌<◌, OnOk, filter, not, vec_capacity, vec_len};
ghost use Rattle.ar_base.specs.Adding.{with_one};
ghost use Rattle.owner_keeper.specs.Stapling.{confirmed_epoch, has_newer, is_allowed, is_permit, is_staple, is_stapled, kept_back};
ghost use Rattle.party_keys.specs.Learning.{after_learning};
ghost use Rattle.possession.specs.Connections.{epoch_in};

use crate::{KeptStaple, OwnerOrderRefusal, Permit};
use ar_base::Items;
use ar_cert::Cert;
use bound_challenge::staple_challenge;
use client_rule::{ConfView, Judgement, RollNote, judge};
use owner_core::{Owner, OwnerRefusal};
use party_keys::{Directory, LearnFault};
use std::alloc::{AllocError, Global};
use std::marker::Model;

// ---- what is allowed, and what was signed

/// Whether two permits are one.
fn is_permit(one: &Permit, other: &Permit) -> bool
    ensures { result ≡ is_permit one.now other.now }
{
    one.draft == other.draft && one.channel == other.channel
}

/// Whether a permit is among these.
fn is_allowed(allowed: &[Permit], permit: &Permit) -> bool
    ensures { result ≡ is_allowed allowed.now permit.now }
{
    allowed.iter().any(|one| is_permit(permit, one))
}

/// Takes a permit out.
fn strike(allowed: &mut Vec<Permit>, permit: &Permit)
    ensures { allowed.new.items ≡ filter (λ one. not (is_permit permit.now one)) allowed.old.items }
{
    allowed.retain(|one| !is_permit(permit, one));
}

/// Whether two staples are one.
fn is_staple(one: &KeptStaple, other: &KeptStaple) -> bool
    ensures { result ≡ is_staple one.now other.now }
{
    one.draft == other.draft && one.epoch == other.epoch && one.channel == other.channel
}

/// Whether a staple was signed.
fn is_stapled(staples: &[KeptStaple], staple: &KeptStaple) -> bool
    ensures { result ≡ is_stapled staples.now staple.now }
{
    staples.iter().any(|one| is_staple(staple, one))
}

/// Whether one of a later epoch was, for the same certificate.
fn has_newer(staples: &[KeptStaple], staple: &KeptStaple) -> bool
    ensures { result ≡ has_newer staples.now staple.now }
{
    staples.iter().any(|one| one.draft == staple.draft && staple.epoch < one.epoch)
}

/// Puts a staple behind the others, unless it is there. There is room for it.
fn enter(staples: &mut Vec<KeptStaple>, staple: &KeptStaple)
    requires { vec_len staples.old < vec_capacity staples.old }
    ensures { staples.new.items
        ≡ with_one (λ one more. is_staple more one) staples.old.items staple.now }
{
    if !is_stapled(staples, staple) {
        staples.push_reserved(staple.copy());
    }
}

/// How many leaves of a book staples leave to handovers and objections.
pub(crate) fn kept_back(leaves: u32) -> u32
    ensures { result ≡ kept_back leaves }
{
    if leaves > 64 { 32 } else { leaves / 2 }
}

// ---- notes

/// Teaches a directory what a note announces, where it can learn it.
fn teach(alloc: Global, keys: &mut Directory, note: &RollNote) -> Result<(), AllocError>
    ensures { OnOk result (keys.new ≡ after_learning keys.old note.now) }
{
    match note.teach(alloc, keys) {
        Ok(_) => Ok(()),
        Err(LearnFault::Memory) => Err(AllocError),
        Err(_) => Ok(()),
    }
}

// ---- confirmations

/// The epoch of a confirmation, 0 where the bytes are none.
pub(crate) fn epoch_in(confirmation: &[u8]) -> u64
    ensures { result ≡ epoch_in confirmation.now }
{
    match ConfView::read(confirmation) {
        Some(view) => view.epoch(),
        None => 0,
    }
}

/// The epoch of a confirmation by which this is the newest certificate of its name, for a client with this directory; or why it is
/// not.
fn confirmed_epoch(
    keys: &Directory,
    cert: &Cert,
    confirmation: &[u8],
) -> Result<u64, OwnerOrderRefusal>
    ensures { result ≡ confirmed_epoch keys.now cert.now confirmation.now }
{
    let epoch = epoch_in(confirmation);
    match judge(keys, cert.name.text(), confirmation, epoch, 0) {
        Judgement::Accepted { digest, .. } if digest == cert.digest() => Ok(epoch),
        Judgement::Accepted { .. } | Judgement::Absent { .. } => Err(OwnerOrderRefusal::Superseded),
        Judgement::Refused(check) => Err(OwnerOrderRefusal::Unconfirmed(check)),
    }
}

// ---- all of it

/// What an owner goes by when it staples: the directory of its own client, the TLS keys that are allowed, and the staples that were
/// signed.
#[derive(Drop)]
pub(crate) struct Stapler {
    keys: Directory,
    allowed: Vec<Permit>,
    staples: Vec<KeptStaple>,
}

// Clauses see the three, but for the room of the lists.
impl Model for Stapler {
    ghost use Rattle.owner_keeper.specs.Stapling.{Stapling};

    ghost Value = { Stapling };

    ghost view = { λ s. record { keys = s.keys; allowed = s.allowed.items; staples = s.staples.items } };
}

impl Stapler {
    ghost use Rattle.std.specs.Prelude.{◌≡◌, IfOk, OnOk, OnErr};
    ghost use Rattle.owner_core.specs.Rows.{Answers};
    ghost use Rattle.owner_keeper.specs.Stapling.{allowing, confirmed_epoch, disallowing, first_stapling, keys_behind, may_staple, stapling_by, with_staple};

    /// With this directory, and no TLS key that is allowed.
    pub(crate) fn new(alloc: Global, keys: Directory) -> Stapler
        ensures { result ≡ first_stapling keys }
    {
        Stapler {
            keys,
            allowed: Vec::new(alloc),
            staples: Vec::new(alloc),
        }
    }

    /// The directory behind a message that came. The only error is want of memory.
    pub(crate) fn keys_behind(&self, alloc: Global, bytes: &[u8]) -> Result<Directory, AllocError>
        ensures { IfOk result (λ keys. keys ≡ keys_behind self.now.keys bytes.now) }
    {
        let mut keys = self.keys.copy(alloc)?;
        if let Some(note) = RollNote::read(alloc, bytes)? {
            teach(alloc, &mut keys, &note)?;
        }
        Ok(keys)
    }

    /// Goes on with this directory.
    pub(crate) fn go_on_with(&mut self, keys: Directory)
        ensures { self.new ≡ record self.old { keys = keys } }
    {
        self.keys = keys;
    }

    /// Allows a TLS key. The only error is want of memory, and then all is as it was.
    pub(crate) fn allow(&mut self, permit: &Permit) -> Result<(), AllocError>
        ensures ok { OnOk result (self.new ≡ allowing permit.now self.old) }
        ensures err { OnErr result (self.new ≡ self.old) }
    {
        if is_allowed(&self.allowed, permit) {
            return Ok(());
        }
        self.allowed.push(*permit)?;
        Ok(())
    }

    /// Allows it no longer.
    pub(crate) fn disallow(&mut self, permit: &Permit)
        ensures { self.new ≡ disallowing permit.now self.old }
    {
        strike(&mut self.allowed, permit);
    }

    /// The epoch of a confirmation by which this is the newest certificate of its name; or why it is not.
    pub(crate) fn confirmed_epoch(
        &self,
        cert: &Cert,
        confirmation: &[u8],
    ) -> Result<u64, OwnerOrderRefusal>
        ensures { result ≡ confirmed_epoch self.now.keys cert.now confirmation.now }
    {
        confirmed_epoch(&self.keys, cert, confirmation)
    }

    /// Refuses a staple that this owner may not sign.
    pub(crate) fn may_staple(
        &self,
        owner: &Owner,
        staple: &KeptStaple,
    ) -> Result<(), OwnerOrderRefusal>
        ensures { result ≡ may_staple self.now owner.now.book staple.now }
    {
        if !is_allowed(&self.allowed, &staple.permit()) {
            return Err(OwnerOrderRefusal::NotAllowed);
        }
        if is_stapled(&self.staples, staple) {
            return Ok(());
        }
        if has_newer(&self.staples, staple) {
            return Err(OwnerOrderRefusal::Older);
        }
        if kept_back(owner.book_leaves()) < owner.free() {
            Ok(())
        } else {
            Err(OwnerOrderRefusal::KeptBack)
        }
    }

    /// Has the owner sign a staple for this certificate, and remembers it. All memory is taken before the first change.
    pub(crate) fn sign(
        &mut self,
        alloc: Global,
        owner: &mut Owner,
        cert: &Cert,
        staple: &KeptStaple,
    ) -> Result<Items<u8>, OwnerRefusal>
        ensures answer { Answers (λ signature.
            signature) owner.old owner.new result (stapling_by owner.old cert.now staple.now) }
        ensures ok { OnOk result (self.new ≡ with_staple self.old staple.now) }
        ensures err { OnErr result (self.new ≡ self.old) }
    {
        self.staples.reserve(1)?;
        let challenge = staple_challenge(staple.epoch, &staple.channel);
        let signature = owner.staple(alloc, cert.name.view(), &cert.digest(), &challenge)?;
        enter(&mut self.staples, staple);
        Ok(Items::from_vec(signature))
    }
}
