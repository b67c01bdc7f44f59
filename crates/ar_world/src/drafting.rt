//! The lines that make drafts of certificates.

ghost use Rattle.std.specs.Prelude.{◌≡◌, ◌≤◌, ◌<◌, ◌+◌, ◌++◌, ◌∷◌, [], length, map, position, slice_index_or, true, false, vec_len, vec_capacity, ℕ, List, All, IfOk, IfErr, OnOk, Ok, Err, Some};
ghost use Rattle.std.specs.Result.{is_ok};
ghost use Rattle.ar_cert.specs.Certificate.{digest_of};
ghost use Rattle.owner_core.specs.Drafts.{begun_draft};
ghost use Rattle.owner_core.specs.State.{Owner as OwnerState};
ghost use Rattle.report_text.specs.declared.happening.Happening.TheVariants.{Draft};
ghost use Rattle.cert_drafts.specs.Certificates.{first_certificate, next_certificate};
ghost use Rattle.cert_drafts.specs.Policies.{are_authorities, may_wait, policy_of, terms_of};
ghost use Rattle.lms_tree.specs.Key.{public_of};
ghost use Rattle.ar_world.specs.Drafting.{asked, draft_room, drafted, register_line, revoke_line, update_line};
ghost use Rattle.ar_nodes.specs.Finding.{is_owner, named};
ghost use Rattle.ar_world.specs.Finding.{known_asks};
ghost use Rattle.ar_statement.specs.Claims.{owner_party};
ghost use Rattle.ar_nodes.specs.Pool.{entries_from, pooled_from};
ghost use Rattle.ar_world.specs.Step.{StepsBy};
ghost use Rattle.ar_nodes.specs.declared.fault.WorldFault.TheVariants.{Memory};

use crate::drafted::Drafted;
use crate::world::World;
use ar_base::Items;
use ar_cert::Cert;
use ar_message::Sent;
use ar_names::NameView;
use ar_nodes::sending::{post, push_told, reserve};
use ar_nodes::{Pool, WorldFault};
use ar_statement::Role;
use cert_drafts::{
    are_authorities, first_certificate, may_wait, narrow, next_certificate, updated_certificate,
};
use owner_check::OwnerCheck;
use owner_core::Owner;
use report_text::Happening;
use script_text::{NumberList, PolicyWords};
use std::alloc::{AllocError, Global};

/// How many drafts there may be.
const MOST_DRAFTS: usize = 4096;

// ---- policies

/// Refuses words that say no policy, of which the first has this number. No line that is read has such words.
#[tactic(auto, using(crate::proofs::Terms::policies, crate::proofs::Refused::names_policy))]
fn need_policy(word: usize, words: &PolicyWords) -> Result<(), WorldFault>
    ensures ascend { OnOk result (are_authorities words.now.trusted ≡ true) }
    ensures wait { OnOk result (may_wait words.now.wait ≡ true) }
    ensures known { OnOk result (is_ok (named word (policy_of words.now)) ≡ true) }
    ensures err { IfErr result (λ fault. named word (policy_of words.now) ≡ Err fault) }
{
    if !are_authorities(words.trusted.as_slice()) || !may_wait(words.wait) {
        return Err(WorldFault::Absent(word));
    }
    Ok(())
}

// ---- certificates

/// The first certificate of a name, with the owner's key. The only error here and below is want of memory.
fn to_register(
    alloc: Global,
    owner: &Owner,
    name: &NameView,
    words: &PolicyWords,
) -> Result<Cert, AllocError>
    requires ascend { are_authorities words.now.trusted ≡ true }
    requires wait { may_wait words.now.wait ≡ true }
    ensures { IfOk result (λ cert.
        cert ≡ first_certificate (public_of owner.now.key) name.now (terms_of words.now)) }
{
    first_certificate(alloc, owner.public(), name, words)
}

/// The certificate behind another, with the owner's key and the policy that words say.
fn to_update(
    alloc: Global,
    owner: &Owner,
    old: &Cert,
    words: &PolicyWords,
) -> Result<Cert, AllocError>
    requires serial { old.now.serial < 4096 }
    requires ascend { are_authorities words.now.trusted ≡ true }
    requires wait { may_wait words.now.wait ≡ true }
    ensures { IfOk result (λ cert.
        cert ≡ next_certificate (public_of owner.now.key) old.now (terms_of words.now) false) }
{
    updated_certificate(alloc, owner.public(), old, words)
}

/// The certificate behind another by which its name is revoked, with the owner's key.
fn to_revoke(alloc: Global, owner: &Owner, old: &Cert) -> Result<Cert, AllocError>
    requires { old.now.serial < 4096 }
    ensures { IfOk result (λ cert.
        cert ≡ next_certificate (public_of owner.now.key) old.now old.now.policy true) }
{
    next_certificate(alloc, owner.public(), old, true)
}

// ---- a new draft

/// A draft gets the next number, for which there is room, and what its owner sends enters the pool.
fn enter_draft(
    alloc: Global,
    drafts: &mut Vec<Drafted>,
    pool: &mut Pool,
    said: &mut Vec<Happening>,
    draft: Drafted,
    sent: Sent,
)
    requires drafts { vec_len drafts.old < vec_capacity drafts.old }
    requires pool { length sent.messages ≤ pool.old.room }
    requires said { vec_len said.old + 1 + length sent.messages ≤ vec_capacity said.old }
    ensures drafts { drafts.new.items ≡ drafts.old.items ++ draft ∷ [] }
    ensures pool { pool.new.messages
        ≡ pool.old.messages ++ map (pooled_from (owner_party draft.owner)) sent.messages }
    ensures said { said.new.items
        ≡ (said.old.items ++ Draft (length drafts.old.items + 1) (digest_of draft.cert) ∷ [])
        ++ entries_from (length pool.old.messages + 1)
        (map (pooled_from (owner_party draft.owner)) sent.messages) }
{
    let happening = Happening::Draft {
        draft: drafts.len() as u64 + 1,
        digest: draft.cert.digest(),
    };
    let sender = Role::Owner.party(draft.owner);
    let Sent { messages, .. } = sent;
    push_told(said, happening);
    post(alloc, pool, said, sender, messages.into_vec());
    drafts.push_reserved(draft);
}

/// An owner makes a certificate its draft, and asks authorities to endorse it.
fn begin(owner: &mut Owner, alloc: Global, cert: Cert, asks: &[u16]) -> Result<Sent, WorldFault>
    ensures owner { IfOk result (λ sent.
        owner.new ≡ record owner.old { drafts = begun_draft owner.old.drafts cert }) }
    ensures sent { IfOk result (λ sent.
        map (pooled_from (owner_party owner.old.number)) sent.messages
        ≡ asked owner.old cert asks.now) }
    ensures len { IfOk result (λ sent. length sent.messages ≡ length asks.now) }
    ensures err { IfErr result (λ fault. (fault ≡ Memory) × (owner.new ≡ owner.old)) }
{
    match owner.begin(alloc, cert, asks) {
        Ok(sent) => Ok(sent),
        Err(_) => Err(WorldFault::Memory),
    }
}

/// A certificate becomes a draft of the script and of its owner, which asks authorities to endorse it.
fn draft(
    alloc: Global,
    owner: &mut Owner,
    drafts: &mut Vec<Drafted>,
    pool: &mut Pool,
    cert: Cert,
    asks: &[u16],
) -> Result<Items<Happening>, WorldFault>
    requires { length asks.now ≤ 16 }
    ensures owner { IfOk result (λ said.
        owner.new ≡ record owner.old { drafts = begun_draft owner.old.drafts cert }) }
    ensures drafts { IfOk result (λ said. drafts.new.items
        ≡ drafts.old.items ++ record { owner = owner.old.number; cert = cert } ∷ []) }
    ensures pool { IfOk result (λ said.
        pool.new.messages ≡ pool.old.messages ++ asked owner.old cert asks.now) }
    ensures said { IfOk result (λ said. said ≡ Draft (length drafts.old.items + 1) (digest_of cert)
        ∷ entries_from (length pool.old.messages + 1) (asked owner.old cert asks.now)) }
    ensures err { IfErr result (λ fault.
        (fault ≡ Memory) × (owner.new ≡ owner.old) × (drafts.new.items ≡ drafts.old.items)
        × (pool.new.messages ≡ pool.old.messages)) }
{
    let copy = cert.copy(alloc)?;
    drafts.reserve(1)?;
    let mut said = reserve(alloc, pool, asks.len())?;
    let sent = begin(owner, alloc, copy, asks)?;
    let owner = owner.number();
    enter_draft(
        alloc,
        drafts,
        pool,
        &mut said,
        Drafted { owner, cert },
        sent,
    );
    Ok(Items::from_vec(said))
}

impl<C: OwnerCheck> World<C> {
    /// Refuses a line that makes a draft where there is no room.
    fn need_draft_room(&self) -> Result<(), WorldFault>
        ensures { result ≡ draft_room self.now }
    {
        if self.drafts.len() >= MOST_DRAFTS {
            return Err(WorldFault::Limit);
        }
        self.need_room()
    }

    /// The owner at its place makes a certificate a draft, and asks authorities to endorse it.
    #[tactic(auto, using(crate::proofs::Drafts::drafts))]
    fn make_draft(
        &mut self,
        alloc: Global,
        place: usize,
        cert: Cert,
        asks: &NumberList,
    ) -> Result<Items<Happening>, WorldFault>
        requires place { place < length self.old.owners }
        requires serial { cert.serial ≤ length self.old.drafts }
        requires asks { All (λ number. number < 65536) asks.now }
        ensures { (me : OwnerState) → me ≡ slice_index_or self.old.owners place me
            → position (is_owner me.number) self.old.owners ≡ Some place
            → StepsBy result self.old self.new (Ok (drafted self.old me cert asks.now)) }
    {
        let asks = narrow(alloc, asks)?;
        let owner = &mut self.owners[place];
        draft(
            alloc,
            owner,
            &mut self.drafts,
            &mut self.pool,
            cert,
            asks.as_slice(),
        )
    }

    // ---- `register`

    /// The place of the owner that registers, where the line is not refused.
    #[tactic(auto, using(crate::proofs::Refused::register_refusals))]
    fn may_register(
        &self,
        owner: u16,
        policy: &PolicyWords,
        asks: &NumberList,
    ) -> Result<usize, WorldFault>
        ensures place { IfOk result (λ place.
            position (is_owner owner) self.now.owners ≡ Some place) }
        ensures within { IfOk result (λ place. place < length self.now.owners) }
        ensures ascend { OnOk result (are_authorities policy.now.trusted ≡ true) }
        ensures wait { OnOk result (may_wait policy.now.wait ≡ true) }
        ensures asks { OnOk result (known_asks self.now 8 asks.now ≡ Ok tt) }
        ensures room { OnOk result (draft_room self.now ≡ Ok tt) }
        ensures err { (name : List ℕ) → IfErr result
            (λ fault. register_line self.now owner name policy.now asks.now ≡ Err fault) }
    {
        let place = self.owner_named(1, owner)?;
        need_policy(3, policy)?;
        self.known_asks(8, asks.as_slice())?;
        self.need_draft_room()?;
        Ok(place)
    }

    /// An owner drafts the first certificate of a name.
    #[tactic(auto, using(crate::proofs::Drafts::registered, crate::proofs::Drafts::known_below))]
    pub(crate) fn register_line(
        &mut self,
        alloc: Global,
        owner: u16,
        name: &NameView,
        policy: &PolicyWords,
        asks: &NumberList,
    ) -> Result<Items<Happening>, WorldFault>
        ensures { StepsBy result self.old self.new
            (register_line self.old owner name.now policy.now asks.now) }
    {
        let place = self.may_register(owner, policy, asks)?;
        let cert = to_register(alloc, &self.owners[place], name, policy)?;
        self.make_draft(alloc, place, cert, asks)
    }

    // ---- `update`

    /// The place of the owner that updates, where the line is not refused.
    #[tactic(auto, using(crate::proofs::Refused::update_refusals))]
    fn may_update(
        &self,
        owner: u16,
        draft: u64,
        policy: &PolicyWords,
        asks: &NumberList,
    ) -> Result<(usize, usize), WorldFault>
        ensures place { IfOk result (λ places.
            position (is_owner owner) self.now.owners ≡ Some places.0) }
        ensures within { IfOk result (λ places. places.0 < length self.now.owners) }
        ensures draft { IfOk result (λ places. draft ≡ places.1 + 1) }
        ensures found { IfOk result (λ places. places.1 < length self.now.drafts) }
        ensures ascend { OnOk result (are_authorities policy.now.trusted ≡ true) }
        ensures wait { OnOk result (may_wait policy.now.wait ≡ true) }
        ensures asks { OnOk result (known_asks self.now 8 asks.now ≡ Ok tt) }
        ensures room { OnOk result (draft_room self.now ≡ Ok tt) }
        ensures err { IfErr result (λ fault.
            update_line self.now owner draft policy.now asks.now ≡ Err fault) }
    {
        let place = self.owner_named(1, owner)?;
        let old = self.draft_named(2, draft)?;
        need_policy(3, policy)?;
        self.known_asks(8, asks.as_slice())?;
        self.need_draft_room()?;
        Ok((place, old))
    }

    /// An owner drafts the certificate behind a draft.
    #[tactic(auto, using(crate::proofs::Drafts::updated, crate::proofs::Drafts::known_below, crate::proofs::Drafts::serials))]
    pub(crate) fn update_line(
        &mut self,
        alloc: Global,
        owner: u16,
        draft: u64,
        policy: &PolicyWords,
        asks: &NumberList,
    ) -> Result<Items<Happening>, WorldFault>
        ensures { StepsBy result self.old self.new
            (update_line self.old owner draft policy.now asks.now) }
    {
        let (place, old) = self.may_update(owner, draft, policy, asks)?;
        let old = &self.drafts[old].cert;
        let cert = to_update(alloc, &self.owners[place], old, policy)?;
        self.make_draft(alloc, place, cert, asks)
    }

    // ---- `revoke`

    /// The place of the owner that revokes, where the line is not refused.
    #[tactic(auto, using(crate::proofs::Refused::revoke_refusals))]
    fn may_revoke(
        &self,
        owner: u16,
        draft: u64,
        asks: &NumberList,
    ) -> Result<(usize, usize), WorldFault>
        ensures place { IfOk result (λ places.
            position (is_owner owner) self.now.owners ≡ Some places.0) }
        ensures within { IfOk result (λ places. places.0 < length self.now.owners) }
        ensures draft { IfOk result (λ places. draft ≡ places.1 + 1) }
        ensures found { IfOk result (λ places. places.1 < length self.now.drafts) }
        ensures asks { OnOk result (known_asks self.now 3 asks.now ≡ Ok tt) }
        ensures room { OnOk result (draft_room self.now ≡ Ok tt) }
        ensures err { IfErr result (λ fault.
            revoke_line self.now owner draft asks.now ≡ Err fault) }
    {
        let place = self.owner_named(1, owner)?;
        let old = self.draft_named(2, draft)?;
        self.known_asks(3, asks.as_slice())?;
        self.need_draft_room()?;
        Ok((place, old))
    }

    /// An owner drafts the certificate behind a draft by which its name is revoked.
    #[tactic(auto, using(crate::proofs::Drafts::revoked, crate::proofs::Drafts::known_below, crate::proofs::Drafts::serials))]
    pub(crate) fn revoke_line(
        &mut self,
        alloc: Global,
        owner: u16,
        draft: u64,
        asks: &NumberList,
    ) -> Result<Items<Happening>, WorldFault>
        ensures { StepsBy result self.old self.new (revoke_line self.old owner draft asks.now) }
    {
        let (place, old) = self.may_revoke(owner, draft, asks)?;
        let old = &self.drafts[old].cert;
        let cert = to_revoke(alloc, &self.owners[place], old)?;
        self.make_draft(alloc, place, cert, asks)
    }
}
