//! The lines on what becomes of drafts.

ghost use Rattle.std.specs.Prelude.{◌≡◌, ◌<◌, ◌+◌, ◌^◌, length, position, slice_index_or, IfOk, IfErr, OnOk, Ok, Err, Some};
ghost use Rattle.ar_cert.specs.Certificate.{digest_of};
ghost use Rattle.owner_core.specs.Rows.{handover_row};
ghost use Rattle.owner_core.specs.State.{Owner as OwnerState};
ghost use Rattle.ar_nodes.specs.Finding.{is_owner};
ghost use Rattle.ar_world.specs.Finding.{owner_at, room};
ghost use Rattle.ar_world.specs.State.{Drafted as DraftParts};
ghost use Rattle.ar_world.specs.Step.{StepsBy};
ghost use Rattle.ar_world.specs.Submitting.{attached_by, handed, handover_line, object_line, submit_line};

use crate::world::World;
use ar_base::Items;
use ar_nodes::WorldFault;
use ar_nodes::submitting::{objected, say_refused, submitted, took};
use ar_statement::Role;
use owner_check::OwnerCheck;
use owner_core::{Owner, OwnerRefusal};
use report_text::{Happening, What};
use std::alloc::Global;

impl<C: OwnerCheck> World<C> {
    // ---- `object`

    /// The places of the owner that objects and of the draft, where the line is not refused.
    #[tactic(auto, using(crate::proofs::Refused::object_refusals))]
    fn may_object(&self, owner: u16, draft: u64) -> Result<(usize, usize), WorldFault>
        ensures place { IfOk result (λ places.
            position (is_owner owner) self.now.owners ≡ Some places.0) }
        ensures within { IfOk result (λ places. places.0 < length self.now.owners) }
        ensures draft { IfOk result (λ places. draft ≡ places.1 + 1) }
        ensures found { IfOk result (λ places. places.1 < length self.now.drafts) }
        ensures room { OnOk result (room self.now ≡ Ok tt) }
        ensures err { IfErr result (λ fault. object_line self.now owner draft ≡ Err fault) }
    {
        let place = self.owner_named(1, owner)?;
        let found = self.draft_named(2, draft)?;
        self.need_room()?;
        Ok((place, found))
    }

    /// An owner objects to a draft, of whichever owner.
    pub(crate) fn object_line(
        &mut self,
        alloc: Global,
        owner: u16,
        draft: u64,
    ) -> Result<Items<Happening>, WorldFault>
        ensures { StepsBy result self.old self.new (object_line self.old owner draft) }
    {
        let (place, found) = self.may_object(owner, draft)?;
        let cert = &self.drafts[found].cert;
        let owner_there = &mut self.owners[place];
        objected(alloc, owner_there, &mut self.pool, owner, draft, cert)
    }

    // ---- `submit`

    /// The owner of a draft submits it.
    #[tactic(auto, using(crate::proofs::Refused::submit_refusals, crate::proofs::Answered::submits))]
    pub(crate) fn submit_line(
        &mut self,
        alloc: Global,
        draft: u64,
    ) -> Result<Items<Happening>, WorldFault>
        ensures { StepsBy result self.old self.new (submit_line self.old draft) }
    {
        let spot = self.draft_named(1, draft)?;
        let number = self.drafts[spot].owner;
        let place = self.owner_named(1, number)?;
        self.need_room()?;
        let (owner, cert) = (&self.owners[place], &self.drafts[spot].cert);
        submitted(alloc, owner, &mut self.pool, number, draft, cert)
    }

    // ---- `handover`

    /// The owner at its place puts a handover to its draft with this digest, where there is one.
    #[tactic(auto, using(crate::proofs::Answered::attaches))]
    fn attach_at(
        &mut self,
        place: usize,
        number: u16,
        digest: &[u8; 32],
        handover: Vec<u8>,
    ) -> Result<(), OwnerRefusal>
        requires place { position (is_owner number) self.old.owners ≡ Some place }
        requires within { place < length self.old.owners }
        requires fits { length handover.items < 2 ^ 16 }
        ensures { self.new ≡ attached_by self.old
            (owner_at self.old number) digest.now handover.items }
    {
        self.owners[place].attach(digest, handover)?;
        Ok(())
    }

    /// The owner with this number puts a handover to its draft with this digest, where there are both.
    #[tactic(auto, using(crate::proofs::Answered::attached_nowhere))]
    fn attach(&mut self, holder: u16, digest: &[u8; 32], handover: Vec<u8>)
        requires { length handover.items < 2 ^ 16 }
        ensures { self.new ≡ attached_by self.old
            (owner_at self.old holder) digest.now handover.items }
    {
        if let Some(place) = self.place_of_owner(holder) {
            let _ = self.attach_at(place, holder, digest, handover);
        }
    }

    /// The owner at its place signs the handover to a draft, and the draft's owner puts it to the draft.
    fn hand_over(
        &mut self,
        alloc: Global,
        place: usize,
        number: u16,
        draft: u64,
        holder: u16,
        digest: &[u8; 32],
    ) -> Result<Items<Happening>, WorldFault>
        requires { place < length self.old.owners }
        ensures { (me : OwnerState) (found : DraftParts)
            → me ≡ slice_index_or self.old.owners place me
            → position (is_owner number) self.old.owners ≡ Some place
            → found.owner ≡ holder → digest_of found.cert ≡ digest.now
            → StepsBy result self.old self.new
            (Ok (handed self.old number draft found (handover_row me digest.now))) }
    {
        let said = Vec::with_capacity(alloc, 1)?;
        let owner = Role::Owner.party(number);
        let what = What::Handover(draft);
        match self.owners[place].handover(alloc, digest) {
            Ok(signature) => {
                self.attach(holder, digest, signature);
                Ok(took(said, owner, what))
            }
            Err(refusal) => say_refused(said, owner, what, refusal),
        }
    }

    /// The places of the owner that signs and of the draft, where the line is not refused.
    #[tactic(auto, using(crate::proofs::Refused::handover_refusals))]
    fn may_hand_over(&self, owner: u16, draft: u64) -> Result<(usize, usize), WorldFault>
        ensures place { IfOk result (λ places.
            position (is_owner owner) self.now.owners ≡ Some places.0) }
        ensures within { IfOk result (λ places. places.0 < length self.now.owners) }
        ensures draft { IfOk result (λ places. draft ≡ places.1 + 1) }
        ensures found { IfOk result (λ places. places.1 < length self.now.drafts) }
        ensures err { IfErr result (λ fault. handover_line self.now owner draft ≡ Err fault) }
    {
        let place = self.owner_named(1, owner)?;
        let found = self.draft_named(2, draft)?;
        Ok((place, found))
    }

    /// An owner signs the handover to a draft, of whichever owner, who puts it to the draft.
    pub(crate) fn handover_line(
        &mut self,
        alloc: Global,
        owner: u16,
        draft: u64,
    ) -> Result<Items<Happening>, WorldFault>
        ensures { StepsBy result self.old self.new (handover_line self.old owner draft) }
    {
        let (place, found) = self.may_hand_over(owner, draft)?;
        let found = &self.drafts[found];
        let (holder, digest) = (found.owner, found.cert.digest());
        self.hand_over(alloc, place, owner, draft, holder, &digest)
    }
}
