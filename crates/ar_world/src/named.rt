//! The places of owners and drafts that words of a line name.

ghost use Rattle.std.specs.Prelude.{◌≡◌, ◌+◌, ◌<◌, length, position, true, IfOk, IfErr, IfSome, OnOk, Err, Some};
ghost use Rattle.std.specs.Result.{is_ok};
ghost use Rattle.ar_world.specs.Finding.{draft_at, owner_at};
ghost use Rattle.ar_nodes.specs.Finding.{is_owner, named};

use crate::world::World;
use ar_nodes::WorldFault;
use ar_nodes::finding::owner_place;
use owner_check::OwnerCheck;

impl<C: OwnerCheck> World<C> {
    /// The place of the owner with this number, where there is one.
    #[tactic(auto, using(crate::proofs::Drafts::owner_within))]
    pub(crate) fn place_of_owner(&self, number: u16) -> Option<usize>
        ensures place { result ≡ position (is_owner number) self.now.owners }
        ensures within { IfSome result (λ place. place < length self.now.owners) }
    {
        let place = owner_place(&self.owners, number)?;
        Some(place)
    }

    /// The place of the owner with this number, which the word with that number names.
    #[tactic(auto, using(ar_nodes::proofs::Found::found_owners, crate::proofs::Refused::names_owner))]
    pub(crate) fn owner_named(&self, word: usize, number: u16) -> Result<usize, WorldFault>
        ensures place { IfOk result (λ place.
            position (is_owner number) self.now.owners ≡ Some place) }
        ensures within { IfOk result (λ place. place < length self.now.owners) }
        ensures known { OnOk result (is_ok (named word (owner_at self.now number)) ≡ true) }
        ensures err { IfErr result (λ fault. named word (owner_at self.now number) ≡ Err fault) }
    {
        match self.place_of_owner(number) {
            Some(place) => Ok(place),
            None => Err(WorldFault::Absent(word)),
        }
    }

    /// The place of the draft with this number, which the word with that number names.
    #[tactic(auto, using(crate::proofs::Drafts::draft_places, crate::proofs::Refused::names_counted))]
    pub(crate) fn draft_named(&self, word: usize, number: u64) -> Result<usize, WorldFault>
        ensures place { IfOk result (λ place. number ≡ place + 1) }
        ensures within { IfOk result (λ place. place < length self.now.drafts) }
        ensures known { OnOk result (is_ok (named word (draft_at self.now number)) ≡ true) }
        ensures err { IfErr result (λ fault. named word (draft_at self.now number) ≡ Err fault) }
    {
        if number == 0 || (self.drafts.len() as u64) < number {
            return Err(WorldFault::Absent(word));
        }
        Ok((number - 1) as usize)
    }
}
