//! What dishonest parties sign, and bytes that are put into the pool.

ghost use Rattle.std.specs.Prelude.{◌≡◌, ◌⊎◌, ◌<◌, IfErr, IfOk, Err, Ok, Some, length, position};
ghost use Rattle.ar_base.specs.Gives.{GivesUnless};
ghost use Rattle.ar_nodes.specs.Finding.{is_forger};
ghost use Rattle.ar_world.specs.Forging.{composed_in, inject_line, receiver_in, sign_line};
ghost use Rattle.ar_world.specs.Step.{StepsBy};
ghost use Rattle.ar_nodes.specs.declared.fault.WorldFault.TheVariants.{Memory};

use crate::world::World;
use ar_base::Items;
use ar_nodes::forging::{forger_place, put, sign_by_forger};
use ar_nodes::{WorldFault, composed};
use ar_statement::Party;
use owner_check::OwnerCheck;
use report_text::{Happening, Target};
use script_text::Pieces;
use std::alloc::Global;

impl<C: OwnerCheck> World<C> {
    /// The bytes of the pieces of a line that may send.
    #[tactic(auto, using(crate::proofs::Forgers::composed_laws))]
    fn composed_in(&self, alloc: Global, pieces: &Pieces) -> Result<Vec<u8>, WorldFault>
        ensures { GivesUnless Memory (λ bytes.
            bytes.items) result (composed_in self.now pieces.now) }
    {
        let bytes = composed(alloc, &self.pool, pieces)?;
        self.need_room()?;
        Ok(bytes)
    }

    /// The place of the dishonest party that signs, and what it signs, where the line is not refused.
    #[tactic(auto, using(crate::proofs::Forgers::sign_refusals))]
    fn may_sign(
        &self,
        alloc: Global,
        party: Party,
        pieces: &Pieces,
    ) -> Result<(usize, Vec<u8>), WorldFault>
        ensures place { IfOk result (λ found.
            position (is_forger party) self.now.forgers ≡ Some found.0) }
        ensures within { IfOk result (λ found. found.0 < length self.now.forgers) }
        ensures text { IfOk result (λ found. composed_in self.now pieces.now ≡ Ok found.1.items) }
        ensures err { IfErr result (λ fault.
            (fault ≡ Memory) ⊎ (sign_line self.now party pieces.now ≡ Err fault)) }
    {
        let Some(place) = forger_place(&self.forgers, party) else {
            return Err(WorldFault::Absent(1));
        };
        let text = self.composed_in(alloc, pieces)?;
        Ok((place, text))
    }

    /// `sign`: a dishonest party signs bytes that are composed.
    pub(crate) fn sign_line(
        &mut self,
        alloc: Global,
        party: Party,
        pieces: &Pieces,
    ) -> Result<Items<Happening>, WorldFault>
        ensures { StepsBy result self.old self.new (sign_line self.old party pieces.now) }
    {
        let (place, text) = self.may_sign(alloc, party, pieces)?;
        sign_by_forger(alloc, &mut self.pool, &mut self.forgers[place], &text)
    }

    /// To whom bytes go: to a party that is there, or to all logs.
    fn receiver_in(&self, to: Option<Party>) -> Result<Target, WorldFault>
        ensures { result ≡ receiver_in self.now to }
    {
        let Some(party) = to else {
            return Ok(Target::Logs);
        };
        self.need_there(1, party.role, party.number)?;
        Ok(Target::One(party))
    }

    /// `inject`: bytes that are composed enter the pool.
    #[tactic(auto, using(crate::proofs::Forgers::inject_laws))]
    pub(crate) fn inject_line(
        &mut self,
        alloc: Global,
        to: Option<Party>,
        pieces: &Pieces,
    ) -> Result<Items<Happening>, WorldFault>
        ensures { StepsBy result self.old self.new (inject_line self.old to pieces.now) }
    {
        let to = self.receiver_in(to)?;
        let bytes = self.composed_in(alloc, pieces)?;
        let said = put(alloc, &mut self.pool, to, bytes)?;
        Ok(Items::from_vec(said))
    }
}
