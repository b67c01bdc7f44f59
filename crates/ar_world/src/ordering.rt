//! The orders to honest logs and authorities.

ghost use Rattle.std.specs.Prelude.{◌≡◌, ◌<◌, length, is_some, true, IfSome, OnOk, Some};
ghost use Rattle.ar_base.specs.Chaining.{need};
ghost use Rattle.ar_nodes.specs.log_core.Inputs.{input_of};
ghost use Rattle.ar_nodes.specs.log_core.Keyed.{IsPlain};
ghost use Rattle.ar_world.specs.Finding.{authority_at, log_at};
ghost use Rattle.ar_world.specs.Ordering.{log_order, pass_line, propose_line, roll_line, roll_of};
ghost use Rattle.ar_world.specs.Step.{StepsBy};
ghost use Rattle.ar_nodes.specs.declared.fault.WorldFault.TheVariants.{Absent};
ghost use Rattle.ar_statement.specs.declared.party.Role.TheVariants as roles;

use crate::world::World;
use ar_base::Items;
use ar_nodes::finding::honest;
use ar_nodes::obeying::{authority_rolls_there, log_obeys_there, log_rolls_there};
use ar_nodes::{LogEvent, LogInput, WorldFault};
use ar_statement::{Party, Role};
use owner_check::OwnerCheck;
use report_text::{Happening, What};
use std::alloc::Global;

impl<C: OwnerCheck> World<C> {
    /// Refuses a first word that names no honest log. One that is there has a key.
    fn need_log(&self, number: u16) -> Result<(), WorldFault>
        ensures there { result ≡ need (is_some (log_at self.now number)) (Absent 1) }
        ensures known { OnOk result (is_some (log_at self.now number) ≡ true) }
        ensures keyed { IfSome (log_at self.now number) (λ node. 0 < length node.keys) }
    {
        let Some(node) = honest(&self.logs, number) else {
            return Err(WorldFault::Absent(1));
        };
        node.told();
        Ok(())
    }

    /// Refuses a first word that names no honest authority. One that is there has a key.
    fn need_authority(&self, number: u16) -> Result<(), WorldFault>
        ensures there { result ≡ need (is_some (authority_at self.now number)) (Absent 1) }
        ensures known { OnOk result (is_some (authority_at self.now number) ≡ true) }
        ensures keyed { IfSome (authority_at self.now number) (λ node. 0 < length node.keys) }
    {
        let Some(node) = honest(&self.authorities, number) else {
            return Err(WorldFault::Absent(1));
        };
        node.told();
        Ok(())
    }

    /// An honest log does what it is asked, which is not to go on to a key.
    #[tactic(auto, using(crate::proofs::Orders::log_orders, ar_nodes::proofs::Spots::spots, crate::proofs::Seats::still_kept))]
    fn log_order(
        &mut self,
        alloc: Global,
        number: u16,
        what: What,
        event: LogEvent,
        input: &LogInput,
    ) -> Result<Items<Happening>, WorldFault>
        requires { IsPlain (input_of input.now) }
        ensures { StepsBy result self.old self.new
            (log_order self.old number what event (input_of input.now)) }
    {
        self.need_log(number)?;
        self.need_room()?;
        log_obeys_there(
            alloc,
            &mut self.pool,
            &mut self.logs[number as usize],
            number,
            what,
            event,
            input,
        )
    }

    /// The line `propose`.
    pub(crate) fn propose_line(
        &mut self,
        alloc: Global,
        log: u16,
    ) -> Result<Items<Happening>, WorldFault>
        ensures { StepsBy result self.old self.new (propose_line self.old log) }
    {
        let input = LogInput::Propose;
        self.log_order(alloc, log, What::Propose, LogEvent::Propose, &input)
    }

    /// The line `pass`.
    pub(crate) fn pass_line(
        &mut self,
        alloc: Global,
        log: u16,
    ) -> Result<Items<Happening>, WorldFault>
        ensures { StepsBy result self.old self.new (pass_line self.old log) }
    {
        let input = LogInput::Pass;
        self.log_order(alloc, log, What::Pass, LogEvent::Pass, &input)
    }

    /// An honest log goes on to its next key.
    #[tactic(auto, using(crate::proofs::Orders::log_turns, ar_nodes::proofs::Spots::spots, crate::proofs::Seats::still_kept))]
    fn roll_log(&mut self, alloc: Global, number: u16) -> Result<Items<Happening>, WorldFault>
        ensures { StepsBy result self.old self.new (roll_of self.old roles.LogServer number) }
    {
        self.need_log(number)?;
        self.need_room()?;
        log_rolls_there(
            alloc,
            &mut self.pool,
            &mut self.logs[number as usize],
            number,
        )
    }

    /// An honest authority goes on to its next key.
    #[tactic(auto, using(crate::proofs::Orders::authority_turns, ar_nodes::proofs::Spots::spots))]
    fn roll_authority(&mut self, alloc: Global, number: u16) -> Result<Items<Happening>, WorldFault>
        ensures { StepsBy result self.old self.new (roll_of self.old roles.Authority number) }
    {
        self.need_authority(number)?;
        self.need_room()?;
        authority_rolls_there(
            alloc,
            &mut self.pool,
            &mut self.authorities[number as usize],
            number,
        )
    }

    /// The line `roll`.
    pub(crate) fn roll_line(
        &mut self,
        alloc: Global,
        who: Party,
    ) -> Result<Items<Happening>, WorldFault>
        ensures { StepsBy result self.old self.new (roll_line self.old who) }
    {
        match who.role {
            Role::LogServer => self.roll_log(alloc, who.number),
            Role::Authority => self.roll_authority(alloc, who.number),
            Role::Owner | Role::Client => Err(WorldFault::Absent(1)),
        }
    }
}
