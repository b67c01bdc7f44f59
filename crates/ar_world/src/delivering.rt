//! Deliveries: the line `deliver`, and which delivery is the next of a `flush`.

ghost use Rattle.std.specs.Prelude.{◌≡◌, ◌&&◌, not, true, is_some, length, find, drop, ◌+◌, ◌<◌, IfSome, OnOk, Err};
ghost use Rattle.ar_nodes.specs.declared.fault.WorldFault.{WorldFault};
ghost use Rattle.ar_statement.specs.declared.party.Role.TheVariants as roles;
ghost use Rattle.ar_statement.specs.Claims.{authority_party, log_party, owner_party};
ghost use Rattle.report_text.specs.declared.happening.Target.TheVariants as target;
ghost use Rattle.ar_world.specs.Delivering.{addressed, deliver_line, deliverable, due_from, due_to, is_due, is_sender, next_due, next_due_behind, taker_at};
ghost use Rattle.ar_nodes.specs.Finding.{honest_in};
ghost use Rattle.ar_world.specs.Step.{StepsBySome};

use crate::world::World;
use ar_base::Items;
use ar_nodes::finding::{has_owner, honest};
use ar_nodes::taking::{authorities_take, logs_take, owner_takes};
use ar_nodes::{Pooled, WorldFault};
use ar_statement::{Party, Role, has_party};
use owner_check::OwnerCheck;
use report_text::{Happening, Target};
use std::alloc::Global;

/// Whether the party sent the message.
fn is_sender(from: Option<Party>, who: Party) -> bool
    ensures { result ≡ is_sender from who }
{
    match from {
        Some(sender) => sender.is_same(&who),
        None => false,
    }
}

impl<C: OwnerCheck> World<C> {
    // ---- the line

    /// Whether the party takes deliveries: an honest log, an honest authority or an owner.
    fn takes(&self, who: Party) -> bool
        ensures { result ≡ is_some (taker_at self.now who) }
    {
        match who.role {
            Role::LogServer => honest(&self.logs, who.number).is_some(),
            Role::Authority => honest(&self.authorities, who.number).is_some(),
            Role::Owner => has_owner(&self.owners, who.number),
            Role::Client => false,
        }
    }

    /// Whether the line `deliver` is taken where it may come, behind the line `authorities`, or why it is refused: `Absent(1)`
    /// where there is no message with this number, `Absent(2)` where the party takes no deliveries, and `Limit` where the pool
    /// is full.
    #[tactic(auto, using(crate::proofs::Deliveries::can), unfolding(crate::specs::Finding::has_room))]
    pub fn can_deliver(&self, message: u64, party: Party) -> Result<(), WorldFault>
        ensures { result ≡ deliverable self.now message party }
    {
        if !self.pool.has(message) {
            return Err(WorldFault::Absent(1));
        }
        if !self.takes(party) {
            return Err(WorldFault::Absent(2));
        }
        if !self.pool.has_room() {
            return Err(WorldFault::Limit);
        }
        Ok(())
    }

    /// Whether the line `deliver` is taken, which names a log. Then the log is there.
    #[tactic(auto, using(crate::proofs::Deliveries::log_there))]
    fn can_deliver_to_log(&self, message: u64, number: u16) -> Result<(), WorldFault>
        ensures can { result ≡ deliverable self.now message (log_party number) }
        ensures there { OnOk result (is_some (honest_in self.now.logs number) ≡ true) }
    {
        self.can_deliver(message, Role::LogServer.party(number))
    }

    /// Whether the line `deliver` is taken, which names an authority. Then the authority is there.
    #[tactic(auto, using(crate::proofs::Deliveries::authority_there))]
    fn can_deliver_to_authority(&self, message: u64, number: u16) -> Result<(), WorldFault>
        ensures can { result ≡ deliverable self.now message (authority_party number) }
        ensures there { OnOk result (is_some (honest_in self.now.authorities number) ≡ true) }
    {
        self.can_deliver(message, Role::Authority.party(number))
    }

    /// A message goes to a log.
    #[tactic(auto, using(crate::proofs::Deliveries::not_delivered))]
    fn deliver_to_log(
        &mut self,
        alloc: Global,
        message: u64,
        number: u16,
    ) -> Result<Items<Happening>, WorldFault>
        ensures steps { StepsBySome result self.old self.new (λ says.
            deliver_line says self.old message (log_party number)) }
        ensures refused { (why : WorldFault)
            → deliverable self.old message (log_party number) ≡ Err why → result ≡ Err why }
    {
        self.can_deliver_to_log(message, number)?;
        logs_take(alloc, &mut self.pool, &mut self.logs, message, number)
    }

    /// A message goes to an authority.
    #[tactic(auto, using(crate::proofs::Deliveries::not_delivered))]
    fn deliver_to_authority(
        &mut self,
        alloc: Global,
        message: u64,
        number: u16,
    ) -> Result<Items<Happening>, WorldFault>
        ensures steps { StepsBySome result self.old self.new (λ says.
            deliver_line says self.old message (authority_party number)) }
        ensures refused { (why : WorldFault)
            → deliverable self.old message (authority_party number) ≡ Err why → result ≡ Err why }
    {
        self.can_deliver_to_authority(message, number)?;
        authorities_take(
            alloc,
            &mut self.pool,
            &mut self.authorities,
            message,
            number,
        )
    }

    /// A message goes to an owner.
    #[tactic(auto, using(crate::proofs::Deliveries::to_owner, crate::proofs::Deliveries::owner_refusals))]
    fn deliver_to_owner(
        &mut self,
        alloc: Global,
        message: u64,
        number: u16,
    ) -> Result<Items<Happening>, WorldFault>
        ensures steps { StepsBySome result self.old self.new (λ says.
            deliver_line says self.old message (owner_party number)) }
        ensures refused { (why : WorldFault)
            → deliverable self.old message (owner_party number) ≡ Err why → result ≡ Err why }
    {
        if !self.pool.has(message) {
            return Err(WorldFault::Absent(1));
        }
        let place = self.owner_named(2, number)?;
        self.need_room()?;
        let owner = &mut self.owners[place];
        owner_takes(alloc, &mut self.pool, owner, message, number)
    }

    /// Why a message does not go to a client.
    #[tactic(auto, using(crate::proofs::Deliveries::clients))]
    fn client_refusal(&self, message: u64, who: Party) -> WorldFault
        requires { who.role ≡ roles.Client }
        ensures { deliverable self.now message who ≡ Err result }
    {
        if !self.pool.has(message) {
            return WorldFault::Absent(1);
        }
        WorldFault::Absent(2)
    }

    /// Delivers a message to a party, whoever it is addressed to, and however often it was delivered: what happens, in order.
    ///
    /// It is what a line `deliver` does, where that may come. The errors are those of `can_deliver`, which no want of memory
    /// replaces, and behind them want of memory; then nothing has changed.
    #[tactic(auto, using(crate::proofs::Deliveries::roles, crate::proofs::Deliveries::refusals))]
    pub fn deliver(
        &mut self,
        alloc: Global,
        message: u64,
        who: Party,
    ) -> Result<Items<Happening>, WorldFault>
        ensures steps { StepsBySome result self.old self.new
            (λ says. deliver_line says self.old message who) }
        ensures refused { (why : WorldFault)
            → deliverable self.old message who ≡ Err why → result ≡ Err why }
    {
        match who.role {
            Role::LogServer => self.deliver_to_log(alloc, message, who.number),
            Role::Authority => self.deliver_to_authority(alloc, message, who.number),
            Role::Owner => self.deliver_to_owner(alloc, message, who.number),
            Role::Client => Err(self.client_refusal(message, who)),
        }
    }

    // ---- what is due

    /// Whether the party takes deliveries, and the message was never delivered to it. That it was is looked at first: it is
    /// so of most messages, and whether an owner is there is searched among all owners.
    #[tactic(auto, using(crate::proofs::Due::due_once))]
    fn is_due(&self, message: &Pooled, who: Party) -> bool
        ensures { result ≡ is_due self.now message.now who }
    {
        if has_party(&message.delivered, who) {
            return false;
        }
        self.takes(who)
    }

    /// Whether a message that goes to all logs is due to this one: it is not addressed to its sender.
    fn is_due_other(&self, message: &Pooled, who: Party) -> bool
        ensures { result ≡ (not
            (is_sender message.now.from who) && is_due self.now message.now who) }
    {
        !is_sender(message.from, who) && self.is_due(message, who)
    }

    /// How many logs there are, honest or not.
    fn log_count(&self) -> u16
        ensures { result ≡ length self.now.logs }
    {
        self.logs.len() as u16
    }

    /// The first of so many logs to which a message is due that goes to all logs.
    #[tactic(auto, using(crate::proofs::Due::due_to_logs))]
    fn due_log(&self, message: &Pooled, count: u16) -> Option<Party>
        ensures { result ≡ find (is_due self.now message.now)
            (addressed count message.now.from target.Logs) }
    {
        for number in 0..count {
            let who = Role::LogServer.party(number);
            if self.is_due_other(message, who) {
                return Some(who);
            }
        }
        None
    }

    /// The first party to which a message is due.
    fn due_to(&self, message: &Pooled) -> Option<Party>
        ensures { result ≡ due_to self.now message.now }
    {
        match message.to {
            Target::Nobody => None,
            Target::Logs => self.due_log(message, self.log_count()),
            Target::One(who) if self.is_due(message, who) => Some(who),
            Target::One(_) => None,
        }
    }

    /// The first delivery that is due of these messages, of which the first has the number 1, behind so many in front.
    #[tactic(auto, using(crate::proofs::Due::due_messages))]
    fn due_in(&self, front: usize, messages: &[Pooled]) -> Option<(u64, Party)>
        ensures { result ≡ due_from self.now (front + 1) (drop front messages.now) }
    {
        for place in front..messages.len() {
            if let Some(who) = self.due_to(&messages[place]) {
                return Some((place as u64 + 1, who));
            }
        }
        None
    }

    /// The next delivery of a `flush`: of the first message that is due to a party which it is addressed to, to the first
    /// such. A message that goes to all logs is addressed to all but its sender, ascending.
    pub fn next_due(&self) -> Option<(u64, Party)>
        ensures { result ≡ next_due self.now }
    {
        self.next_due_behind(0)
    }

    /// The same of the messages behind so many in front, which are not looked at. A delivery that is due leaves nothing due
    /// before its message, so that all deliveries of a `flush` are found in one search.
    pub fn next_due_behind(&self, front: usize) -> Option<(u64, Party)>
        ensures due { result ≡ next_due_behind self.now front }
        ensures behind { IfSome result (λ due. front < due.0) }
    {
        self.due_in(front, self.pool.as_slice())
    }
}
