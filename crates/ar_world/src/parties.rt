//! The parties of a world apart from it, and what becomes of the world where one of them has replied to a message.

ghost use Rattle.std.specs.Prelude.{◌≡◌, ◌<◌, ◌^◌, is_some, true, length, IfOk, OnErr};
ghost use Rattle.ar_world.specs.Finding.{message_at};
ghost use Rattle.ar_world.specs.Settling.{settled, with_parties, without_parties};

use crate::world::World;
use ar_base::Items;
use ar_nodes::settling::settle;
use ar_nodes::{HonestAuthority, HonestLog, Reply};
use ar_statement::Party;
use owner_check::OwnerCheck;
use report_text::Happening;
use std::alloc::{AllocError, Global};
use std::mem;

/// The logs and authorities of a world, apart from it, so that they can take messages side by side. Each stands in the place
/// with its number, with all that it keeps; in that of a dishonest one is nobody.
#[derive(Drop)]
pub struct Parties<C: OwnerCheck> {
    /// The logs, each with what it did.
    pub logs: Vec<Option<HonestLog>>,
    /// The authorities, each with its check.
    pub authorities: Vec<Option<HonestAuthority<C>>>,
}

impl<C: OwnerCheck> World<C> {
    /// Takes the logs and authorities out of the world, which is left without them. It takes no memory.
    pub fn part(self, alloc: Global) -> (World<C>, Parties<C>)
        ensures world { result.0 ≡ without_parties self }
        ensures logs { result.1.logs.items ≡ self.logs }
        ensures authorities { result.1.authorities.items ≡ self.authorities }
        ensures few { length result.1.logs.items < 2 ^ 16 }
    {
        let mut world = self;
        let logs = mem::replace(&mut world.logs, Vec::new(alloc));
        let authorities = mem::replace(&mut world.authorities, Vec::new(alloc));
        (world, Parties { logs, authorities })
    }

    /// Puts logs and authorities into the world, in the place of those that it has. It takes no memory.
    pub fn join(self, parties: Parties<C>) -> World<C>
        requires few { length parties.logs.items < 2 ^ 16 }
        ensures { result ≡ with_parties self parties.logs.items parties.authorities.items }
    {
        let mut world = self;
        world.logs = parties.logs;
        world.authorities = parties.authorities;
        world
    }

    /// A party has replied so to a message of the pool already: what happens, in order, as if the message were delivered to
    /// it now.
    ///
    /// That the message was delivered is noted, what the party sends enters the pool, and a log that did not refuse notes
    /// that it took the message. The only error is want of memory; then nothing has changed.
    pub fn settle(
        &mut self,
        alloc: Global,
        message: u64,
        who: Party,
        reply: Reply,
    ) -> Result<Items<Happening>, AllocError>
        requires { is_some (message_at self.old message) ≡ true }
        ensures ok { IfOk result (λ said. settled self.old message who reply ≡ (self.new, said)) }
        ensures err { OnErr result (self.new ≡ self.old) }
    {
        settle(alloc, &mut self.pool, &mut self.logs, message, who, reply)
    }
}
