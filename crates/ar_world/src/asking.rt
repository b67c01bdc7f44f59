//! The line `ask`.

ghost use Rattle.std.specs.Prelude.{◌≡◌, ◌+◌, ◌++◌, ◌∷◌, [], length, map, IfOk, OnOk, OnErr};
ghost use Rattle.ar_message.specs.Messages.{message_text};
ghost use Rattle.ar_message.specs.declared.message.Message.TheVariants.{ConfirmAsk};
ghost use Rattle.ar_statement.specs.Claims.{client_party, party};
ghost use Rattle.ar_statement.specs.declared.party.Role.TheVariants.{Client};
ghost use Rattle.ar_world.specs.Asking.{ask_line, question};
ghost use Rattle.ar_nodes.specs.Pool.{entries_from, pooled_from};
ghost use Rattle.ar_world.specs.Step.{StepsBy};

use crate::world::World;
use ar_base::Items;
use ar_message::{Address, Message, Outgoing};
use ar_names::NameView;
use ar_nodes::sending::{enter, pooled_from, reserve};
use ar_nodes::{Pool, WorldFault};
use ar_statement::{Party, Role};
use owner_check::OwnerCheck;
use report_text::Happening;
use std::alloc::{AllocError, Global};

/// The text by which a client asks for a name.
fn question_text(
    alloc: Global,
    name: &NameView<'_>,
    first: u16,
    second: u16,
    client: u16,
) -> Result<Vec<u8>, AllocError>
    ensures { IfOk result (λ text.
        text.items ≡ message_text (ConfirmAsk client name.now first second)) }
{
    let name = name.to_name(alloc)?;
    let message = Message::ConfirmAsk {
        client,
        name,
        first,
        second,
    };
    message.text(alloc)
}

/// One message of a party enters the pool, and this is told.
fn post_one(
    alloc: Global,
    pool: &mut Pool,
    sender: Party,
    outgoing: Outgoing,
) -> Result<Items<Happening>, AllocError>
    ensures pool { OnOk result
        (pool.new.messages ≡ pool.old.messages ++ map (pooled_from sender) (outgoing ∷ [])) }
    ensures said { IfOk result (λ said. said
        ≡ entries_from (length pool.old.messages + 1) (map (pooled_from sender) (outgoing ∷ []))) }
    ensures err { OnErr result (pool.new.messages ≡ pool.old.messages) }
{
    let mut said = reserve(alloc, pool, 1)?;
    enter(pool, &mut said, pooled_from(alloc, sender, outgoing));
    Ok(Items::from_vec(said))
}

/// A client asks a log, and two authorities, for a name.
fn ask(
    alloc: Global,
    pool: &mut Pool,
    log: u16,
    name: &NameView<'_>,
    authorities: (u16, u16),
    client: u16,
) -> Result<Items<Happening>, AllocError>
    ensures pool { OnOk result (pool.new.messages
        ≡ pool.old.messages
        ++ map (pooled_from (client_party client))
        (question log name.now authorities.0 authorities.1 client).messages) }
    ensures said { IfOk result (λ said. said
        ≡ entries_from (length pool.old.messages + 1)
        (map (pooled_from (client_party client))
        (question log name.now authorities.0 authorities.1 client).messages)) }
    ensures err { OnErr result (pool.new.messages ≡ pool.old.messages) }
{
    let (first, second) = authorities;
    let text = question_text(alloc, name, first, second, client)?;
    let outgoing = Outgoing::new(Address::One(Role::LogServer.party(log)), text);
    post_one(alloc, pool, Role::Client.party(client), outgoing)
}

impl<C: OwnerCheck> World<C> {
    /// The line `ask`: a client asks a log, and two authorities, for a name.
    pub(crate) fn ask_line(
        &mut self,
        alloc: Global,
        log: u16,
        name: &NameView<'_>,
        authorities: (u16, u16),
        client: u16,
    ) -> Result<Items<Happening>, WorldFault>
        ensures { StepsBy result self.old self.new
            (ask_line self.old log name.now authorities.0 authorities.1 client) }
    {
        let (first, second) = authorities;
        self.need_there(1, Role::LogServer, log)?;
        self.need_there(3, Role::Authority, first)?;
        self.need_there(4, Role::Authority, second)?;
        self.need_room()?;
        let said = ask(alloc, &mut self.pool, log, name, (first, second), client)?;
        Ok(said)
    }
}
