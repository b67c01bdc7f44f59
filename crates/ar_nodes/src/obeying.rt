//! What logs and authorities make of an order.

ghost use Rattle.std.specs.Prelude.{◌≡◌, is_some, true, Some};
ghost use Rattle.lms_tree.specs.KeyParts.{KeyParts};
ghost use Rattle.log_core.specs.Inputs.{input_of};
ghost use Rattle.log_core.specs.Keyed.{IsPlain};
ghost use Rattle.ar_nodes.specs.Acting.{ActsBy, ChangesThere, authority_rolled, log_obeyed, log_rolled};
ghost use Rattle.ar_nodes.specs.Parties.{next_of};

use crate::event::LogEvent;
use crate::fault::WorldFault;
use crate::parties::{HonestAuthority, HonestLog};
use crate::pool::Pool;
use crate::replying::{MOST_SENT, tell_reply};
use crate::sending::reserve;
use ar_base::Items;
use ar_statement::Role;
use log_core::LogInput;
use owner_check::OwnerCheck;
use report_text::{Happening, What};
use std::alloc::Global;

/// A log in its place does what it is asked, which is not to go on to a key.
#[tactic(auto, unfolding(crate::specs::Acting::log_obeyed))]
pub fn log_obeys_there(
    alloc: Global,
    pool: &mut Pool,
    slot: &mut Option<HonestLog>,
    number: u16,
    what: What,
    event: LogEvent,
    input: &LogInput,
) -> Result<Items<Happening>, WorldFault>
    requires plain { IsPlain (input_of input.now) }
    requires there { is_some slot.old ≡ true }
    ensures { ChangesThere slot.old slot.new (λ was is.
        ActsBy result was is pool.old.messages pool.new.messages
        (log_obeyed pool.old.messages number what event (input_of input.now) was)) }
{
    let Some(node) = slot else { unreachable!() };
    let said = reserve(alloc, pool, MOST_SENT)?;
    let reply = node.step(alloc, event, input)?;
    let party = Role::LogServer.party(number);
    Ok(tell_reply(alloc, pool, said, party, what, reply))
}

/// A log in its place goes on to its next key.
#[tactic(auto, unfolding(crate::specs::Acting::log_rolled))]
pub fn log_rolls_there(
    alloc: Global,
    pool: &mut Pool,
    slot: &mut Option<HonestLog>,
    number: u16,
) -> Result<Items<Happening>, WorldFault>
    requires { is_some slot.old ≡ true }
    ensures { ChangesThere slot.old slot.new (λ was is.
        (next : KeyParts) → next_of was.keys ≡ Some next
        → ActsBy result was is pool.old.messages pool.new.messages
        (log_rolled pool.old.messages number next was)) }
{
    let Some(node) = slot else { unreachable!() };
    let said = reserve(alloc, pool, MOST_SENT)?;
    let reply = node.roll(alloc)?;
    let party = Role::LogServer.party(number);
    Ok(tell_reply(alloc, pool, said, party, What::Roll, reply))
}

/// An authority in its place goes on to its next key.
#[tactic(auto, unfolding(crate::specs::Acting::authority_rolled))]
pub fn authority_rolls_there<C: OwnerCheck>(
    alloc: Global,
    pool: &mut Pool,
    slot: &mut Option<HonestAuthority<C>>,
    number: u16,
) -> Result<Items<Happening>, WorldFault>
    requires { is_some slot.old ≡ true }
    ensures { ChangesThere slot.old slot.new (λ was is.
        (next : KeyParts) → next_of was.keys ≡ Some next
        → ActsBy result was is pool.old.messages pool.new.messages
        (authority_rolled pool.old.messages number next was)) }
{
    let Some(node) = slot else { unreachable!() };
    let said = reserve(alloc, pool, MOST_SENT)?;
    let reply = node.roll(alloc)?;
    let party = Role::Authority.party(number);
    Ok(tell_reply(alloc, pool, said, party, What::Roll, reply))
}
