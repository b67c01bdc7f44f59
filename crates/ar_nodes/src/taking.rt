//! What parties make of a message of the pool.

ghost use Rattle.std.specs.Prelude.{◌≡◌, true, is_some};
ghost use Rattle.ar_nodes.specs.Acting.{ActsBy, ActsBySome, ChangesAt, ChangesThere, authority_delivered, log_delivered, owner_delivered};
ghost use Rattle.ar_nodes.specs.Finding.{honest_in};

use crate::event::LogEvent;
use crate::fault::WorldFault;
use crate::owners;
use crate::parties::{HonestAuthority, HonestLog};
use crate::pool::Pool;
use crate::replying::MOST_SENT;
use crate::settling::{finish, prepare};
use ar_base::Items;
use ar_statement::Role;
use log_core::LogInput;
use owner_check::OwnerCheck;
use owner_core::Owner;
use report_text::Happening;
use std::alloc::Global;

/// An owner takes a message of the pool.
#[tactic(auto, unfolding(crate::specs::Acting::owner_delivered))]
pub fn owner_takes(
    alloc: Global,
    pool: &mut Pool,
    owner: &mut Owner,
    message: u64,
    number: u16,
) -> Result<Items<Happening>, WorldFault>
    ensures { ActsBy result owner.old owner.new pool.old.messages pool.new.messages
        (owner_delivered pool.old.messages message number owner.old) }
{
    let who = Role::Owner.party(number);
    let ready = prepare(alloc, pool, message, who, MOST_SENT)?;
    let reply = owners::take(alloc, owner, pool.bytes(message))?;
    Ok(finish(alloc, pool, ready, message, who, reply))
}

/// A log that is honest takes a message of the pool.
#[tactic(auto, unfolding(crate::specs::Acting::log_delivered))]
fn log_takes(
    alloc: Global,
    pool: &mut Pool,
    slot: &mut Option<HonestLog>,
    message: u64,
    number: u16,
) -> Result<Items<Happening>, WorldFault>
    requires { is_some slot.old ≡ true }
    ensures { ChangesThere slot.old slot.new (λ was is.
        ActsBy result was is pool.old.messages pool.new.messages
        (log_delivered pool.old.messages message number was)) }
{
    let Some(node) = slot else { unreachable!() };
    let who = Role::LogServer.party(number);
    let ready = prepare(alloc, pool, message, who, MOST_SENT)?;
    let input = LogInput::Take(pool.bytes(message));
    let reply = node.step(alloc, LogEvent::Take(message), &input)?;
    Ok(finish(alloc, pool, ready, message, who, reply))
}

/// The log with a number, which is honest, takes a message of the pool.
#[tactic(auto, using(crate::proofs::Seats::seats))]
pub fn logs_take(
    alloc: Global,
    pool: &mut Pool,
    logs: &mut Vec<Option<HonestLog>>,
    message: u64,
    number: u16,
) -> Result<Items<Happening>, WorldFault>
    requires { is_some (honest_in logs.old.items number) ≡ true }
    ensures { ChangesAt logs.old.items logs.new.items number (λ was is.
        ActsBy result was is pool.old.messages pool.new.messages
        (log_delivered pool.old.messages message number was)) }
{
    log_takes(alloc, pool, &mut logs[number as usize], message, number)
}

/// An authority that is honest takes a message of the pool.
#[tactic(auto, unfolding(crate::specs::Acting::authority_delivered))]
fn authority_takes<C: OwnerCheck>(
    alloc: Global,
    pool: &mut Pool,
    slot: &mut Option<HonestAuthority<C>>,
    message: u64,
    number: u16,
) -> Result<Items<Happening>, WorldFault>
    requires { is_some slot.old ≡ true }
    ensures { ChangesThere slot.old slot.new (λ was is.
        ActsBySome result was is pool.old.messages pool.new.messages
        (λ says. authority_delivered says pool.old.messages message number was)) }
{
    let Some(node) = slot else { unreachable!() };
    let who = Role::Authority.party(number);
    let ready = prepare(alloc, pool, message, who, MOST_SENT)?;
    let reply = node.take(alloc, pool.bytes(message))?;
    Ok(finish(alloc, pool, ready, message, who, reply))
}

/// The authority with a number, which is honest, takes a message of the pool.
#[tactic(auto, using(crate::proofs::Seats::seats))]
pub fn authorities_take<C: OwnerCheck>(
    alloc: Global,
    pool: &mut Pool,
    authorities: &mut Vec<Option<HonestAuthority<C>>>,
    message: u64,
    number: u16,
) -> Result<Items<Happening>, WorldFault>
    requires { is_some (honest_in authorities.old.items number) ≡ true }
    ensures { ChangesAt authorities.old.items authorities.new.items number (λ was is.
        ActsBySome result was is pool.old.messages pool.new.messages
        (λ says. authority_delivered says pool.old.messages message number was)) }
{
    authority_takes(
        alloc,
        pool,
        &mut authorities[number as usize],
        message,
        number,
    )
}
