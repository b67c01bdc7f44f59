//! What becomes of the pool, and of what logs note, where a party has replied to a message of the pool.

ghost use Rattle.std.specs.Prelude.{◌≡◌, ◌≤◌, ◌+◌, [], length, vec_capacity, IfOk, OnOk, OnErr};
ghost use Rattle.std.specs.Option.{option_map};
ghost use Rattle.ar_nodes.specs.Acting.{delivered_by, logs_after, logs_behind, logs_with, settled_in, with_taken};
ghost use Rattle.ar_nodes.specs.Finding.{honest_in};
ghost use Rattle.ar_nodes.specs.Pool.{numbered};

use crate::event::LogEvent;
use crate::parties::HonestLog;
use crate::pool::Pool;
use crate::replying::{Reply, tell_reply};
use crate::sending::reserve;
use ar_base::Items;
use ar_statement::{Party, Role};
use report_text::{Happening, What};
use std::alloc::{AllocError, Global};

/// The memory that a delivery takes: for what is told of it, and to whom the message was delivered then.
#[derive(Drop)]
pub(crate) struct Settling {
    said: Vec<Happening>,
    delivered: Vec<Party>,
}

/// Takes memory for the delivery of a message to a party that sends no more than so many.
pub(crate) fn prepare(
    alloc: Global,
    pool: &mut Pool,
    message: u64,
    who: Party,
    most: usize,
) -> Result<Settling, AllocError>
    ensures none { IfOk result (λ ready. ready.said.items ≡ []) }
    ensures said { IfOk result (λ ready. most + 3 ≤ vec_capacity ready.said) }
    ensures delivered { IfOk result (λ ready.
        ready.delivered.items ≡ delivered_by who (numbered pool.old.messages message)) }
    ensures room { OnOk result (most ≤ pool.new.room) }
    ensures pool { pool.new.messages ≡ pool.old.messages }
{
    let said = reserve(alloc, pool, most)?;
    let delivered = pool.delivered_by(alloc, message, who)?;
    Ok(Settling { said, delivered })
}

/// A delivery for which memory was taken is noted, what the party sends enters the pool, and its reply is told.
pub(crate) fn finish(
    alloc: Global,
    pool: &mut Pool,
    ready: Settling,
    message: u64,
    who: Party,
    reply: Reply,
) -> Items<Happening>
    requires none { ready.said.items ≡ [] }
    requires said { 1 ≤ vec_capacity ready.said }
    requires delivered { ready.delivered.items
        ≡ delivered_by who (numbered pool.old.messages message) }
    requires room { IfOk reply (λ sent.
        (length sent.messages ≤ pool.old.room)
        × (2 + length sent.messages ≤ vec_capacity ready.said)) }
    ensures { settled_in pool.old.messages message who reply ≡ (pool.new.messages, result) }
{
    let Settling { said, delivered } = ready;
    pool.note_delivered(message, delivered);
    tell_reply(alloc, pool, said, who, What::Take(message), reply)
}

/// A log that is honest notes that it took a message. After an error it is as before.
fn note_there(slot: &mut Option<HonestLog>, message: u64) -> Result<(), AllocError>
    ensures ok { OnOk result (slot.new ≡ option_map (with_taken message) slot.old) }
    ensures err { OnErr result (slot.new ≡ slot.old) }
{
    match slot {
        Some(node) => node.note(LogEvent::Take(message)),
        None => Ok(()),
    }
}

/// The log with a number, where it is honest, notes that it took a message. After an error all are as before.
fn note_at(logs: &mut Vec<Option<HonestLog>>, message: u64, number: u16) -> Result<(), AllocError>
    ensures ok { OnOk result
        (logs.new.items ≡ logs_with logs.old.items message number
        (honest_in logs.old.items number)) }
    ensures err { OnErr result (logs.new.items ≡ logs.old.items) }
{
    match logs.get_mut(number as usize) {
        Some(slot) => note_there(slot, message),
        None => Ok(()),
    }
}

/// A party took a message: a log that is honest notes it. After an error all are as before.
fn note_by(logs: &mut Vec<Option<HonestLog>>, message: u64, who: Party) -> Result<(), AllocError>
    ensures ok { OnOk result
        (logs.new.items ≡ logs_after logs.old.items message who.role who.number) }
    ensures err { OnErr result (logs.new.items ≡ logs.old.items) }
{
    match who.role {
        Role::LogServer => note_at(logs, message, who.number),
        Role::Authority | Role::Owner | Role::Client => Ok(()),
    }
}

/// The same of a party that has replied so: one that refused did not take the message.
fn note_taken(
    logs: &mut Vec<Option<HonestLog>>,
    message: u64,
    who: Party,
    reply: &Reply,
) -> Result<(), AllocError>
    ensures ok { OnOk result (logs.new.items ≡ logs_behind logs.old.items message who reply.now) }
    ensures err { OnErr result (logs.new.items ≡ logs.old.items) }
{
    match reply {
        Ok(_) => note_by(logs, message, who),
        Err(_) => Ok(()),
    }
}

/// How many messages a party sends in a reply.
fn sent_in(reply: &Reply) -> usize
    ensures { IfOk reply.now (λ sent. result ≡ length sent.messages) }
{
    match reply {
        Ok(sent) => sent.messages.len(),
        Err(_) => 0,
    }
}

/// A party has replied so to a message of the pool already: that it was delivered is noted, what the party sends enters the
/// pool, and what happened is told. A log notes that it took the message, where it has not refused it. The only error is want
/// of memory; then all is as before.
#[tactic(auto, using(crate::proofs::Settled::as_many_behind))]
pub fn settle(
    alloc: Global,
    pool: &mut Pool,
    logs: &mut Vec<Option<HonestLog>>,
    message: u64,
    who: Party,
    reply: Reply,
) -> Result<Items<Happening>, AllocError>
    ensures pool { IfOk result (λ said.
        settled_in pool.old.messages message who reply ≡ (pool.new.messages, said)) }
    ensures logs { OnOk result (logs.new.items ≡ logs_behind logs.old.items message who reply) }
    ensures err { OnErr result ((pool.new.messages ≡ pool.old.messages)
        × (logs.new.items ≡ logs.old.items)) }
    ensures len { length logs.new.items ≡ length logs.old.items }
{
    let ready = prepare(alloc, pool, message, who, sent_in(&reply))?;
    note_taken(logs, message, who, &reply)?;
    Ok(finish(alloc, pool, ready, message, who, reply))
}
