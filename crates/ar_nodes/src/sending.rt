//! What parties send enters the pool, and what happens in a step is told.

ghost use Rattle.std.specs.Prelude.{◌≡◌, ◌≤◌, ◌<◌, ◌+◌, ◌++◌, ◌∷◌, [], length, map, vec_len, vec_capacity, OnOk, IfOk, None, Some};
ghost use Rattle.report_text.specs.declared.happening.Happening.TheVariants.{Step};
ghost use Rattle.ar_nodes.specs.Pool.{entries_from, entry_of, pooled_from};
ghost use Rattle.ar_nodes.specs.Sending.{ending_of};

use crate::kinds::{kind_of, target_of};
use crate::pool::{Pool, Pooled};
use ar_base::Items;
use ar_bytes::are_bytes;
use ar_message::{Outgoing, Sent};
use ar_statement::Party;
use report_text::{Code, Happening, What};
use sha2::{Digest, Sha256};
use std::alloc::{AllocError, Global};

/// Takes memory for so many messages and for what is told of a step that sends them: three happenings more.
pub fn reserve(
    alloc: Global,
    pool: &mut Pool,
    messages: usize,
) -> Result<Vec<Happening>, AllocError>
    ensures none { IfOk result (λ said. said.items ≡ []) }
    ensures said { IfOk result (λ said. messages + 3 ≤ vec_capacity said) }
    ensures room { OnOk result (messages ≤ pool.new.room) }
    ensures pool { pool.new.messages ≡ pool.old.messages }
{
    let Some(told) = messages.checked_add(3) else {
        return Err(AllocError);
    };
    pool.reserve(messages)?;
    let said = Vec::with_capacity(alloc, told)?;
    Ok(said)
}

/// Tells something, for which there is room.
pub fn push_told(said: &mut Vec<Happening>, happening: Happening)
    requires { vec_len said.old < vec_capacity said.old }
    ensures said { said.new.items ≡ said.old.items ++ happening ∷ [] }
    ensures room { vec_capacity said.old ≤ vec_capacity said.new }
{
    said.push_reserved(happening);
}

/// One thing that is told. The only error is want of memory.
pub fn one_told(alloc: Global, happening: Happening) -> Result<Items<Happening>, AllocError>
    ensures { IfOk result (λ said. said ≡ happening ∷ []) }
{
    let mut said = Vec::with_capacity(alloc, 1)?;
    push_told(&mut said, happening);
    Ok(Items::from_vec(said))
}

/// That a message enters the pool with this number.
fn entry_of(number: u64, message: &Pooled) -> Happening
    ensures { result ≡ entry_of number message.now }
{
    let mut hasher = Sha256::new();
    hasher.update(&message.bytes);
    Happening::Entered {
        message: number,
        kind: message.kind,
        from: message.from,
        to: message.to,
        length: message.bytes.len() as u64,
        digest: hasher.finalize(),
    }
}

/// A message enters the pool, and this is told.
pub fn enter(pool: &mut Pool, said: &mut Vec<Happening>, message: Pooled)
    requires pool { 0 < pool.old.room }
    requires said { vec_len said.old < vec_capacity said.old }
    ensures messages { pool.new.messages ≡ pool.old.messages ++ message ∷ [] }
    ensures room { pool.old.room ≡ 1 + pool.new.room }
    ensures said { said.new.items
        ≡ said.old.items ++ entry_of (length pool.old.messages + 1) message ∷ [] }
    ensures capacity { vec_capacity said.old ≤ vec_capacity said.new }
{
    let number = pool.next_number();
    push_told(said, entry_of(number, &message));
    pool.push(message);
}

/// A message that a party sends, before it is delivered to anyone.
#[tactic(auto, using(crate::proofs::Bytes::byte_laws))]
pub fn pooled_from(alloc: Global, sender: Party, outgoing: Outgoing) -> Pooled
    ensures { result ≡ pooled_from sender outgoing }
{
    let to = target_of(outgoing.to());
    let bytes = outgoing.into_bytes();
    are_bytes(&bytes);
    Pooled {
        kind: kind_of(&bytes),
        from: Some(sender),
        to,
        bytes,
        delivered: Vec::new(alloc),
    }
}

/// What a party sends enters the pool, and this is told.
pub fn post(
    alloc: Global,
    pool: &mut Pool,
    said: &mut Vec<Happening>,
    sender: Party,
    messages: Vec<Outgoing>,
)
    requires pool { length messages.items ≤ pool.old.room }
    requires said { vec_len said.old + length messages.items ≤ vec_capacity said.old }
    ensures pool { pool.new.messages
        ≡ pool.old.messages ++ map (pooled_from sender) messages.items }
    ensures said { said.new.items
        ≡ said.old.items ++ entries_from (length pool.old.messages + 1)
        (map (pooled_from sender) messages.items) }
{
    for outgoing in messages {
        enter(pool, said, pooled_from(alloc, sender, outgoing));
    }
}

/// What is told of the end of an epoch at a log.
fn say_ending(said: &mut Vec<Happening>, log: u16, ended: Option<(u64, Option<[u8; 32]>)>)
    requires { vec_len said.old < vec_capacity said.old }
    ensures said { said.new.items ≡ said.old.items ++ ending_of log ended }
    ensures room { vec_capacity said.old ≤ vec_capacity said.new }
{
    if let Some((epoch, root)) = ended {
        push_told(said, Happening::Ended { log, epoch, root });
    }
}

/// A party made a step: this is told, and what it sends enters the pool.
pub(crate) fn does(
    alloc: Global,
    pool: &mut Pool,
    said: &mut Vec<Happening>,
    party: Party,
    what: What,
    sent: Sent,
)
    requires pool { length sent.messages ≤ pool.old.room }
    requires said { vec_len said.old + 2 + length sent.messages ≤ vec_capacity said.old }
    ensures pool { pool.new.messages ≡ pool.old.messages ++ map (pooled_from party) sent.messages }
    ensures said { said.new.items
        ≡ said.old.items ++ ((Step party what None ∷ ending_of party.number sent.ended)
        ++ entries_from (length pool.old.messages + 1) (map (pooled_from party) sent.messages)) }
{
    let Sent { messages, ended } = sent;
    let step = Happening::Step {
        party,
        what,
        refused: None,
    };
    push_told(said, step);
    say_ending(said, party.number, ended);
    post(alloc, pool, said, party, messages.into_vec());
}

/// A party refused a step: this is told.
pub(crate) fn refuses(said: &mut Vec<Happening>, party: Party, what: What, code: Code)
    requires { vec_len said.old < vec_capacity said.old }
    ensures { said.new.items ≡ said.old.items ++ Step party what (Some code) ∷ [] }
{
    let step = Happening::Step {
        party,
        what,
        refused: Some(code),
    };
    push_told(said, step);
}
