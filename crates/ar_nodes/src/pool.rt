//! The pool of messages.

ghost use Rattle.std.specs.Prelude.{◌≡◌, ◌<◌, ◌+◌, ◌^◌, ◌&&◌, ◌++◌, ◌∷◌, [], nat_lt, is_some, length, max, OnOk, OnErr, IfOk};
ghost use Rattle.std.specs.Option.{option_copied};
ghost use Rattle.ar_nodes.specs.Acting.{bytes_of, delivered_by, with_delivered};
ghost use Rattle.ar_nodes.specs.Pool.{delivered_to, most_pool_bytes, most_messages, bytes_in, numbered};

use ar_statement::{Party, has_party};
use report_text::{Kind, Target};
use std::alloc::{AllocError, Global};
use std::marker::Model;

/// How many messages the pool has when it is full.
pub const MOST_MESSAGES: usize = 65528;

/// How many bytes its messages have when it is full.
const MOST_BYTES: usize = 260046848;

/// A message of the pool.
#[derive(Drop)]
pub struct Pooled {
    /// Its kind.
    pub kind: Kind,
    /// Who sent it; `None` where a script composed it.
    pub from: Option<Party>,
    /// To whom it goes.
    pub to: Target,
    /// Its bytes.
    pub bytes: Vec<u8>,
    /// To whom it was delivered, each once.
    pub delivered: Vec<Party>,
}

// Clauses see the bytes and the parties, however much room they keep.
impl Model for Pooled {
    ghost use Rattle.ar_nodes.specs.Pool.{Pooled as Parts};

    ghost Value = { Parts };

    ghost view = { λ p. record {
      kind = p.kind;
      from = p.from;
      to = p.to;
      bytes = p.bytes.items;
      delivered = p.delivered.items;
    } };
}

/// All messages of a world, numbered from 1 in the order in which they came.
#[derive(Drop)]
pub struct Pool {
    messages: Vec<Pooled>,
    // How many bytes may still come before the pool is full.
    left: usize,
    // For how many messages more memory was taken.
    room: usize,
}

// Clauses see the messages and the room.
impl Model for Pool {
    ghost use Rattle.std.specs.Prelude.{◌≡◌, ◌+◌, ◌-◌, ◌≤◌, vec_len, vec_capacity};
    ghost use Rattle.ar_nodes.specs.Pool.{most_pool_bytes};
    ghost use Rattle.ar_nodes.specs.Parties.{PoolParts};
    ghost use Rattle.ar_nodes.specs.Pool.{bytes_in};

    ghost Value = { PoolParts };

    ghost view = { λ p. record { messages = p.messages.items; room = p.room } };

    ghost invariant = { λ p. (p.left ≡ most_pool_bytes - bytes_in p.messages.items)
        × (vec_len p.messages + p.room ≤ vec_capacity p.messages) };
}

impl Pool {
    /// No messages.
    pub fn new(alloc: Global) -> Pool
        ensures { result ≡ record { messages = []; room = 0 } }
    {
        Pool {
            messages: Vec::new(alloc),
            left: MOST_BYTES,
            room: 0,
        }
    }

    /// How many messages there are.
    pub fn len(&self) -> usize
        ensures value { result ≡ length self.now.messages }
        ensures few { result + self.now.room < 2 ^ 64 }
    {
        self.messages.len()
    }

    /// Whether the pool is not full.
    pub fn has_room(&self) -> bool
        ensures { result ≡ (nat_lt (length self.now.messages) most_messages && nat_lt
            (bytes_in self.now.messages) most_pool_bytes) }
    {
        self.messages.len() < MOST_MESSAGES && self.left > 0
    }

    /// The messages, from that with the number 1 on.
    pub fn as_slice(&self) -> &[Pooled]
        ensures { result.now ≡ self.now.messages }
    {
        self.messages.as_slice()
    }

    /// The message with a number.
    pub fn get(&self, number: u64) -> Option<&Pooled>
        ensures { option_copied result ≡ numbered self.now.messages number }
    {
        numbered(&self.messages, number)
    }

    /// Whether there is a message with this number.
    pub fn has(&self, number: u64) -> bool
        ensures { result ≡ is_some (numbered self.now.messages number) }
    {
        self.get(number).is_some()
    }

    /// Takes memory for so many messages more.
    pub(crate) fn reserve(&mut self, count: usize) -> Result<(), AllocError>
        ensures ok { OnOk result (self.new ≡ record self.old { room = max self.old.room count }) }
        ensures err { OnErr result (self.new ≡ self.old) }
    {
        self.messages.reserve(count)?;
        self.room = self.room.max(count);
        Ok(())
    }

    /// The number of the message that comes next, for which there is room.
    pub(crate) fn next_number(&self) -> u64
        requires { 0 < self.now.room }
        ensures { result ≡ length self.now.messages + 1 }
    {
        self.messages.len() as u64 + 1
    }

    /// Puts a message behind the others, for which there is room.
    pub(crate) fn push(&mut self, message: Pooled)
        requires { 0 < self.old.room }
        ensures messages { self.new.messages ≡ self.old.messages ++ message ∷ [] }
        ensures room { self.old.room ≡ 1 + self.new.room }
    {
        self.left = self.left.saturating_sub(message.bytes.len());
        self.room -= 1;
        self.messages.push_reserved(message);
    }

    /// The bytes of a message; none where there is no such message.
    pub(crate) fn bytes(&self, number: u64) -> &[u8]
        ensures { result.now ≡ bytes_of (numbered self.now.messages number) }
    {
        match self.get(number) {
            Some(message) => message.bytes.as_slice(),
            None => &[],
        }
    }

    /// To whom a message was delivered, with a party to which it is delivered now; none where there is no such message.
    pub(crate) fn delivered_by(
        &self,
        alloc: Global,
        number: u64,
        who: Party,
    ) -> Result<Vec<Party>, AllocError>
        ensures { IfOk result (λ delivered.
            delivered.items ≡ delivered_by who (numbered self.now.messages number)) }
    {
        match self.get(number) {
            Some(message) => delivered_to(alloc, message, who),
            None => Ok(Vec::new(alloc)),
        }
    }

    /// Notes to whom a message was delivered. It takes no memory.
    pub(crate) fn note_delivered(&mut self, number: u64, delivered: Vec<Party>)
        ensures messages { self.new.messages
            ≡ with_delivered self.old.messages number
            (numbered self.old.messages number) delivered.items }
        ensures room { self.new.room ≡ self.old.room }
    {
        if number == 0 {
            return;
        }
        let Ok(place) = usize::try_from(number - 1) else {
            return;
        };
        if let Some(message) = self.messages.get_mut(place) {
            message.delivered = delivered;
        }
    }
}

/// The item with a number, where the first has the number 1.
pub fn numbered<T>(items: &[T], number: u64) -> Option<&T>
    ensures { option_copied result ≡ numbered items.now number }
{
    if number == 0 {
        return None;
    }
    let place = usize::try_from(number - 1).ok()?;
    items.get(place)
}

/// To whom a message was delivered, with a party to which it is delivered now.
fn delivered_to(alloc: Global, message: &Pooled, who: Party) -> Result<Vec<Party>, AllocError>
    ensures { IfOk result (λ delivered.
        delivered.items ≡ (delivered_to who message.now).delivered) }
{
    let mut delivered = Vec::with_capacity(alloc, message.delivered.len() + 1)?;
    delivered.extend_from_slice(&message.delivered)?;
    if !has_party(&message.delivered, who) {
        delivered.push(who)?;
    }
    Ok(delivered)
}
