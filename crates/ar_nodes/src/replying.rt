//! What a party replies to an input.

ghost use Rattle.std.specs.Prelude.{◌≡◌, ◌≤◌, ◌+◌, [], length, vec_capacity, IfOk};
ghost use Rattle.ar_nodes.specs.Acting.{pool_behind, told_of};

use crate::pool::Pool;
use crate::sending::{does, refuses};
use ar_base::Items;
use ar_message::Sent;
use ar_statement::Party;
use report_text::{Code, Happening, What};
use std::alloc::Global;

/// What a party replies: what it sends, or the code of its refusal.
pub type Reply = Result<Sent, Code>;

/// The most messages that a log or an authority sends in a step.
pub(crate) const MOST_SENT: usize = 2;

/// What a party sends enters the pool, and its reply is told.
pub(crate) fn tell_reply(
    alloc: Global,
    pool: &mut Pool,
    mut said: Vec<Happening>,
    party: Party,
    what: What,
    reply: Reply,
) -> Items<Happening>
    requires none { said.items ≡ [] }
    requires said { 1 ≤ vec_capacity said }
    requires room { IfOk reply (λ sent.
        (length sent.messages ≤ pool.old.room)
        × (2 + length sent.messages ≤ vec_capacity said)) }
    ensures pool { pool.new.messages ≡ pool_behind pool.old.messages party reply }
    ensures said { result ≡ told_of pool.old.messages party what reply }
{
    match reply {
        Ok(sent) => does(alloc, pool, &mut said, party, what, sent),
        Err(code) => refuses(&mut said, party, what, code),
    }
    Items::from_vec(said)
}
