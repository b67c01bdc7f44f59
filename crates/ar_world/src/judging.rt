//! The line `judge`.

ghost use Rattle.std.specs.Prelude.{◌≡◌, ◌∷◌, [], true, IfOk, OnOk, OnErr};
ghost use Rattle.report_text.specs.Verdicts.{said_of};
ghost use Rattle.report_text.specs.declared.happening.Happening.TheVariants as happening;
ghost use Rattle.ar_world.specs.Records.{HasParties};
ghost use Rattle.ar_records.specs.ar_safety.Held.{verdict_on};
ghost use Rattle.ar_world.specs.Judging.{accepted_with, is_accepted, is_to_client, judge_line, judged_number, newest_from};
ghost use Rattle.ar_world.specs.Step.{StepsBy};

use crate::world::World;
use ar_base::Items;
use ar_names::NameView;
use ar_nodes::sending::one_told;
use ar_nodes::{Pooled, WorldFault};
use ar_records::Judged;
use ar_statement::Role;
use client_rule::Judgement;
use owner_check::OwnerCheck;
use party_keys::Directory;
use report_text::{Happening, Target, said_of};
use std::alloc::{AllocError, Global};

// ---- which message

/// Whether a message goes to a client.
fn is_to_client(to: Target) -> bool
    ensures { result ≡ is_to_client to }
{
    match to {
        Target::Nobody | Target::Logs => false,
        Target::One(party) => matches!(party.role, Role::Client),
    }
}

/// The number of the newest message to a client, where the first has the number 1.
#[tactic(auto, using(crate::proofs::Newest::newest_laws))]
fn newest(messages: &[Pooled]) -> Option<u64>
    ensures { result ≡ newest_from 1 messages.now }
{
    let mut place = messages.len();
    while place > 0 {
        place -= 1;
        let message = &messages[place];
        if is_to_client(message.to) {
            return Some(place as u64 + 1);
        }
    }
    None
}

// ---- what the client holds

/// Whether the client acts on it.
fn is_accepted(verdict: &Judgement<'_>) -> bool
    ensures { result ≡ is_accepted verdict.now }
{
    match verdict {
        Judgement::Accepted { .. } | Judgement::Absent { .. } => true,
        Judgement::Refused(_) => false,
    }
}

/// What a client was asked, and the bytes that it judges. The only error is want of memory.
fn taken(
    alloc: Global,
    name: &NameView<'_>,
    now: u64,
    age: u64,
    bytes: &[u8],
) -> Result<Judged, AllocError>
    ensures { IfOk result (λ t.
        t ≡ record { name = name.now; now = now; age = age; bytes = bytes.now }) }
{
    Ok(Judged {
        name: name.to_name(alloc)?,
        now,
        age,
        bytes: Vec::from_slice(alloc, bytes)?,
    })
}

/// What is told of a judgement on the message with a number, and whether the client acts on it.
fn judge(
    alloc: Global,
    clients: &Directory,
    number: u64,
    t: &Judged,
) -> Result<(Items<Happening>, bool), AllocError>
    ensures said { IfOk result (λ made. made.0
        ≡ happening.Judged number (said_of t.entry.now.name (verdict_on clients.now t.entry.now))
        ∷ []) }
    ensures accepted { IfOk result (λ made.
        made.1 ≡ is_accepted (verdict_on clients.now t.entry.now)) }
{
    let name = t.name.view().to_name(alloc)?;
    let verdict = client_rule::judge(clients, t.name.text(), &t.bytes, t.now, t.age);
    let judged = Happening::Judged {
        message: number,
        said: said_of(name, &verdict),
    };
    Ok((one_told(alloc, judged)?, is_accepted(&verdict)))
}

/// A client judges a message, and what it accepts is kept.
fn judge_and_keep(
    alloc: Global,
    clients: &Directory,
    judged: &mut Vec<Judged>,
    number: u64,
    t: Judged,
) -> Result<Items<Happening>, AllocError>
    ensures said { IfOk result (λ said.
        said ≡ happening.Judged number (said_of t.name (verdict_on clients.now t)) ∷ []) }
    ensures judged { OnOk result
        (judged.new.items ≡ accepted_with judged.old.items t (verdict_on clients.now t)) }
    ensures err { OnErr result (judged.new.items ≡ judged.old.items) }
{
    judged.reserve(1)?;
    let (said, accepted) = judge(alloc, clients, number, &t)?;
    if accepted {
        judged.push_reserved(t);
    }
    Ok(said)
}

impl<C: OwnerCheck> World<C> {
    /// The number of the message that a line names, or of the newest to a client.
    fn judged_number(&self, which: Option<u64>) -> Option<u64>
        ensures { result ≡ judged_number self.now which }
    {
        match which {
            Some(message) => Some(message),
            None => newest(self.pool.as_slice()),
        }
    }

    /// The line `judge`: a client judges a message, and the newest that goes to a client for `None`.
    pub(crate) fn judge_line(
        &mut self,
        alloc: Global,
        message: Option<u64>,
        name: &NameView<'_>,
        now: u64,
        age: u64,
    ) -> Result<Items<Happening>, WorldFault>
        requires { HasParties self.old }
        ensures { StepsBy result self.old self.new (judge_line self.old message name.now now age) }
    {
        let Some(number) = self.judged_number(message) else {
            return Err(WorldFault::Absent(1));
        };
        let Some(pooled) = self.pool.get(number) else {
            return Err(WorldFault::Absent(1));
        };
        let Some(known) = &self.directories else {
            unreachable!()
        };
        let t = taken(alloc, name, now, age, &pooled.bytes)?;
        let said = judge_and_keep(alloc, &known.clients, &mut self.judged, number, t)?;
        Ok(said)
    }
}
