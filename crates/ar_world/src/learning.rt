//! The line `learn`.

ghost use Rattle.std.specs.Prelude.{◌≡◌, ◌<◌, ◌∷◌, [], true, is_some, vec_len, vec_capacity, IfOk, OnOk, OnErr, Some};
ghost use Rattle.party_keys.specs.Seen.{seen_of};
ghost use Rattle.party_keys.specs.Learning.{roll_claim};
ghost use Rattle.ar_message.specs.Messages.{message_in};
ghost use Rattle.report_text.specs.declared.happening.Happening.TheVariants.{Learnt};
ghost use Rattle.ar_world.specs.Records.{HasParties};
ghost use Rattle.ar_world.specs.Kept.{clients_in, genesis_in};
ghost use Rattle.ar_world.specs.Learning.{knows_by, learn_line, refused_by, rolls_by, unlearnt_of};
ghost use Rattle.client_rule.specs.Notes.{note_of};
ghost use Rattle.ar_world.specs.Step.{StepsBy};

use crate::world::World;
use ar_base::Items;
use ar_council::{see, seen_text};
use ar_founding::Directories;
use ar_nodes::WorldFault;
use ar_nodes::sending::push_told;
use ar_statement::SeenText;
use client_rule::RollNote;
use owner_check::OwnerCheck;
use party_keys::{Directory, LearnFault};
use report_text::{Happening, Unlearnt};
use std::alloc::{AllocError, Global};

/// The Roll of which a note tells, with its party.
fn roll_seen(note: &RollNote) -> SeenText
    ensures { result ≡ seen_of note.now.party (roll_claim note.now) }
{
    seen_text(note.party, &note.announced().roll())
}

/// Why a key is not learnt, as it is printed.
fn unlearnt_of(fault: LearnFault) -> Unlearnt
    ensures { result ≡ unlearnt_of fault }
{
    match fault {
        LearnFault::Unknown => Unlearnt::Unknown,
        LearnFault::Bad(condition) => Unlearnt::Bad(condition),
        LearnFault::Other => Unlearnt::Other,
        LearnFault::Memory => Unlearnt::Form,
    }
}

/// The clients' directory takes a note: why it does not learn it, or `None` where it does, and then the Roll is among those
/// that were learnt. There is room for it.
fn learn_note(
    alloc: Global,
    clients: &mut Directory,
    rolls: &mut Vec<SeenText>,
    note: &RollNote,
) -> Result<Option<Unlearnt>, AllocError>
    requires { vec_len rolls.old < vec_capacity rolls.old }
    ensures refused { IfOk result (λ why. why ≡ refused_by clients.old (Some note.now)) }
    ensures clients { OnOk result (clients.new ≡ knows_by clients.old (Some note.now)) }
    ensures rolls { OnOk result
        (rolls.new.items ≡ rolls_by clients.old rolls.old.items (Some note.now)) }
    ensures err { OnErr result ((clients.new ≡ clients.old) × (rolls.new.items ≡ rolls.old.items)) }
{
    match note.teach(alloc, clients) {
        Ok(_) => {
            see(rolls, roll_seen(note));
            Ok(None)
        }
        Err(LearnFault::Memory) => Err(AllocError),
        Err(why) => Ok(Some(unlearnt_of(why))),
    }
}

/// The same of the text of a message; what is no note is not learnt.
fn learn_text(
    alloc: Global,
    clients: &mut Directory,
    rolls: &mut Vec<SeenText>,
    bytes: &[u8],
) -> Result<Option<Unlearnt>, AllocError>
    requires { vec_len rolls.old < vec_capacity rolls.old }
    ensures refused { IfOk result (λ why.
        why ≡ refused_by clients.old (note_of (message_in bytes.now))) }
    ensures clients { OnOk result
        (clients.new ≡ knows_by clients.old (note_of (message_in bytes.now))) }
    ensures rolls { OnOk result
        (rolls.new.items ≡ rolls_by clients.old rolls.old.items (note_of (message_in bytes.now))) }
    ensures err { OnErr result ((clients.new ≡ clients.old) × (rolls.new.items ≡ rolls.old.items)) }
{
    match RollNote::read(alloc, bytes)? {
        Some(note) => learn_note(alloc, clients, rolls, &note),
        None => Ok(Some(Unlearnt::Form)),
    }
}

/// The same of the message with a number, and what is told of it.
fn learn(
    alloc: Global,
    clients: &mut Directory,
    rolls: &mut Vec<SeenText>,
    number: u64,
    bytes: &[u8],
) -> Result<Items<Happening>, AllocError>
    ensures said { IfOk result (λ said.
        said ≡ Learnt number (refused_by clients.old (note_of (message_in bytes.now))) ∷ []) }
    ensures clients { OnOk result
        (clients.new ≡ knows_by clients.old (note_of (message_in bytes.now))) }
    ensures rolls { OnOk result
        (rolls.new.items ≡ rolls_by clients.old rolls.old.items (note_of (message_in bytes.now))) }
    ensures err { OnErr result ((clients.new ≡ clients.old) × (rolls.new.items ≡ rolls.old.items)) }
{
    rolls.reserve(1)?;
    let mut said = Vec::with_capacity(alloc, 1)?;
    let refused = learn_text(alloc, clients, rolls, bytes)?;
    let learnt = Happening::Learnt {
        message: number,
        refused,
    };
    push_told(&mut said, learnt);
    Ok(Items::from_vec(said))
}

/// The same by the clients' directory of those that are there.
fn learn_there(
    alloc: Global,
    known: &mut Option<Directories>,
    rolls: &mut Vec<SeenText>,
    number: u64,
    bytes: &[u8],
) -> Result<Items<Happening>, AllocError>
    requires { is_some known.old ≡ true }
    ensures said { IfOk result (λ said. said
        ≡ Learnt number (refused_by (clients_in known.old) (note_of (message_in bytes.now))) ∷ []) }
    ensures there { is_some known.new ≡ true }
    ensures genesis { genesis_in known.new ≡ genesis_in known.old }
    ensures clients { OnOk result
        (clients_in known.new ≡ knows_by (clients_in known.old) (note_of (message_in bytes.now))) }
    ensures rolls { OnOk result (rolls.new.items
        ≡ rolls_by (clients_in known.old) rolls.old.items (note_of (message_in bytes.now))) }
    ensures err { OnErr result ((clients_in known.new ≡ clients_in known.old)
        × (rolls.new.items ≡ rolls.old.items)) }
{
    match known {
        Some(known) => learn(alloc, &mut known.clients, rolls, number, bytes),
        None => unreachable!(),
    }
}

impl<C: OwnerCheck> World<C> {
    /// The line `learn`: the clients' directory takes the message with a number.
    pub(crate) fn learn_line(
        &mut self,
        alloc: Global,
        message: u64,
    ) -> Result<Items<Happening>, WorldFault>
        requires { HasParties self.old }
        ensures { StepsBy result self.old self.new (learn_line self.old message) }
    {
        let Some(pooled) = self.pool.get(message) else {
            return Err(WorldFault::Absent(1));
        };
        let bytes = pooled.bytes.as_slice();
        let rolls = &mut self.learned;
        let said = learn_there(alloc, &mut self.directories, rolls, message, bytes)?;
        Ok(said)
    }
}
