ghost use Rattle.std.specs.Prelude.{◌≡◌, IfOk, OnErr, OnOk, Ok};
ghost use Rattle.ar_base.specs.Gives.{GivesOrWants};
ghost use Rattle.ar_message.specs.Messages.{message_in};
ghost use Rattle.party_keys.specs.Learning.{after_learning, learned};
ghost use Rattle.party_keys.specs.declared.fault.LearnFault.TheVariants.{Memory};
ghost use Rattle.client_rule.specs.Notes.{note_of};

use ar_message::{Message, MessageFault, Signature};
use ar_statement::Party;
use lms_tree::LmsPublic;
use party_keys::{Announced, Directory, LearnFault, Learned};
use std::alloc::{AllocError, Global};
use std::marker::Model;

/// The note of a Roll, by which a party announces the key behind its key of this generation.
#[derive(Debug, Drop)]
pub struct RollNote {
    /// The log or authority that signs.
    pub party: Party,
    /// The generation of the key that signs, from 0.
    pub generation: u32,
    /// The public key of the next generation.
    pub key: LmsPublic,
    /// The party's signature of the Roll that says so.
    pub signature: Signature,
}

// Clauses see what is announced.
impl Model for RollNote {
    ghost use Rattle.party_keys.specs.Learning.{Announced};

    ghost Value = { Announced };

    ghost view = { λ n. record {
      party = n.party;
      generation = n.generation;
      key = n.key;
      signature = n.signature;
    } };
}

/// The note that a message is, where it is one.
fn note_of(message: Message) -> Option<RollNote>
    ensures { result ≡ note_of (Ok message) }
{
    match message {
        Message::RollNote {
            party,
            generation,
            key,
            signature,
        } => Some(RollNote {
            party,
            generation,
            key,
            signature,
        }),
        _ => None,
    }
}

impl RollNote {
    /// The note with this text; `None` where it is the text of none. The only error is want of memory.
    pub fn read(alloc: Global, bytes: &[u8]) -> Result<Option<RollNote>, AllocError>
        ensures { IfOk result (λ note. note ≡ note_of (message_in bytes.now)) }
    {
        match Message::read(alloc, bytes) {
            Ok(message) => Ok(note_of(message)),
            Err(MessageFault::Form(_)) => Ok(None),
            Err(MessageFault::Memory) => Err(AllocError),
        }
    }

    /// What it announces.
    pub fn announced(&self) -> Announced<'_>
        ensures { result ≡ self.now }
    {
        Announced {
            party: self.party,
            generation: self.generation,
            key: self.key,
            signature: self.signature.as_slice(),
        }
    }

    /// A directory takes it: what is learnt, or why nothing is. After an error the directory is as it was.
    pub fn teach(&self, alloc: Global, directory: &mut Directory) -> Result<Learned, LearnFault>
        ensures answer { GivesOrWants Memory (λ learned.
            learned) result (learned directory.old self.now) }
        ensures ok { OnOk result (directory.new ≡ after_learning directory.old self.now) }
        ensures err { OnErr result (directory.new ≡ directory.old) }
    {
        directory.learn(alloc, &self.announced())
    }
}
