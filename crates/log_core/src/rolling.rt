//! The row of the order to roll: the log goes on to its next key.

ghost use Rattle.std.specs.Prelude.{◌≡◌, Err, IfOk};
ghost use Rattle.log_core.specs.Rolling.{roll_draft, rolling_row};
ghost use Rattle.log_sending.specs.Sending.{none_composed, with_draft};
ghost use Rattle.log_core.specs.Row.{IsLogInput};
ghost use Rattle.log_core.specs.State.{rolls};
ghost use Rattle.log_core.specs.Steps.{IsStep, roll_refusal};

use crate::LogRefusal;
use crate::log_core::LogCore;
use ar_council::key_told;
use ar_message::{Address, Message, Signature, Unsigned};
use ar_statement::{Role, Statement};
use key_roll::{RollFault, forgo};
use lms_tree::LmsPublic;
use log_sending::{DraftMessages, Ready};
use std::alloc::{AllocError, Global};

/// Why a log does not go on to a key, as a refusal.
fn roll_refusal(fault: RollFault) -> LogRefusal
    ensures { result ≡ roll_refusal fault }
{
    match fault {
        RollFault::Last => LogRefusal::LastGeneration,
        RollFault::Memory => LogRefusal::Memory,
    }
}

/// Tells a proof that a log can be asked to go on to a key. It does nothing.
#[tactic(auto, using(crate::proofs::Keyed::next_is_input))]
pub(crate) fn next_told(key: &LmsPublic)
    ensures { IsLogInput (rolls key.now) }
{
    key_told(key);
}

impl LogCore {
    /// The note of a Roll to this key, which goes to all logs.
    fn roll_drafts(&self, alloc: Global, next: &LmsPublic) -> Result<Ready<'static>, AllocError>
        ensures { IfOk result (λ ready.
            ready ≡ with_draft none_composed (roll_draft self.now next.now)) }
    {
        let party = Role::LogServer.party(self.log.number());
        let generation = self.log.record().signed.generation();
        let statement = Statement::Roll {
            signer: party,
            generation,
            key: next.bytes(),
        };
        let note = Message::RollNote {
            party,
            generation,
            key: *next,
            signature: Signature::zeros(alloc, self.signature_len)?,
        };
        let mut drafts = DraftMessages::new(alloc);
        drafts.add(
            alloc,
            Address::Logs,
            &note,
            self.signature_len,
            0,
            statement,
        )?;
        drafts.ready(alloc)
    }

    /// Goes on to this key, which the log announces to all logs. It is `LastGeneration` exactly where the newest
    /// generation is 999, but that `Memory` may come in place of it.
    pub(crate) fn roll(&mut self, alloc: Global, next: &LmsPublic) -> Result<Unsigned, LogRefusal>
        ensures { IsStep result self.old self.new (rolling_row self.old next.now) }
    {
        key_told(next);
        let ready = self.roll_drafts(alloc, next)?;
        match self.log.roll(alloc, next) {
            Ok(due) => {
                forgo(due);
                Ok(ready.seal(&self.log, None))
            }
            Err(fault) => {
                ready.discard();
                Err(roll_refusal(fault))
            }
        }
    }
}
