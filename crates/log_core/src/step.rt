//! A step of a log: what it is asked goes to its row.

ghost use Rattle.std.specs.Prelude.{◌≡◌, Err, IfErr, IsOk};
ghost use Rattle.ar_base.specs.Gives.{GivesOrWants, with_error};
ghost use Rattle.ar_message.specs.Messages.{message_in};
ghost use Rattle.log_core.specs.Inputs.{input_of};
ghost use Rattle.log_core.specs.Row.{IsReadable, message_row, order_judged, other_row, read_row, row};
ghost use Rattle.log_core.specs.Steps.{IsStep};
ghost use Rattle.log_sending.specs.declared.refusal.LogRefusal.TheVariants as refusals;

use crate::LogRefusal;
use crate::log_core::LogCore;
use ar_base::Items;
use ar_message::{Message, MessageFault, Unsigned};
use lms_tree::LmsPublic;
use party_keys::Announced;
use std::alloc::Global;
use vote_quorum::Value;

/// What a log is asked.
#[derive(Clone, Copy, Debug)]
pub enum LogInput<'a> {
    /// To take a message: its bytes.
    Take(&'a [u8]),
    /// To propose.
    Propose,
    /// To state what it did in the epoch.
    Pass,
    /// To go on to this key, which is the next one of the log's own.
    Roll(&'a LmsPublic),
}

/// The message with this text. No want of memory stands in the place of `Form`.
fn read(alloc: Global, bytes: &[u8]) -> Result<Message, LogRefusal>
    ensures { GivesOrWants refusals.Memory (λ message.
        message) result (with_error refusals.Form (message_in bytes.now)) }
{
    match Message::read(alloc, bytes) {
        Ok(message) => Ok(message),
        Err(MessageFault::Form(place)) => Err(LogRefusal::Form(place)),
        Err(MessageFault::Memory) => Err(LogRefusal::Memory),
    }
}

impl LogCore {
    /// The row of a message beside those of changes, proposals, ballots and statuses.
    fn take_other(&mut self, alloc: Global, message: Message) -> Result<Unsigned, LogRefusal>
        ensures { IsStep result self.old self.new (other_row self.old message) }
    {
        match message {
            Message::Decision {
                epoch,
                base,
                root,
                changes,
                votes,
            } => self.decision(
                alloc,
                epoch,
                Value { base, root },
                changes.list,
                Items::from_vec(votes.list),
            ),
            Message::SkipNote { epoch, statuses } => { self.skip_note(alloc, epoch, &statuses) }
            Message::ConfirmAsk {
                client,
                name,
                first,
                second,
            } => self.confirm_ask(alloc, client, &name, first, second),
            Message::RollNote {
                party,
                generation,
                key,
                signature,
            } => {
                let signature = signature.as_slice();
                self.roll_note(
                    alloc,
                    &Announced {
                        party,
                        generation,
                        key,
                        signature,
                    },
                )
            }
            _ => Err(LogRefusal::NotForLog),
        }
    }

    /// The row of a message.
    fn take_message(&mut self, alloc: Global, message: Message) -> Result<Unsigned, LogRefusal>
        ensures { IsStep result self.old self.new (message_row self.old message) }
    {
        match message {
            Message::Submit { change } => self.submit(alloc, change),
            Message::Propose {
                log,
                epoch,
                base,
                root,
                changes,
                signature,
            } => self.proposed(
                alloc,
                log,
                epoch,
                Value { base, root },
                changes.list,
                signature.as_slice(),
            ),
            Message::Ballot {
                log,
                epoch,
                base,
                root,
                signature,
            } => self.ballot(alloc, log, epoch, Value { base, root }, &signature),
            Message::StatusNote {
                log,
                epoch,
                value,
                signature,
            } => self.status_note(alloc, log, epoch, value, &signature),
            message => self.take_other(alloc, message),
        }
    }

    /// The row of bytes.
    fn take(&mut self, alloc: Global, bytes: &[u8]) -> Result<Unsigned, LogRefusal>
        ensures row { IsStep result self.old self.new (read_row self.old (message_in bytes.now)) }
        ensures memory { result ≡ Err refusals.Memory → IsOk (message_in bytes.now) }
    {
        match read(alloc, bytes) {
            Ok(message) => self.take_message(alloc, message),
            Err(refusal) => Err(refusal),
        }
    }

    /// What the log sends for what it is asked, with zero bytes where a signature of its own is due, or why it refuses.
    ///
    /// The answer is that of `specs/Row.antt`; `Memory` may stand in its place, but not in that of `Form`, nor of why the log may
    /// not propose or pass now. All memory is taken before the first change, and after a refusal the log is as it was.
    #[tactic(auto, unfolding(crate::specs::Row::row))]
    pub fn step(&mut self, alloc: Global, input: &LogInput) -> Result<Unsigned, LogRefusal>
        ensures row { IsStep result self.old self.new (row self.old (input_of input.now)) }
        // When memory may be wanting.
        ensures memory { result ≡ Err refusals.Memory → IsReadable (input_of input.now) }
        // What stands in the way of an order to propose or to pass is told whatever memory there is.
        ensures refused { IfErr (order_judged self.old (input_of input.now)) (λ why.
            result ≡ Err why) }
    {
        match input {
            LogInput::Take(bytes) => self.take(alloc, bytes),
            LogInput::Propose => self.propose(alloc),
            LogInput::Pass => self.pass(alloc),
            LogInput::Roll(next) => self.roll(alloc, next),
        }
    }
}
