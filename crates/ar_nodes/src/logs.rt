//! The steps of honest logs.

ghost use Rattle.std.specs.Prelude.{◌≡◌, ◌<◌, ◌≤◌, ◌++◌, ◌∷◌, [], length, Some, IfOk, OnOk, OnErr};
ghost use Rattle.lms_tree.specs.Key.{public_of};
ghost use Rattle.lms_tree.specs.KeyParts.{KeyParts};
ghost use Rattle.log_core.specs.Inputs.{input_of};
ghost use Rattle.log_core.specs.Keyed.{IsPlain};
ghost use Rattle.log_core.specs.Row.{row};
ghost use Rattle.log_core.specs.State.{most_sent, rolls};
ghost use Rattle.ar_nodes.specs.Acting.{RepliesBy, log_does};
ghost use Rattle.ar_nodes.specs.Parties.{next_of};
ghost use Rattle.ar_nodes.specs.declared.event.LogEvent.TheVariants as events;

use crate::codes::log_code;
use crate::event::LogEvent;
use crate::fault::WorldFault;
use crate::parties::HonestLog;
use crate::replying::Reply;
use log_core::{LogInput, LogRefusal, answer};
use std::alloc::{AllocError, Global};

impl HonestLog {
    /// Tells a proof that the log has a next key. It does nothing.
    #[tactic(auto, using(crate::proofs::Nodes::next_is))]
    pub fn told(&self)
        ensures { 0 < length self.now.keys }
    {
        let _log = &self.log;
    }

    /// Notes what the log did. After an error it is as before.
    pub(crate) fn note(&mut self, event: LogEvent) -> Result<(), AllocError>
        ensures ok { OnOk result
            (self.new ≡ record self.old { taken = self.old.taken ++ event ∷ [] }) }
        ensures err { OnErr result (self.new ≡ self.old) }
    {
        self.taken.push(event)?;
        Ok(())
    }

    /// The log does what it is asked, which is not to go on to a key, and this is noted where it does not refuse.
    #[tactic(auto, using(crate::proofs::Nodes::log_nodes))]
    pub(crate) fn step(
        &mut self,
        alloc: Global,
        event: LogEvent,
        input: &LogInput,
    ) -> Result<Reply, WorldFault>
        requires { IsPlain (input_of input.now) }
        ensures row { RepliesBy result self.old self.new
            (log_does self.old self.old.keys event (row self.old.core (input_of input.now))) }
        ensures few { IfOk result (λ reply. IfOk reply (λ sent. length sent.messages ≤ most_sent)) }
    {
        self.taken.reserve(1)?;
        match answer(&mut self.log, alloc, input) {
            Ok(sent) => {
                self.taken.push_reserved(event);
                Ok(Ok(sent))
            }
            Err(LogRefusal::Memory) => Err(WorldFault::Memory),
            Err(refusal) => Ok(Err(log_code(refusal))),
        }
    }

    /// The log goes on to its next key, and this is noted where it does not refuse.
    #[tactic(auto, using(crate::proofs::Nodes::log_nodes))]
    pub(crate) fn roll(&mut self, alloc: Global) -> Result<Reply, WorldFault>
        ensures row { (next : KeyParts) → next_of self.old.keys ≡ Some next
            → RepliesBy result self.old self.new
            (log_does self.old (self.old.keys ++ next ∷ []) events.Roll
            (row self.old.core (rolls (public_of next)))) }
        ensures few { IfOk result (λ reply. IfOk reply (λ sent. length sent.messages ≤ most_sent)) }
    {
        self.taken.reserve(1)?;
        match self.log.roll(alloc) {
            Ok(sent) => {
                self.taken.push_reserved(LogEvent::Roll);
                Ok(Ok(sent))
            }
            Err(LogRefusal::Memory) => Err(WorldFault::Memory),
            Err(refusal) => Ok(Err(log_code(refusal))),
        }
    }
}
