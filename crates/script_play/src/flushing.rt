//! The deliveries of a flush.

ghost use Rattle.std.specs.Prelude.{◌≡◌, ◌<◌, ℕ, IfSome};
ghost use Rattle.owner_check.specs.declared.answer.Outcome.{Outcome};
ghost use Rattle.ar_world.specs.Delivering.{NothingDue, deliver_line, next_due};
ghost use Rattle.ar_world.specs.Run.{flushed, most_deliveries, progress_of};
ghost use Rattle.script_play.specs.Playing.{PlaysSome};

use crate::stage::Stage;
use crate::telling::tell_made;
use ar_io::Sink;
use ar_run::Fault;
use ar_statement::Party;
use ar_world::{Cause, MOST_MESSAGES};
use owner_check::OwnerCheck;
use std::alloc::Global;

/// More deliveries than a flush can have: each message goes to at most 16 parties once.
const MOST_DELIVERIES: u64 = 16 * (MOST_MESSAGES as u64 + 64);

impl<C: OwnerCheck> Stage<C> {
    /// The delivery that is due next, where nothing is due of so many messages in front.
    fn next_due_behind(&self, front: usize) -> Option<(u64, Party)>
        requires { NothingDue self.now.world front }
        ensures due { result ≡ next_due self.now.world }
        ensures number { IfSome result (λ due. 0 < due.0) }
    {
        self.world.next_due_behind(front)
    }

    /// Makes a delivery.
    #[tactic(auto, using(crate::proofs::Parts::some_laws))]
    fn deliver<K: Sink>(
        &mut self,
        alloc: Global,
        sink: &mut K,
        message: u64,
        party: Party,
    ) -> Result<Option<Cause>, Fault>
        ensures { PlaysSome K.faults K.wrote sink.old sink.new self.old self.new
            (λ (says : Outcome). progress_of self.old.world
            (deliver_line says self.old.world message party)) result }
    {
        let made = self.world.deliver(alloc, message, party);
        tell_made(alloc, sink, &mut self.counts, made)
    }

    /// Makes all deliveries that are due, one after the other, and those that come to be due by them.
    pub(crate) fn flush<K: Sink>(
        &mut self,
        alloc: Global,
        sink: &mut K,
    ) -> Result<Option<Cause>, Fault>
        ensures { PlaysSome K.faults K.wrote sink.old sink.new self.old self.new
            (λ (says : ℕ → Outcome). flushed most_deliveries says 0 self.old.world) result }
    {
        // Of so many messages in front nothing is due.
        let mut front = 0;
        for _number in 0..MOST_DELIVERIES {
            let Some((message, party)) = self.next_due_behind(front) else {
                return Ok(None);
            };
            front = (message - 1) as usize;
            if let Some(cause) = self.deliver(alloc, sink, message, party)? {
                return Ok(Some(cause));
            }
        }
        Ok(None)
    }
}
