//! A party takes the texts of its journal again, and remembers what it replied to the last.

ghost use Rattle.kept_party.specs.Recalled.{Recalls, one_recalled};

use crate::Keeper;
use kept_journal::{Replay, ReplayFault};
use std::alloc::Global;

/// A party, and what it replied to the last text that it took again.
#[derive(Drop)]
pub(crate) struct Recalling<P, R> {
    pub(crate) party: P,
    pub(crate) last: Option<R>,
}

impl<P: Keeper> Replay for Recalling<P, P::Reply> {
    ghost takes = { Recalls P.takes };

    ghost determined = { one_recalled P.takes P.determined };

    fn replay(&mut self, alloc: Global, text: &[u8]) -> Result<(), ReplayFault> {
        let reply = self.party.recall(alloc, text)?;
        self.last = Some(reply);
        Ok(())
    }
}
