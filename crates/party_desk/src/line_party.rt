ghost use Rattle.std.specs.Prelude.{ℕ, List, Option};
ghost use Rattle.party_desk.specs.Asking.{Wanted, ReadsAs};
ghost use Rattle.party_desk.specs.Telling.{Puts, PutsAny};

use crate::unread::Unread;
use kept_party::Keeper;
use std::alloc::{AllocError, Global};

/// A party to which lines come, and whose replies are written as lines.
///
/// What a call puts stands behind what `out` had. The one error of these is want of memory, after which a part may stand there.
pub trait LineParty: Keeper {
    /// What a line asks, where it stands so.
    ghost asked: { Self → List ℕ → Wanted Self.Order };

    /// What is written of what a reply sends.
    ghost sent_text: { Self.Reply → List ℕ };

    /// What is told of a step by which it replied so to this order, of the line with this number, and stands so.
    ghost told_text: { Self → ℕ → Self.Order → Self.Reply → List ℕ };

    /// What is told of a step by which it refused this order so; `None` where memory was wanting, of which nothing is told.
    ghost refused_text: { Self → ℕ → Self.Order → Self.Refusal → Option (List ℕ) };

    /// What a line asks of it, or why the line is refused; `None` for a line that is skipped: it is empty, or begins with `#`.
    fn read(&self, alloc: Global, line: &[u8]) -> Result<Option<Self::Order>, Unread>
        ensures { ReadsAs (λ order. order) result (asked self.now line.now) };

    /// Puts what a reply sends, a line each.
    fn put_sent(
        &self,
        alloc: Global,
        reply: &Self::Reply,
        out: &mut Vec<u8>,
    ) -> Result<(), AllocError>
        ensures { Puts (sent_text reply.now) out.old out.new result };

    /// Puts what is told of the step by which it replied so to this order, which came in the line with this number.
    fn put_told(
        &self,
        alloc: Global,
        number: u64,
        order: &Self::Order,
        reply: &Self::Reply,
        out: &mut Vec<u8>,
    ) -> Result<(), AllocError>
        ensures { Puts (told_text self.now number order.now reply.now) out.old out.new result };

    /// Puts what is told of the step by which it refused an order. Where it refused for want of memory, that is the error.
    fn put_refused(
        &self,
        alloc: Global,
        number: u64,
        order: &Self::Order,
        refusal: &Self::Refusal,
        out: &mut Vec<u8>,
    ) -> Result<(), AllocError>
        ensures { PutsAny (refused_text self.now number order.now refusal.now)
            out.old out.new result };
}
