//! A line of a script, and what follows it.

ghost use Rattle.std.specs.Prelude.{◌≡◌, ℕ, false, Some, Ok, Err};
ghost use Rattle.ar_lines.specs.declared.refusal.Reason.{Reason};
ghost use Rattle.ar_world.specs.ar_nodes.declared.fault.WorldFault.TheVariants.{Order};
ghost use Rattle.owner_check.specs.declared.answer.Outcome.{Outcome};
ghost use Rattle.ar_world.specs.Run.{deliveries_behind, line_taken, progress_of, taken, taken_as};
ghost use Rattle.ar_world.specs.Step.{comes_now, step};
ghost use Rattle.ar_world.specs.declared.cause.Cause.TheVariants.{Unread, Untaken};
ghost use Rattle.script_play.specs.Playing.{PlaysSome, line_read};
ghost use Rattle.script_text.specs.declared.line.Line.{Line as Words};

use crate::stage::Stage;
use crate::telling::tell_made;
use ar_io::Sink;
use ar_lines::Reason;
use ar_run::Fault;
use ar_world::Cause;
use owner_check::OwnerCheck;
use script_text::{EventLine, Line};
use std::alloc::Global;

/// The most lines of a script.
const MOST_LINES: u64 = 20000;

/// Reads the text of the line with this number; behind the last line that there may be, none is read.
#[tactic(auto, using(crate::proofs::Taking::line_laws))]
pub fn read_line<'a>(number: u64, text: &'a [u8]) -> Result<Option<Line<'a>>, Reason>
    ensures { result ≡ line_read number text.now }
{
    if number > MOST_LINES {
        return Err(Reason::Limit);
    }
    Line::read(text)
}

impl<C: OwnerCheck> Stage<C> {
    /// Takes a line, without what follows it.
    #[tactic(auto, using(crate::proofs::Parts::some_laws))]
    fn take_alone<K: Sink>(
        &mut self,
        alloc: Global,
        sink: &mut K,
        line: &Line,
    ) -> Result<Option<Cause>, Fault>
        ensures plays { PlaysSome K.faults K.wrote sink.old sink.new self.old self.new
            (λ (says : Outcome). progress_of self.old.world
            (step says self.old.world line.now)) result }
        ensures order { comes_now self.old.world line.now ≡ false
            → result ≡ Ok (Some (Untaken Order)) }
    {
        let made = self.world.step(alloc, line);
        tell_made(alloc, sink, &mut self.counts, made)
    }

    /// Makes what follows an event.
    fn follow_event<K: Sink>(
        &mut self,
        alloc: Global,
        sink: &mut K,
        event: &EventLine,
    ) -> Result<Option<Cause>, Fault>
        ensures { PlaysSome K.faults K.wrote sink.old sink.new self.old self.new
            (λ (says : ℕ → Outcome). deliveries_behind says
            (Line.Event event.now) self.old.world) result }
    {
        match event {
            EventLine::Flush => self.flush(alloc, sink),
            _ => Ok(None),
        }
    }

    /// Makes what follows a line.
    fn follow<K: Sink>(
        &mut self,
        alloc: Global,
        sink: &mut K,
        line: &Line,
    ) -> Result<Option<Cause>, Fault>
        ensures { PlaysSome K.faults K.wrote sink.old sink.new self.old self.new
            (λ (says : ℕ → Outcome). deliveries_behind says line.now self.old.world) result }
    {
        match line {
            Line::Event(event) => self.follow_event(alloc, sink, event),
            Line::Setup(_) | Line::Burst | Line::End => Ok(None),
        }
    }

    /// Takes a line, and what follows it.
    fn take<K: Sink>(
        &mut self,
        alloc: Global,
        sink: &mut K,
        line: &Line,
    ) -> Result<Option<Cause>, Fault>
        ensures plays { PlaysSome K.faults K.wrote sink.old sink.new self.old self.new
            (λ (says : ℕ → Outcome). taken says self.old.world line.now) result }
        ensures order { comes_now self.old.world line.now ≡ false
            → result ≡ Ok (Some (Untaken Order)) }
    {
        match self.take_alone(alloc, sink, line)? {
            Some(cause) => Ok(Some(cause)),
            None => self.follow(alloc, sink, line),
        }
    }

    /// Takes a line as it was read, and what follows it: one that is skipped does nothing, and one that could not be read is
    /// refused.
    ///
    /// The answer is why the line was refused, if it was. Memory that runs out, and a write that fails, end it where it stands;
    /// a line that could not be read, or may not come now, is refused all the same.
    #[tactic(auto, using(crate::proofs::Taking::read_laws))]
    pub fn take_read<K: Sink>(
        &mut self,
        alloc: Global,
        sink: &mut K,
        read: Result<Option<Line>, Reason>,
    ) -> Result<Option<Cause>, Fault>
        ensures plays { PlaysSome K.faults K.wrote sink.old sink.new self.old self.new
            (λ (says : ℕ → Outcome). taken_as says self.old.world read.entry) result }
        ensures unread { (why : Reason) → read.entry ≡ Err why → result ≡ Ok (Some (Unread why)) }
        ensures order { (line : Words) → read.entry ≡ Ok (Some line)
            → comes_now self.old.world line ≡ false → result ≡ Ok (Some (Untaken Order)) }
    {
        match read {
            Ok(Some(line)) => self.take(alloc, sink, &line),
            Ok(None) => Ok(None),
            Err(reason) => Ok(Some(Cause::Unread(reason))),
        }
    }

    /// Takes the line with this number and this text.
    pub(crate) fn take_text<K: Sink>(
        &mut self,
        alloc: Global,
        sink: &mut K,
        number: u64,
        text: &[u8],
    ) -> Result<Option<Cause>, Fault>
        ensures { PlaysSome K.faults K.wrote sink.old sink.new self.old self.new
            (λ (says : ℕ → Outcome). line_taken says number self.old.world text.now) result }
    {
        self.take_read(alloc, sink, read_line(number, text))
    }
}
