//! A script, from its first line to its last.

ghost use Rattle.ar_lines.specs.Lines.{lines_of};
ghost use Rattle.ar_world.specs.ar_nodes.Parties.{checks_told};
ghost use Rattle.ar_world.specs.Run.{run_from};
ghost use Rattle.script_play.specs.Played.{Plays, run_with};
ghost use Rattle.script_play.specs.Playing.{PlaysAll, PlaysSome};

use crate::played::Played;
use crate::refusing::tell_refusal;
use crate::stage::Stage;
use ar_io::Sink;
use ar_lines::Lines;
use ar_run::Fault;
use ar_world::Cause;
use owner_check::OwnerCheck;
use std::alloc::Global;

impl<C: OwnerCheck> Stage<C> {
    /// Takes the lines, one after the other, until one is refused: its number, and why.
    fn take_lines<K: Sink>(
        &mut self,
        alloc: Global,
        sink: &mut K,
        lines: &mut Lines,
    ) -> Result<Option<(u64, Cause)>, Fault>
        ensures { PlaysSome K.faults K.wrote sink.old sink.new self.old self.new
            (λ saying. run_from saying lines.old.next self.old.world lines.old.ahead) result }
    {
        loop {
            let Ok(line) = lines.line() else {
                return Ok(None);
            };
            let number = line.line();
            if let Some(cause) = self.take_text(alloc, sink, number, line.text())? {
                return Ok(Some((number, cause)));
            }
        }
    }

    /// Takes the lines of an input, and tells which is refused, and why, if one is.
    #[tactic(auto, using(crate::proofs::Runs::all_laws))]
    fn take_all<K: Sink>(
        &mut self,
        alloc: Global,
        sink: &mut K,
        input: &[u8],
    ) -> Result<Option<(u64, Cause)>, Fault>
        ensures { PlaysAll K.faults K.wrote sink.old sink.new self.old self.new
            (λ saying. run_from saying 1 self.old.world (lines_of input.now)) result }
    {
        let refusal = self.take_lines(alloc, sink, &mut Lines::new(input))?;
        tell_refusal(alloc, sink, refusal)?;
        Ok(refusal)
    }
}

/// Plays a script: takes its lines, one after the other, and writes what happens at once, each line as one piece. The first
/// line that is refused ends it, and a line that tells so is written.
///
/// The checks are those of the authorities, in their order; those that no authority takes are dropped. Memory that runs out,
/// and a write that fails, end it where it stands.
#[tactic(auto, using(crate::proofs::Runs::play_laws))]
pub fn play<C: OwnerCheck, K: Sink>(
    alloc: Global,
    checks: Vec<C>,
    input: &[u8],
    sink: &mut K,
) -> Result<Played<C>, Fault>
    ensures { Plays (run_with
        (checks_told C.told C.answers checks.items)) K.faults K.wrote sink.old sink.new
        input.now result }
{
    let mut stage = Stage::begin(alloc, checks);
    match stage.take_all(alloc, sink, input) {
        Ok(refused) => {
            let Stage { world, counts } = stage;
            Ok(Played {
                world,
                counts,
                refused,
            })
        }
        Err(fault) => Err(fault),
    }
}
