//! What happens is written, a line for each happening.

ghost use Rattle.std.specs.Prelude.{◌≡◌, Err, OnOk};
ghost use Rattle.report_text.specs.Lines.{line_of};
ghost use Rattle.ar_world.specs.ar_nodes.declared.fault.WorldFault.{WorldFault};
ghost use Rattle.ar_world.specs.Finding.{Effect};
ghost use Rattle.ar_world.specs.Run.{progress_of};
ghost use Rattle.ar_world.specs.State.{World as Worlds};
ghost use Rattle.ar_world.specs.Step.{StepsBy};
ghost use Rattle.script_play.specs.Counts.{counted_from};
ghost use Rattle.script_play.specs.Playing.{PlaysPart, WritesUpTo, refused_by, told};

use crate::counts::Counts;
use ar_base::Items;
use ar_io::Sink;
use ar_run::{Fault, write_line};
use ar_world::{Cause, WorldFault};
use report_text::{Happening, print};
use std::alloc::Global;

/// Writes a line as one piece.
#[tactic(auto, using(crate::proofs::Written::written_laws))]
pub(crate) fn tell_line<K: Sink>(sink: &mut K, line: &[u8]) -> Result<(), Fault>
    ensures { WritesUpTo K.faults K.wrote sink.old sink.new line.now result }
{
    write_line(sink, line)
}

/// Writes the line of a happening as one piece.
#[tactic(auto, using(crate::proofs::Written::written_laws))]
fn tell_one<K: Sink>(alloc: Global, sink: &mut K, happening: &Happening) -> Result<(), Fault>
    ensures { WritesUpTo K.faults K.wrote sink.old sink.new (line_of happening.now) result }
{
    let mut line = Vec::new(alloc);
    print(alloc, happening, &mut line)?;
    tell_line(sink, &line)
}

/// Writes the lines of what happens, each as one piece, and counts the judgements. Memory that runs out, and a write that
/// fails, end it behind some of the lines.
#[tactic(auto, using(crate::proofs::Written::written_laws))]
pub fn tell<K: Sink>(
    alloc: Global,
    sink: &mut K,
    counts: &mut Counts,
    said: &[Happening],
) -> Result<(), Fault>
    ensures written { WritesUpTo K.faults K.wrote sink.old sink.new (told said.now) result }
    ensures counted { OnOk result (counts.new ≡ counted_from counts.old said.now) }
{
    for happening in said {
        tell_one(alloc, sink, happening)?;
        counts.count(happening);
    }
    Ok(())
}

/// Why a world does not take what it is told; want of memory is none of its refusals.
fn refused_by(fault: WorldFault) -> Result<Option<Cause>, Fault>
    ensures { result ≡ refused_by fault }
{
    match fault {
        WorldFault::Memory => Err(Fault::Memory),
        _ => Ok(Some(Cause::Untaken(fault))),
    }
}

/// Writes what a call made happen in a world, and answers why the world did not take it, where it did not.
#[tactic(auto, using(crate::proofs::Parts::made_laws))]
pub fn tell_made<K: Sink>(
    alloc: Global,
    sink: &mut K,
    counts: &mut Counts,
    made: Result<Items<Happening>, WorldFault>,
) -> Result<Option<Cause>, Fault>
    ensures plays { (old new : Worlds) (effect : Effect) → StepsBy made old new effect
        → PlaysPart K.faults K.wrote sink.old sink.new (record { world = old; counts = counts.old })
        (record { world = new; counts = counts.new }) (progress_of old effect) result }
    ensures refused { (why : WorldFault) → made ≡ Err why → result ≡ refused_by why }
{
    match made {
        Ok(said) => match tell(alloc, sink, counts, said.as_slice()) {
            Ok(()) => Ok(None),
            Err(fault) => Err(fault),
        },
        Err(fault) => refused_by(fault),
    }
}
