//! A line of a script with bursts.

ghost use Rattle.std.specs.Prelude.{◌≡◌, ◌<◌, ◌≤◌, ◌++◌, ◌∷◌, [], ℕ, List, IfOk, None, Ok, Some};
ghost use Rattle.std.specs.List.{AllByRecursion};
ghost use Rattle.script_play.specs.ar_world.Run.{progress_of};
ghost use Rattle.burst_run.specs.Bursts.{IsDeliverable, may_join};
ghost use Rattle.crowd_run.specs.Passing.{IsOpenIn, LinePasses};
ghost use Rattle.crowd_run.specs.Scripts.{is_burst, joins_burst, open_behind, open_behind_line, passed_inside};
ghost use Rattle.script_text.specs.declared.line.EventLine.TheVariants as events;
ghost use Rattle.script_text.specs.declared.line.Line.TheVariants as lines;

use ar_base::Items;
use ar_io::Sink;
use ar_lines::Reason;
use ar_run::Fault;
use ar_statement::Party;
use burst_run::{may_join, run_burst};
use node_crowd::Gate;
use owner_check::OwnerCheck;
use script_play::{Cause, Stage, World, WorldFault, tell, tell_made};
use script_text::{EventLine, Line};
use std::alloc::{AllocError, Global};
use std::mem;
use std::sync::Wait;
use std::thread::Threads;

/// The deliveries of the burst that is open, where one is.
pub(crate) type OpenBurst = Option<Items<(u64, Party)>>;

/// The line `burst`, where no burst is open: one is then, unless the line may not come.
fn begin_burst<C: OwnerCheck, K: Sink>(
    alloc: Global,
    sink: &mut K,
    stage: &mut Stage<C>,
    burst: &mut OpenBurst,
) -> Result<Option<Cause>, Fault>
    ensures passes { (workers : ℕ) → LinePasses K.faults K.wrote sink.old sink.new workers
        stage.old stage.new None (Ok (Some lines.Burst)) result }
    ensures burst { burst.new ≡ Some [] }
{
    let made = stage.world.step(alloc, &Line::Event(EventLine::Flush));
    *burst = Some(Items::new(alloc));
    tell_made(alloc, sink, &mut stage.counts, made)
}

/// Whether a line is read as `burst`.
fn is_burst(read: &Result<Option<Line>, Reason>) -> bool
    ensures { result ≡ is_burst read.now }
{
    matches!(read, Ok(Some(Line::Burst)))
}

/// A line where no burst is open.
fn take_outside<C: OwnerCheck, K: Sink>(
    alloc: Global,
    sink: &mut K,
    stage: &mut Stage<C>,
    burst: &mut OpenBurst,
    read: Result<Option<Line>, Reason>,
) -> Result<Option<Cause>, Fault>
    requires { burst.old ≡ None }
    ensures passes { (workers : ℕ) → LinePasses K.faults K.wrote sink.old sink.new workers
        stage.old stage.new None read.entry result }
    ensures burst { burst.new ≡ open_behind None read.entry }
{
    if is_burst(&read) {
        return begin_burst(alloc, sink, stage, burst);
    }
    stage.take_read(alloc, sink, read)
}

/// The deliveries with one more.
fn with_delivery(
    deliveries: Items<(u64, Party)>,
    message: u64,
    party: Party,
) -> Result<Items<(u64, Party)>, AllocError>
    ensures { IfOk result (λ more. more ≡ deliveries ++ (message, party) ∷ []) }
{
    let mut more = deliveries.into_vec();
    more.push((message, party))?;
    Ok(Items::from_vec(more))
}

/// A delivery of an open burst joins it, unless it may not; why it may not, if so.
#[tactic(auto, using(crate::proofs::Ready::joined_ready))]
fn join_burst<C: OwnerCheck>(
    stage: &Stage<C>,
    burst: &mut OpenBurst,
    deliveries: Items<(u64, Party)>,
    message: u64,
    party: Party,
) -> Result<Option<Cause>, AllocError>
    requires { AllByRecursion (IsDeliverable stage.now.world) deliveries }
    ensures cause { IfOk result (λ cause. cause ≡ (progress_of stage.now.world (joins_burst
        stage.now.world (may_join stage.now.world deliveries message party))).refused) }
    ensures burst { IfOk result (λ cause. cause ≡ None
        → burst.new ≡ Some (deliveries ++ (message, party) ∷ [])) }
    ensures ready { IfOk result (λ cause. cause ≡ None → IsOpenIn stage.now.world burst.new) }
{
    match may_join(&stage.world, deliveries.as_slice(), message, party) {
        Ok(()) => {
            *burst = Some(with_delivery(deliveries, message, party)?);
            Ok(None)
        }
        Err(fault) => Ok(Some(Cause::Untaken(fault))),
    }
}

/// An event of an open burst: a delivery joins it, unless it may not; no other may come. Why it may not, if so.
fn take_event<C: OwnerCheck>(
    stage: &Stage<C>,
    burst: &mut OpenBurst,
    deliveries: Items<(u64, Party)>,
    event: &EventLine,
) -> Result<Option<Cause>, AllocError>
    requires { AllByRecursion (IsDeliverable stage.now.world) deliveries }
    ensures cause { IfOk result (λ cause. cause
        ≡ (passed_inside [] stage.now.world deliveries (lines.Event event.now)).refused) }
    ensures burst { IfOk result (λ cause. cause ≡ None
        → burst.new ≡ open_behind_line (Some deliveries) (lines.Event event.now)) }
    ensures ready { IfOk result (λ cause. cause ≡ None → IsOpenIn stage.now.world burst.new) }
{
    match event {
        EventLine::Deliver { message, party } => {
            join_burst(stage, burst, deliveries, *message, *party)
        }
        _ => Ok(Some(Cause::Untaken(WorldFault::Order))),
    }
}

/// The line `end` of an open burst: the workers bring its deliveries, and what happens is written with the orders.
fn end_burst<C: OwnerCheck + Send, R: Threads + Wait + Sync, K: Sink, G: Gate>(
    rt: &R,
    alloc: Global,
    gate: &G,
    workers: u16,
    sink: &mut K,
    stage: &mut Stage<C>,
    deliveries: Items<(u64, Party)>,
) -> Result<Option<Cause>, Fault>
    requires workers { (0 < workers) × (workers ≤ 16) }
    requires ready { AllByRecursion (IsDeliverable stage.old.world) deliveries }
    ensures { LinePasses K.faults K.wrote sink.old sink.new workers stage.old stage.new
        (Some deliveries) (Ok (Some lines.End)) result }
{
    let world = mem::replace(&mut stage.world, World::new(alloc, Vec::new(alloc)));
    let (world, said) = run_burst(rt, alloc, gate, world, deliveries.as_slice(), workers)?;
    stage.world = world;
    tell(alloc, sink, &mut stage.counts, said.as_slice())?;
    Ok(None)
}

/// A line of an open burst.
fn take_inside<C: OwnerCheck + Send, R: Threads + Wait + Sync, K: Sink, G: Gate>(
    rt: &R,
    alloc: Global,
    gate: &G,
    workers: u16,
    sink: &mut K,
    stage: &mut Stage<C>,
    burst: &mut OpenBurst,
    deliveries: Items<(u64, Party)>,
    line: &Line,
) -> Result<Option<Cause>, Fault>
    requires workers { (0 < workers) × (workers ≤ 16) }
    requires none { burst.old ≡ None }
    requires ready { AllByRecursion (IsDeliverable stage.old.world) deliveries }
    ensures passes { LinePasses K.faults K.wrote sink.old sink.new workers stage.old stage.new
        (Some deliveries) (Ok (Some line.now)) result }
    ensures burst { IfOk result (λ cause. cause ≡ None
        → burst.new ≡ open_behind (Some deliveries) (Ok (Some line.now))) }
    ensures ready { IfOk result (λ cause. cause ≡ None → IsOpenIn stage.new.world burst.new) }
{
    match line {
        Line::Event(event) => Ok(take_event(stage, burst, deliveries, event)?),
        Line::End => end_burst(rt, alloc, gate, workers, sink, stage, deliveries),
        Line::Setup(_) | Line::Burst => Ok(Some(Cause::Untaken(WorldFault::Order))),
    }
}

/// What a line of an open burst was read as.
fn take_read_inside<C: OwnerCheck + Send, R: Threads + Wait + Sync, K: Sink, G: Gate>(
    rt: &R,
    alloc: Global,
    gate: &G,
    workers: u16,
    sink: &mut K,
    stage: &mut Stage<C>,
    burst: &mut OpenBurst,
    deliveries: Items<(u64, Party)>,
    read: Result<Option<Line>, Reason>,
) -> Result<Option<Cause>, Fault>
    requires workers { (0 < workers) × (workers ≤ 16) }
    requires none { burst.old ≡ None }
    requires ready { AllByRecursion (IsDeliverable stage.old.world) deliveries }
    ensures passes { LinePasses K.faults K.wrote sink.old sink.new workers stage.old stage.new
        (Some deliveries) read.entry result }
    ensures burst { IfOk result (λ cause. cause ≡ None
        → burst.new ≡ open_behind (Some deliveries) read.entry) }
    ensures ready { IfOk result (λ cause. cause ≡ None → IsOpenIn stage.new.world burst.new) }
{
    match read {
        Ok(Some(line)) => {
            take_inside(
                rt, alloc, gate, workers, sink, stage, burst, deliveries, &line,
            )
        }
        Ok(None) => {
            *burst = Some(deliveries);
            Ok(None)
        }
        Err(reason) => Ok(Some(Cause::Unread(reason))),
    }
}

/// Takes a line as it was read: that of a burst where one is open, and else one of a script, or `burst`.
pub(crate) fn take_read<C: OwnerCheck + Send, R: Threads + Wait + Sync, K: Sink, G: Gate>(
    rt: &R,
    alloc: Global,
    gate: &G,
    workers: u16,
    sink: &mut K,
    stage: &mut Stage<C>,
    burst: &mut OpenBurst,
    read: Result<Option<Line>, Reason>,
) -> Result<Option<Cause>, Fault>
    requires workers { (0 < workers) × (workers ≤ 16) }
    requires ready { IsOpenIn stage.old.world burst.old }
    ensures passes { LinePasses K.faults K.wrote sink.old sink.new workers stage.old stage.new
        burst.old read.entry result }
    ensures burst { IfOk result (λ cause. cause ≡ None
        → burst.new ≡ open_behind burst.old read.entry) }
    ensures ready { IfOk result (λ cause. cause ≡ None → IsOpenIn stage.new.world burst.new) }
{
    match burst.take() {
        None => take_outside(alloc, sink, stage, burst, read),
        Some(deliveries) => take_read_inside(
            rt, alloc, gate, workers, sink, stage, burst, deliveries, read,
        ),
    }
}
