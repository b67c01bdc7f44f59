//! The step of a line.

ghost use Rattle.std.specs.Prelude.{◌≡◌, true, false, Err, OnOk};
ghost use Rattle.ar_base.specs.Chaining.{need};
ghost use Rattle.ar_nodes.specs.declared.fault.WorldFault.TheVariants.{Order};
ghost use Rattle.ar_world.specs.Founding.{led_to, may_come};
ghost use Rattle.ar_world.specs.Records.{HasParties};
ghost use Rattle.ar_world.specs.Step.{StepsBy, StepsBySome, comes_now, event_effect, leads_to, setup_effect, step};
ghost use Rattle.ar_world.specs.declared.phase.Phase.TheVariants as phases;

use crate::order::{leads_to, may_come};
use crate::phase::Phase;
use crate::world::World;
use ar_base::Items;
use ar_nodes::{Lesson, WorldFault};
use owner_check::OwnerCheck;
use report_text::Happening;
use script_text::{EventLine, Line, SetupLine};
use std::alloc::Global;

impl<C: OwnerCheck> World<C> {
    /// Refuses a line that leads to this phase where it may not come now.
    fn need_order(&self, next: Phase) -> Result<(), WorldFault>
        ensures order { result ≡ need (may_come self.now.phase next) Order }
        ensures comes { OnOk result (may_come self.now.phase next ≡ true) }
    {
        if !may_come(self.phase, next) {
            return Err(WorldFault::Order);
        }
        Ok(())
    }

    /// A line of the setup, which may come now.
    #[tactic(auto, unfolding(crate::specs::Step::setup_effect))]
    fn setup_line(
        &mut self,
        alloc: Global,
        line: &SetupLine,
    ) -> Result<Items<Happening>, WorldFault>
        requires { may_come self.old.phase (leads_to line.now) ≡ true }
        ensures { StepsBy result self.old self.new
            (led_to (leads_to line.now) (setup_effect self.old line.now)) }
    {
        match line {
            SetupLine::Secret { secret } => self.secret_line(alloc, *secret),
            SetupLine::Keys { lms, ots } => self.keys_line(alloc, *lms, *ots),
            SetupLine::Logs { n, q } => self.logs_line(alloc, *n, *q),
            SetupLine::Authorities { m } => self.authorities_line(alloc, *m),
            SetupLine::Dishonest { party } => self.dishonest_line(alloc, *party),
        }
    }

    /// A line that is none of the setup, which may come now. It leaves the phase as it is.
    #[tactic(auto, using(crate::proofs::Stepping::some_check))]
    fn event_line(
        &mut self,
        alloc: Global,
        line: &EventLine,
    ) -> Result<Items<Happening>, WorldFault>
        requires { HasParties self.old }
        ensures { StepsBySome result self.old self.new
            (λ says. event_effect says self.old line.now) }
    {
        match line {
            EventLine::Owner { owner } => self.owner_line(alloc, *owner),
            EventLine::Teach {
                authority,
                name,
                owner,
            } => self.lesson_line(alloc, Lesson::Learn, *authority, name, *owner),
            EventLine::Forget {
                authority,
                name,
                owner,
            } => self.lesson_line(alloc, Lesson::Forget, *authority, name, *owner),
            EventLine::Retire { authority } => self.retire_line(alloc, *authority),
            EventLine::Register {
                owner,
                name,
                policy,
                asks,
            } => self.register_line(alloc, *owner, name, policy, asks),
            EventLine::Update {
                owner,
                draft,
                policy,
                asks,
            } => self.update_line(alloc, *owner, *draft, policy, asks),
            EventLine::Revoke { owner, draft, asks } => self.revoke_line(
                alloc, *owner, *draft, asks,
            ),
            EventLine::Handover { owner, draft } => self.handover_line(alloc, *owner, *draft),
            EventLine::Object { owner, draft } => self.object_line(alloc, *owner, *draft),
            EventLine::Submit { draft } => self.submit_line(alloc, *draft),
            EventLine::Propose { log } => self.propose_line(alloc, *log),
            EventLine::Pass { log } => self.pass_line(alloc, *log),
            EventLine::Roll { party } => self.roll_line(alloc, *party),
            EventLine::Learn { message } => self.learn_line(alloc, *message),
            EventLine::Ask {
                log,
                name,
                first,
                second,
                client,
            } => self.ask_line(alloc, *log, name, (*first, *second), *client),
            EventLine::Deliver { message, party } => self.deliver(alloc, *message, *party),
            EventLine::Flush => Ok(Items::new(alloc)),
            EventLine::Judge {
                message,
                name,
                now,
                age,
            } => self.judge_line(alloc, *message, name, *now, *age),
            EventLine::Sign { party, pieces } => self.sign_line(alloc, *party, pieces),
            EventLine::Inject { to, pieces } => self.inject_line(alloc, *to, pieces),
        }
    }

    /// No line of the setup may come from here on.
    fn run(&mut self)
        requires { HasParties self.old }
        ensures { self.new ≡ record self.old { phase = phases.Running } }
    {
        self.phase = Phase::Running;
    }

    /// A line that is none of the setup, which may come now. No line of the setup may come behind it.
    fn run_line(&mut self, alloc: Global, line: &EventLine) -> Result<Items<Happening>, WorldFault>
        requires { HasParties self.old }
        ensures { StepsBySome result self.old self.new (λ says.
            led_to phases.Running (event_effect says self.old line.now)) }
    {
        let said = self.event_line(alloc, line)?;
        self.run();
        Ok(said)
    }

    /// Takes a line of a script: what happens, in order.
    ///
    /// A line is refused as `Order` where it may not come now; the lines of a burst always are. It is refused as `Absent`
    /// for the first word that names nothing of its kind, and as `Limit` where there is no room for what it makes. `Memory`
    /// may stand in the place of each answer but `Order`. A refused line changes nothing. A party that refuses a step does not refuse
    /// the line: it is told among what happens. A `flush` itself does nothing but end the setup: its deliveries are those
    /// that `next_due` names until there is none, each made by `deliver`.
    #[tactic(auto, using(crate::proofs::Stepping::in_its_order))]
    pub fn step(&mut self, alloc: Global, line: &Line) -> Result<Items<Happening>, WorldFault>
        ensures steps { StepsBySome result self.old self.new (λ says. step says self.old line.now) }
        ensures order { comes_now self.old line.now ≡ false → result ≡ Err Order }
    {
        match line {
            Line::Setup(line) => {
                self.need_order(leads_to(line))?;
                self.setup_line(alloc, line)
            }
            Line::Event(line) => {
                self.need_order(Phase::Running)?;
                self.run_line(alloc, line)
            }
            Line::Burst | Line::End => Err(WorldFault::Order),
        }
    }
}
