//! Laws on the definitions of `specs/`: each is the contract of a function with an empty body.
ghost use Rattle.std.specs.Prelude.{◌≡◌, ℕ, List, [], false, Some, Err, IfOk};
ghost use Rattle.owner_check.specs.declared.answer.Outcome.{Outcome};
ghost use Rattle.script_text.specs.declared.line.EventLine.{EventLine};
ghost use Rattle.script_text.specs.declared.line.Line.{Line};
ghost use Rattle.script_text.specs.declared.line.Line.TheVariants as line;
ghost use Rattle.script_text.specs.declared.line.SetupLine.{SetupLine};
ghost use Rattle.ar_world.specs.Examples.{no_logs, told_twice, too_early, unread};
ghost use Rattle.ar_world.specs.Delivering.{a_log, an_authority, delivery};
ghost use Rattle.ar_world.specs.Finding.{log_at, message_at};
ghost use Rattle.ar_world.specs.Founding.{is_peopled};
ghost use Rattle.ar_nodes.specs.Parties.{AuthorityNode, CheckParts, LogNode};
ghost use Rattle.ar_nodes.specs.Pool.{Pooled, entries_from};
ghost use Rattle.ar_world.specs.Printed.{TellsMoved, entries_in};
ghost use Rattle.ar_world.specs.Records.{bytes_at, held_of, taken_at};
ghost use Rattle.ar_world.specs.Run.{Saying, lines_of_run, run};
ghost use Rattle.ar_world.specs.Settling.{authority_apart, authority_settled, log_apart, log_settled};
ghost use Rattle.ar_world.specs.State.{World, first_world, no_directory};
ghost use Rattle.ar_world.specs.Step.{leads_to, step};
ghost use Rattle.ar_nodes.specs.declared.fault.WorldFault.TheVariants.{Order};
ghost use Rattle.ar_world.specs.declared.phase.Phase.TheVariants.{Running};

/// Lines of the setup come before all others, and the others behind the authorities. A line that is taken leads to its
/// phase.
pub fn the_setup_comes_first()
    ensures setup { (says : Outcome) (w : World) (l : SetupLine) → w.phase ≡ Running
        → step says w (line.Setup l) ≡ Err Order }
    ensures others { (says : Outcome) (w : World) (l : EventLine) → is_peopled w.phase ≡ false
        → step says w (line.Event l) ≡ Err Order }
    ensures reached { (says : Outcome) (w : World) (l : SetupLine)
        → IfOk (step says w (line.Setup l)) (λ made. made.0.phase ≡ leads_to l) }
    ensures running { (says : Outcome) (w : World) (l : EventLine)
        → IfOk (step says w (line.Event l)) (λ made. made.0.phase ≡ Running) }
{}

/// The pool only grows, and each message is printed once, with its number, where it enters: by each line, and of a whole
/// script, whose printed messages are those of its pool, numbered from 1.
pub fn the_printed_messages_are_the_pool()
    ensures line { (says : Outcome) (w : World) (l : Line)
        → IfOk (step says w l) (TellsMoved w.pool) }
    ensures script { (saying : Saying) (checks : List CheckParts) (input : List ℕ)
        → entries_in (run saying checks input).said
        ≡ entries_from 1 (run saying checks input).world.pool }
{}

/// Small scripts that stop at their first wrong line write that line's number, and why it is wrong.
pub fn small_scripts_stop_where_they_should()
    ensures early { (saying : Saying) (checks : List CheckParts)
        → lines_of_run (run saying checks too_early.script) ≡ too_early.written }
    ensures twice { (saying : Saying) (checks : List CheckParts)
        → lines_of_run (run saying checks told_twice.script) ≡ told_twice.written }
    ensures no_logs { (saying : Saying) (checks : List CheckParts)
        → lines_of_run (run saying checks no_logs.script) ≡ no_logs.written }
    ensures unread { (saying : Saying) (checks : List CheckParts)
        → lines_of_run (run saying checks unread.script) ≡ unread.written }
{}

/// Before the first line nobody holds anything. Of a message that is there the bytes are told, and of an honest log what it
/// did without refusing.
pub fn what_is_told_of_a_world_is_its_own()
    ensures nothing { (checks : List CheckParts) → held_of (first_world checks)
        ≡ record {
          directory = no_directory;
          dishonest = [];
          logs = [];
          authorities = [];
          judged = [];
          learned = [];
        } }
    ensures message { (w : World) (number : ℕ) (p : Pooled) → message_at w number ≡ Some p
        → bytes_at w number ≡ Some p.bytes }
    ensures log { (w : World) (number : ℕ) (node : LogNode) → log_at w number ≡ Some node
        → taken_at w number ≡ Some node.taken }
{}

/// A delivery is what its party makes of the message, apart from its world, and what becomes of the world where the party has
/// replied so. Thus a party may take its messages apart from the world, and what it replied is settled later.
pub fn a_delivery_is_a_reply_that_is_settled()
    ensures log { (says : Outcome) (w : World) (message number : ℕ) (node : LogNode)
        → log_at w number ≡ Some node
        → delivery says w message number (a_log node)
        ≡ log_settled w message number (log_apart w message node) }
    ensures authority { (says : Outcome) (w : World) (message number : ℕ) (node : AuthorityNode)
        → delivery says w message number (an_authority node)
        ≡ authority_settled w message number (authority_apart says w message node) }
{}
