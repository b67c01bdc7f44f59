//! Laws on a run's honest logs and their inputs, over the definitions alone: each is the contract of a function that does nothing.

ghost use Rattle.std.specs.Prelude.{◌≡◌, ◌++◌, ◌∷◌, [], ℕ, All, List, Some, map};
ghost use Rattle.run_safety.specs.ar_nodes.Parties.{CheckParts, LogNode};
ghost use Rattle.run_safety.specs.ar_nodes.Pool.{Pooled};
ghost use Rattle.run_safety.specs.ar_nodes.declared.event.LogEvent.{LogEvent};
ghost use Rattle.run_safety.specs.ar_world.Finding.{log_at};
ghost use Rattle.run_safety.specs.ar_world.Run.{Saying, run};
ghost use Rattle.run_safety.specs.ar_world.State.{World};
ghost use Rattle.kept_journal.specs.Replays.{ReachesBy};
ghost use Rattle.lms_tree.specs.KeyParts.{KeyParts};
ghost use Rattle.run_safety.specs.log_core.State.{Input};
ghost use Rattle.log_journal.specs.Inputs.{IsWhole, input_text};
ghost use Rattle.log_journal.specs.Steps.{LogStanding, TakesInput, takes};
ghost use Rattle.lms_tree.specs.Key.{public_of};
ghost use Rattle.lms_tree.specs.declared.public_key.LmsPublic.{LmsPublic};
ghost use Rattle.key_roll.specs.Ring.{IsOfNext, next_key};
ghost use Rattle.run_replays.specs.Inputs.{inputs_from, newest_after};
ghost use Rattle.run_replays.specs.Replayed.{Becomes, IsNewestKey, IsReplayed, TakesNext};
ghost use Rattle.run_safety.specs.Passing.{GoesThrough};

/// In each world through which a run goes, behind each line and behind each delivery of a `flush`, each honest log is what the
/// inputs that it did not refuse make of the log where the run began; so it is at the run's end.
pub fn an_honest_log_is_what_its_inputs_make_of_a_new_log()
    ensures passing { (saying : Saying) (checks : List CheckParts) (input : List ℕ) (w : World)
        (number : ℕ) (node : LogNode)
        → GoesThrough saying checks input w → log_at w number ≡ Some node
        → IsReplayed w number node }
    ensures ended { (saying : Saying) (checks : List CheckParts) (input : List ℕ) (number : ℕ)
        (node : LogNode)
        → log_at (run saying checks input).world number ≡ Some node
        → IsReplayed (run saying checks input).world number node }
{}

/// A log that took the first of some inputs again, with nothing between them, takes the next one, whatever its keys have been
/// since: where it is asked to go on to a key, that of its own next key is the one of the input. So it becomes the same.
pub fn a_log_takes_its_inputs_again()
    ensures next { (pool : List Pooled) (first here last : LogStanding) (newest : KeyParts)
        (front : List LogEvent) (event : LogEvent) (events : List LogEvent)
        → IsNewestKey first.keys newest
        → Becomes first (inputs_from pool newest (front ++ event ∷ events)) last
        → Becomes first (inputs_from pool newest front) here
        → TakesNext pool here event events last }
    ensures all { (first here last : LogStanding) (inputs : List Input) → Becomes first inputs last
        → Becomes first inputs here → here ≡ last }
    ensures more { (first here later : LogStanding) (inputs : List Input) (input : Input)
        → Becomes first inputs here → TakesInput here input later
        → Becomes first (inputs ++ input ∷ []) later }
    ensures own { (keys : List KeyParts) (newest : KeyParts) (key : LmsPublic)
        → IsNewestKey keys newest → IsOfNext keys key → key ≡ public_of (next_key newest) }
    ensures inputs { (pool : List Pooled) (newest : KeyParts) (front events : List LogEvent)
        → inputs_from pool newest (front ++ events) ≡ inputs_from pool newest front
        ++ inputs_from pool (newest_after newest front) events }
{}

/// What the inputs of a log make of another is what their texts make of it, as a journal has them, and the other way round.
pub fn inputs_are_replayed_as_their_texts()
    ensures texts { (first last : LogStanding) (inputs : List Input) → All IsWhole inputs
        → Becomes first inputs last → ReachesBy takes first (map input_text inputs) last }
    ensures inputs { (first last : LogStanding) (inputs : List Input) → All IsWhole inputs
        → ReachesBy takes first (map input_text inputs) last → Becomes first inputs last }
    ensures whole { (pool : List Pooled) (newest : KeyParts) (events : List LogEvent)
        → All IsWhole (inputs_from pool newest events) }
{}
