//! Laws on what a log keeps, over the definitions alone: each is the contract of a function that does nothing.

ghost use Rattle.std.specs.Prelude.{◌≡◌, ◌++◌, ◌∷◌, ℕ, List, Ok, Some, All};
ghost use Rattle.ar_base.specs.Prefixes.{BeginsWith};
ghost use Rattle.epoch_log.specs.Later.{LogGrows};
ghost use Rattle.key_roll.specs.Later.{IsServed};
ghost use Rattle.kept_journal.specs.Journal.{IsNoJournal, Stands};
ghost use Rattle.kept_journal.specs.Replays.{IsBad, ReachesBy};
ghost use Rattle.log_core.specs.Row.{row};
ghost use Rattle.log_core.specs.State.{Input, LogStep};
ghost use Rattle.log_journal.specs.Inputs.{IsWhole, input_in, input_text, mark};
ghost use Rattle.log_journal.specs.Lives.{Lead, Life};
ghost use Rattle.log_journal.specs.Steps.{LogStanding, TakesInput, takes};

/// The text of an input says it, and no other.
pub fn a_text_says_its_input()
    ensures { (input : Input) → IsWhole input → input_in (input_text input) ≡ Some input }
{}

/// A file that stands for inputs which a log can take again, one behind the other, is refused by neither its mark nor a record
/// of it.
pub fn a_file_that_can_be_replayed_is_not_refused()
    ensures mark { (file : List ℕ) (texts : List (List ℕ)) → Stands mark texts file
        → ¬ IsNoJournal mark file }
    ensures records { (file : List ℕ) (texts : List (List ℕ)) (first last : LogStanding) (place : ℕ)
        → Stands mark texts file
        → ReachesBy takes first texts last → ¬ IsBad takes mark first file place }
{}

/// What was answered in a life of a file stands in it in each later life, whatever crashes and openings come between: its texts
/// begin with those from before and with what was answered.
pub fn what_was_answered_is_kept()
    ensures { (texts answered last : List (List ℕ)) (left : List ℕ) (lives : List Life)
        → Lead texts (record { answered = answered; left = left } ∷ lives) last
        → BeginsWith last (texts ++ answered) }
{}

/// What a log signed it has signed in each later life of its file, whatever crashes and openings come between: the statement of
/// each signature of its own that it sent stands in its book at the generation and leaf of that signature.
pub fn what_was_signed_is_kept()
    ensures { (first before after last : LogStanding) (texts answered more : List (List ℕ))
        (input : Input) (reply : LogStep)
        (left : List ℕ) (lives : List Life) (final : List (List ℕ))
        → ReachesBy takes first (texts ++ answered) before → TakesInput before input after
        → row before.core input ≡ Ok reply → IsWhole input
        → Lead texts (record { answered = answered ++ (input_text input ∷ more); left = left }
        ∷ lives) final
        → ReachesBy takes first final last
        → LogGrows after.core.log.past last.core.log.past × All (λ blank.
        IsServed last.core.log.past.signed blank.due) reply.unsigned.blanks }
{}
