//! Laws on what a log that is kept takes, over the definitions alone: each is the contract of a function that does nothing.

ghost use Rattle.std.specs.Prelude.{◌≡◌, ℕ, List, Some};
ghost use Rattle.ar_base.specs.Bytes.{AreBytes};
ghost use Rattle.ar_message.specs.declared.sent.Sent.{Sent};
ghost use Rattle.log_core.specs.State.{Input};
ghost use Rattle.log_journal.specs.Inputs.{input_in, input_text};
ghost use Rattle.log_journal.specs.Steps.{LogStanding, takes as becomes};
ghost use Rattle.log_keeper.specs.Keeping.{takes};

/// A text that says an input is that input's text: none other says it. (That the text of an input says it, `log_journal` has.)
pub fn an_input_has_one_text()
    ensures { (text : List ℕ) (input : Input) → AreBytes text → input_in text ≡ Some input
        → text ≡ input_text input }
{}

/// What a log that is kept takes is what a log takes that reads its journal again (`log_journal`), and it becomes the same.
pub fn it_takes_what_a_log_takes()
    ensures taken { (old new : LogStanding) (text : List ℕ) (sent : Sent) → takes old text sent new
        → becomes old text new }
    ensures sent { (old new : LogStanding) (text : List ℕ) → becomes old text new
        → (sent : Sent) × takes old text sent new }
{}
