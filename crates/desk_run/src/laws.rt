//! Laws on answers, over the definitions alone: each is the contract of a function that does nothing.

ghost use Rattle.std.specs.Prelude.{◌≡◌, ◌∷◌, [], ℕ, List, Option};
ghost use Rattle.desk_run.specs.Answers.{AnswersLine, AnswersLines};
ghost use Rattle.desk_run.specs.Opened.{LeavesRun};
ghost use Rattle.desk_run.specs.Runs.{HasAnsweredFront, HasStopped};
ghost use Rattle.desk_run.specs.declared.stop.Stop.{Stop};
ghost use Rattle.kept_journal.specs.Journal.{IsNoJournal};
ghost use Rattle.kept_journal.specs.Replays.{IsBad, ReachesBy};
ghost use Rattle.kept_party.specs.Parts.{WithJournal};
ghost use Rattle.kept_party.specs.Taking.{Becomes};

use ar_io::Sink;
use kept_disk::Disk;
use party_desk::LineParty;

/// There is one answer to a line that is taken by a text, which the journal has then: whoever knows where the party stood, the
/// line and its text knows what was written, and where the party stands. Where an order has one text, as those of a log, an
/// authority and an owner have (`party_desk`), the text need not be known.
pub fn what_is_taken_has_one_answer<D: LineParty>()
    ensures text { (old one other : D) (number : ℕ) (line text written said : List ℕ)
        → AnswersLine D.asked D.says D.takes D.tells D.refuses D.sent_text D.told_text
        D.refused_text old number line written (text ∷ []) one
        → AnswersLine D.asked D.says D.takes D.tells D.refuses D.sent_text D.told_text
        D.refused_text old number line said (text ∷ []) other
        → (written ≡ said) × (one ≡ other) }
    ensures texts { ((party : D) (order : D.Order) (text other : List ℕ)
        → D.says party order text → D.says party order other → text ≡ other)
        → (old one other : D) (number : ℕ) (line text again written said : List ℕ)
        → AnswersLine D.asked D.says D.takes D.tells D.refuses D.sent_text D.told_text
        D.refused_text old number line written (text ∷ []) one
        → AnswersLine D.asked D.says D.takes D.tells D.refuses D.sent_text D.told_text
        D.refused_text old number line said (again ∷ []) other
        → (text ≡ again) × (written ≡ said) × (one ≡ other) }
{}

/// Where a run stops, a front of its lines was answered, with those whose answer was not written or not whole, and what was
/// written is a front of what is written at first and of the answers.
pub fn a_run_that_stops_wrote_a_front_of_its_answers<D: LineParty, K: Disk, W: Sink>()
    ensures { (old new : WithJournal D K) (first last : Option (List ℕ)) (before after : W)
        (opening : List ℕ) (stop : Stop)
        → HasStopped (AnswersLine D.asked D.says D.takes D.tells D.refuses D.sent_text
        D.told_text D.refused_text) W.wrote K.held old new first last before after opening stop
        → HasAnsweredFront (AnswersLine D.asked D.says D.takes D.tells D.refuses D.sent_text
        D.told_text D.refused_text) W.wrote old.party first last before after opening }
{}

/// What a run took makes of the party what it is: its journal has, behind the texts from before, those by which it came there.
pub fn what_a_run_took_replays<D: LineParty>()
    ensures { (old new : D) (number : ℕ) (lines : List (List ℕ)) (written : List ℕ)
        (more : List (List ℕ))
        → AnswersLines (AnswersLine D.asked D.says D.takes D.tells D.refuses D.sent_text
        D.told_text D.refused_text) old number lines written more new
        → ReachesBy (Becomes D.takes) old more new }
{}

/// Whatever a crash leaves of a run can be opened again, by the party that had done nothing: its file is refused by neither its
/// mark nor a record.
pub fn what_a_crash_leaves_is_opened_again<D: LineParty>()
    ensures { (mark file left : List ℕ) (new : D) (first last : Option (List ℕ))
        → LeavesRun D.takes (AnswersLine D.asked D.says D.takes D.tells D.refuses D.sent_text
        D.told_text D.refused_text) D.asked D.says mark file new first last left
        → (¬ IsNoJournal mark left)
        × ((place : ℕ) → ¬ IsBad (Becomes D.takes) mark new left place) }
{}
