//! Laws on what a party keeps, over the definitions alone: each is the contract of a function that does nothing.

ghost use Rattle.std.specs.Prelude.{◌≡◌, ◌++◌, ◌∷◌, [], ℕ, List, Some, length};
ghost use Rattle.ar_base.specs.Prefixes.{BeginsWith};
ghost use Rattle.kept_journal.specs.Journal.{IsNoJournal, Stands};
ghost use Rattle.kept_journal.specs.Replays.{IsBad, ReachesBy};
ghost use Rattle.kept_party.specs.Lives.{Lead, Life};
ghost use Rattle.kept_party.specs.Taking.{Becomes, RepliesLast};

use crate::Keeper;

/// A file that stands for texts which a party can take again, one behind the other, is refused by neither its mark nor a record
/// of it.
pub fn a_file_that_can_be_replayed_is_not_refused<P: Keeper>()
    ensures mark { (mark file : List ℕ) (texts : List (List ℕ)) → Stands mark texts file
        → ¬ IsNoJournal mark file }
    ensures records { (mark file : List ℕ) (texts : List (List ℕ)) (first last : P) (place : ℕ)
        → Stands mark texts file → ReachesBy (Becomes P.takes) first texts last
        → ¬ IsBad (Becomes P.takes) mark first file place }
{}

/// What was answered in a life of a file stands in it in each later life, whatever crashes and openings come between: its texts
/// begin with those from before and with what was answered.
pub fn what_was_answered_is_kept()
    ensures { (mark : List ℕ) (texts answered last : List (List ℕ)) (left : List ℕ)
        (lives : List Life) → length mark ≡ 8
        → Lead mark texts (record { answered = answered; left = left } ∷ lives) last
        → BeginsWith last (texts ++ answered) }
{}

/// What a party did it has done in each later life of its file, whatever crashes and openings come between: the party that is
/// opened then is what the one that replied became, and what it took since.
pub fn what_was_done_is_kept<P: Keeper>()
    ensures { (mark : List ℕ) (first before after last : P) (texts answered more : List (List ℕ))
        (text : List ℕ) (reply : P.Reply) (left : List ℕ) (lives : List Life)
        (final : List (List ℕ)) → length mark ≡ 8
        → ReachesBy (Becomes P.takes) first (texts ++ answered) before
        → P.takes before text reply after
        → Lead mark texts (record { answered = answered ++ (text ∷ more); left = left } ∷ lives) final
        → ReachesBy (Becomes P.takes) first final last
        → (since : List (List ℕ)) × ReachesBy (Becomes P.takes) after since last }
{}

/// What is given at an opening is what was replied to the last text of the file, and the party stands where it stood behind that.
pub fn what_is_given_again_was_replied<P: Keeper>()
    ensures { (first before after last : P) (texts : List (List ℕ)) (text : List ℕ)
        (reply again : P.Reply) → ReachesBy (Becomes P.takes) first texts before
        → P.takes before text reply after
        → RepliesLast P.takes first (texts ++ text ∷ []) (Some again) last
        → (again ≡ reply) × (last ≡ after) }
{}
