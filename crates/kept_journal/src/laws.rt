//! Laws on journals, over the definitions alone: each is the contract of a function that does nothing.

ghost use Rattle.std.specs.Prelude.{◌≡◌, ◌+◌, ◌≤◌, ℕ, List, [], length};
ghost use Rattle.kept_journal.specs.Journal.{IsNoJournal, Stands, recovered};
ghost use Rattle.kept_journal.specs.Opening.{opening};
ghost use Rattle.kept_journal.specs.Replays.{IsBad, ReachesBy};

use crate::Replay;

/// A file that stands for texts has these texts. A file of at most 9 bytes has none.
pub fn a_file_has_the_texts_that_it_stands_for()
    ensures stands { (mark file : List ℕ) (texts : List (List ℕ)) → length mark ≡ 8
        → Stands mark texts file → recovered file ≡ texts }
    ensures short { (file : List ℕ) → length file ≤ 9 → recovered file ≡ [] }
{}

/// A file that stands for texts which a party can take again is refused by neither its mark nor a record of it.
pub fn a_file_that_can_be_replayed_is_not_refused<P: Replay>()
    ensures mark { (mark file : List ℕ) (texts : List (List ℕ)) → Stands mark texts file
        → ¬ IsNoJournal mark file }
    ensures records { (mark file : List ℕ) (texts : List (List ℕ)) (first last : P) (place : ℕ)
        → Stands mark texts file → ReachesBy P.takes first texts last
        → ¬ IsBad P.takes mark first file place }
{}

/// Opening a file takes at most five calls and three changes of a disk, and room for at most as many bytes as the file has and 9.
/// Of a file of at most 9 bytes it takes just five calls, three changes and 9 bytes.
pub fn opening_takes_little()
    ensures calls { (file : List ℕ) → (opening file).calls ≤ 5 }
    ensures bytes { (file : List ℕ) → (opening file).bytes ≤ length file + 9 }
    ensures changes { (file : List ℕ) → (opening file).changes ≤ 3 }
    ensures short { (file : List ℕ) → length file ≤ 9
        → opening file ≡ record { calls = 5; bytes = 9; changes = 3 } }
{}
