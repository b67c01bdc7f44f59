//! Laws on the definitions of `specs/`: each is the contract of a function with an empty body.
ghost use Rattle.std.specs.Prelude.{◌≡◌, ◌+◌, ◌<◌, ◌≤◌, ◌↔◌, ℕ, List, length, Contains};
ghost use Rattle.ar_seats.specs.Numbers.{HasEachBelow, IsRising, merged, times};
ghost use Rattle.ar_base.specs.Prefixes.{BeginsWith};
ghost use Rattle.ar_seats.specs.Prefixes.{longer};
ghost use Rattle.ar_seats.specs.Shares.{given_of, left_of};

/// A list that has each number below a limit, once each, is as long as the limit.
pub fn each_number_below_a_limit_is_as_many()
    ensures { (limit : ℕ) (numbers : List ℕ) → HasEachBelow limit numbers → length numbers ≡ limit }
{}

/// And what stands in it are the numbers below the limit.
pub fn what_it_has_is_below_the_limit()
    ensures { (limit : ℕ) (numbers : List ℕ) (number : ℕ) → HasEachBelow limit numbers
        → Contains numbers number ↔ (number < limit) }
{}

/// Two rising lists in one have each number as often as both, and rise where no number is in both.
pub fn a_merged_list_has_the_numbers_of_both()
    ensures numbers { (number : ℕ) (numbers others : List ℕ)
        → times number (merged numbers others) ≡ times number numbers + times number others }
    ensures rising { (numbers others : List ℕ) → IsRising numbers → IsRising others
        → ((number : ℕ) → times number numbers + times number others ≤ 1)
        → IsRising (merged numbers others) }
{}

/// Of two beginnings of one list the longer begins with both.
pub fn the_longer_beginning_begins_with_both<A>()
    ensures { (whole one other : List A) → BeginsWith whole one → BeginsWith whole other
        → BeginsWith (longer one other) one × BeginsWith (longer one other) other }
{}

/// A split loses nothing, and the part that is left is the greater by at most 1.
pub fn a_split_loses_nothing()
    ensures whole { (share : ℕ) → left_of share + given_of share ≡ share }
    ensures halves { (share : ℕ)
        → (given_of share ≤ left_of share) × (left_of share ≤ given_of share + 1) }
{}

/// Each part of a share above 1 is a share.
pub fn each_part_is_a_share()
    ensures { (share : ℕ) → 1 < share → (0 < left_of share) × (0 < given_of share) }
{}
