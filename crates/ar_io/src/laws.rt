//! Laws on the definitions of `specs/`: each is the contract of a function with an empty body.
ghost use Rattle.std.specs.Prelude.{◌≡◌, ◌+◌, ◌<◌, ◌↔◌, ℕ, List, [], ◌++◌};
ghost use Rattle.ar_base.specs.Faults.{most_faults};
ghost use Rattle.ar_io.specs.Calls.{CallCount, IsDue, call_number, after_call};
ghost use Rattle.ar_io.specs.ReadAll.{IsTakenCount};
ghost use Rattle.ar_io.specs.Wrote.{Appended};
ghost use Rattle.ar_io.specs.declared.faults.ReadFault.{ReadFault};

use crate::Sink;

/// A reading that did not come to its end was too long exactly where more than the limit was taken.
pub fn long_is_past_the_limit()
    ensures { (limit count : ℕ) (fault : ReadFault) → IsTakenCount limit fault count
        → ((fault ≡ ReadFault.Long) ↔ (limit < count)) }
{}

/// What is written in two pieces is what is written in one.
pub fn two_pieces_are_one<K: Sink>()
    ensures { (first_state second_state third_state : K) (front back : List ℕ)
        → Appended K.wrote first_state second_state front
        → Appended K.wrote second_state third_state back
        → Appended K.wrote first_state third_state (front ++ back) }
{}

/// Calls are numbered one after the other, as long as the numbers last.
pub fn calls_are_numbered_in_turn()
    ensures first { (c : CallCount) → c.made ≡ 0 → call_number c ≡ 1 }
    ensures next { (c : CallCount) → call_number c < most_faults
        → call_number (after_call c) ≡ call_number c + 1 }
{}

/// No call fails where none is to.
pub fn no_call_is_due_where_none_is_named()
    ensures { (c : CallCount) → c.fails ≡ [] → ¬ IsDue c }
{}
