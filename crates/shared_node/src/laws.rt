//! Laws on the rule of a node, over the definitions alone: each is the contract of a function with an
//! empty body. The rule holds between any two steps of any threads, for any number of seats.
ghost use Rattle.std.specs.Prelude.{◌≡◌, ◌≢◌, ◌<◌, ℕ, List, length, Contains, Option};
ghost use mathlib.Core.Option as home;
ghost use mathlib.Core.Option.{some};
ghost use lib.ListN.{get_elem?};
ghost use Rattle.ar_base.specs.Prefixes.{BeginsWith};
ghost use Rattle.ar_seats.specs.Prefixes.{longer};
ghost use Rattle.shared_node.specs.Rule.{Keeps};
ghost use Rattle.shared_node.specs.declared.held.Held.{Held};
ghost use Rattle.shared_node.specs.declared.node.Node.{Node};

use node_core::Core;

/// What two seats have seen are beginnings of one history: the longer begins with both.
pub fn two_seats_have_seen_one_history<C: Core>()
    ensures { (first : C.State) (history : List (C.Input × C.Note)) (holders : ℕ)
        (slots : List (home.Option (Option (Node C C.Input C.Note))))
        (seats : List (Held C.State C.Input C.Note))
        (one two : ℕ) (seat other : Held C.State C.Input C.Note)
        → Keeps C.state C.next C.legal first history holders slots seats
        → get_elem? seats one ≡ some seat → get_elem? seats two ≡ some other
        → BeginsWith (longer seat.seen other.seen) seat.seen
        × BeginsWith (longer seat.seen other.seen) other.seen }
{}

/// No call is an own call of two seats.
pub fn no_call_is_of_two_seats<C: Core>()
    ensures { (first : C.State) (history : List (C.Input × C.Note)) (holders : ℕ)
        (slots : List (home.Option (Option (Node C C.Input C.Note))))
        (seats : List (Held C.State C.Input C.Note))
        (one two place : ℕ) (seat other : Held C.State C.Input C.Note)
        → Keeps C.state C.next C.legal first history holders slots seats → one ≢ two
        → get_elem? seats one ≡ some seat → get_elem? seats two ≡ some other
        → Contains seat.own place → ¬ Contains other.own place }
{}

/// Each call of the history is an own call of some seat, and no other number is one.
pub fn each_call_is_of_a_seat<C: Core>()
    ensures calls { (first : C.State) (history : List (C.Input × C.Note)) (holders : ℕ)
        (slots : List (home.Option (Option (Node C C.Input C.Note))))
        (seats : List (Held C.State C.Input C.Note)) (place : ℕ)
        → Keeps C.state C.next C.legal first history holders slots seats → place < length history
        → (there : ℕ) × (seat : Held C.State C.Input C.Note) × (get_elem? seats there ≡ some seat)
        × Contains seat.own place }
    ensures others { (first : C.State) (history : List (C.Input × C.Note)) (holders : ℕ)
        (slots : List (home.Option (Option (Node C C.Input C.Note))))
        (seats : List (Held C.State C.Input C.Note))
        (there place : ℕ) (seat : Held C.State C.Input C.Note)
        → Keeps C.state C.next C.legal first history holders slots seats
        → get_elem? seats there ≡ some seat
        → Contains seat.own place → place < length history }
{}
