//! Laws on orders and on what seats have done, over the definitions alone: each is the contract of a function with an empty body.
ghost use Rattle.std.specs.Prelude.{◌≡◌, ◌<◌, ◌≤◌, ℕ, Bool, true, List, Some, length, map, slice_get};
ghost use Rattle.ar_base.specs.Prefixes.{BeginsWith};
ghost use Rattle.ar_seats.specs.Numbers.{HasEachBelow, times};
ghost use Rattle.ar_seats.specs.Totals.{total};
ghost use Rattle.seat_orders.specs.Carrying.{Carries, inputs_of};
ghost use Rattle.seat_orders.specs.Dealing.{dealt_lists};
ghost use Rattle.seat_orders.specs.Orders.{IsInterleaving};

use node_core::Core;

/// What is dealt to workers is dealt once: no number stands in the lists of two workers, or twice in one.
pub fn nothing_is_dealt_twice<D>()
    ensures { (workers : ℕ) (here : D → Bool) (things : List D) (x : ℕ)
        → total (times x) (dealt_lists workers here things) ≤ 1 }
{}

/// An order in which workers bring what was dealt to them has each thing that goes there once, and nothing else.
pub fn an_order_has_what_goes_there_once<D>()
    ensures each { (workers : ℕ) (here : D → Bool) (things : List D) (order : List ℕ) (x : ℕ)
        (thing : D) → 0 < workers
        → IsInterleaving order (dealt_lists workers here things) → slice_get things x ≡ Some thing
        → here thing ≡ true → times x order ≡ 1 }
    ensures alone { (workers : ℕ) (here : D → Bool) (things : List D) (order : List ℕ) (x : ℕ)
        → IsInterleaving order (dealt_lists workers here things) → 0 < times x order
        → (thing : D) × (slice_get things x ≡ Some thing) × (here thing ≡ true) }
{}

/// The seat that has all calls of a history, and took in those of all workers, tells the order: what the workers brought stands
/// interleaved in the history.
pub fn a_history_is_an_interleaving<C: Core, T>()
    ensures { (finish : C.Reply → T) (first : C.State) (seen history : List (C.Input × C.Note))
        (own : List ℕ) (told : List (ℕ × T))
        (lists : List (List C.Input)) (number : C.Input → ℕ)
        → Carries C.next finish first seen own told lists → BeginsWith history seen
        → HasEachBelow (length history) own
        → ((x : ℕ) → total (times x) (map (map number) lists) ≤ 1)
        → IsInterleaving (map number (inputs_of history)) (map (map number) lists) }
{}
