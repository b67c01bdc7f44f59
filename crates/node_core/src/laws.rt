//! Laws on histories, over the definitions alone: each is the contract of a function with an empty body.
ghost use Rattle.std.specs.Prelude.{◌≡◌, ◌↔◌, List, [], ◌∷◌, ◌++◌, Some, length, slice_get};
ghost use Rattle.node_core.specs.History.{IsLegal, Replays, replies, reply_after, state_after};

use crate::Core;

/// There is one reply to each call, and it is the one that the core gives where the calls before it left it.
pub fn each_reply_is_that_of_its_place<C: Core>()
    ensures many { (first : C.State) (history : List (C.Input × C.Note))
        → length (replies C.next first history) ≡ length history }
    ensures place { (first : C.State) (before after : List (C.Input × C.Note)) (input : C.Input)
        (note : C.Note)
        → slice_get (replies C.next first (before ++ (input, note) ∷ after)) (length before)
        ≡ Some (reply_after C.next first before input note) }
{}

/// Where a history stands in two parts, the second begins where the first left the core.
pub fn a_history_goes_on_where_its_front_ends<C: Core>()
    ensures state { (first : C.State) (front rest : List (C.Input × C.Note))
        → state_after C.next first (front ++ rest)
        ≡ state_after C.next (state_after C.next first front) rest }
    ensures replies { (first : C.State) (front rest : List (C.Input × C.Note))
        → replies C.next first (front ++ rest) ≡ replies C.next first front
        ++ replies C.next (state_after C.next first front) rest }
    ensures legal { (first : C.State) (front rest : List (C.Input × C.Note))
        → IsLegal C.next C.legal first (front ++ rest)
        ↔ (IsLegal C.next C.legal first front
        × IsLegal C.next C.legal (state_after C.next first front) rest) }
{}

/// A history is legal exactly where its front is, and its last note may come where the front left the core.
pub fn a_history_is_legal_by_its_parts<C: Core>()
    ensures { (first : C.State) (front : List (C.Input × C.Note)) (input : C.Input) (note : C.Note)
        → IsLegal C.next C.legal first (front ++ (input, note) ∷ [])
        ↔ (IsLegal C.next C.legal first front
        × C.legal (state_after C.next first front) input note) }
{}

/// What replays to a state, and the core's next call, replay to the state behind that.
pub fn a_call_more_replays<C: Core>()
    ensures { (first old now : C.State) (history : List (C.Input × C.Note)) (input : C.Input)
        (note : C.Note) (reply : C.Reply)
        → Replays C.next C.legal first history old → C.legal old input note
        → C.next old input note ≡ (reply, now)
        → Replays C.next C.legal first (history ++ (input, note) ∷ []) now }
{}
