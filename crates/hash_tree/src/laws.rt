//! What holds of the definitions: each is the contract of a function that does nothing.
ghost use Rattle.std.specs.Prelude.{◌≡◌, ◌≢◌, ℕ, ◌<◌, ◌≤◌, List, length, None, IsTrue};
ghost use Rattle.std.specs.FinMap.{contains_key, get, insert, remove};
ghost use Rattle.hash_tree.specs.Entries.{Entries, Agree};
ghost use Rattle.hash_tree.specs.Kept.{AreSame, Keeps};
ghost use Rattle.hash_tree.specs.Path.{steps_of};
ghost use Rattle.hash_tree.specs.declared.node.Node.{Node};

/// A path has at most 256 steps, and more than there are first bits in which another key of the set
/// agrees with its own. So two keys that differ in their last bit alone have paths of 256 steps.
pub fn a_path_passes_what_agrees()
    ensures most { (m : Entries) (key : List ℕ) → length (steps_of key m) ≤ 256 }
    ensures passes { (m : Entries) (key other : List ℕ) (depth : ℕ) → IsTrue (contains_key m key)
        → IsTrue (contains_key m other)
        → key ≢ other → Agree depth key other → depth < 256 → depth < length (steps_of key m) }
{}

/// An entry that goes out again leaves no trace.
pub fn what_goes_out_leaves_no_trace()
    ensures { (m : Entries) (key value : List ℕ) → get m key ≡ None
        → remove (insert m key value) key ≡ m }
{}

/// One map has one kept tree: of one shape, with the same entries and the same digests, however it came to be.
/// So what went out of a tree has left no trace in it.
pub fn one_map_has_one_kept_tree()
    ensures { (depth : ℕ) (m : Entries) (one other : Node) → Keeps depth one m → Keeps depth other m
        → AreSame one other }
{}
