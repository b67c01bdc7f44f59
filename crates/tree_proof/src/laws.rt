//! What holds of the definitions: each is the contract of a function that does nothing.
//!
//! `HoldsDigests` and `IsDigest` say that keys and values have 32 bytes, as in the program each has
//! by its type. The one premise beside them is that no two strings of a list collide, and the list is
//! of the strings that were hashed for the set of entries and for the path.
ghost use Rattle.std.specs.Prelude.{◌≡◌, ◌↔◌, ℕ, List, ◌++◌, None, Some, IsTrue};
ghost use Rattle.std.specs.FinMap.{get};
ghost use Rattle.ar_base.specs.Apart.{none_collide};
ghost use Rattle.ar_base.specs.Bytes.{IsDigest};
ghost use Rattle.hash_tree.specs.Entries.{Entries, HoldsDigests};
ghost use Rattle.hash_tree.specs.Root.{root, strings_of};
ghost use Rattle.hash_tree.specs.Strings.{entry_string};
ghost use Rattle.hash_tree.specs.Path.{bottom_of, steps_of};
ghost use Rattle.hash_tree.specs.declared.bottom.Bottom.{Bottom};
ghost use Rattle.tree_proof.specs.Membership.{On, Off, OnBytes, OffBytes, HasDigestKey, bottom_string, is_on, is_off, path_strings};

/// The path of a key that has a value shows that value under the root.
pub fn made_presence_is_accepted()
    ensures { (m : Entries) (key value : List ℕ) → HoldsDigests m → get m key ≡ Some value
        → On key value (steps_of key m) (root m) }
{}

/// The path of a key that has no value shows its absence under the root.
pub fn made_absence_is_accepted()
    ensures { (m : Entries) (key : List ℕ) → HoldsDigests m → get m key ≡ None
        → Off key (bottom_of key m) (steps_of key m) (root m) }
{}

/// Steps that show a value under the root of a set of entries show the key's value in it.
pub fn presence_binds()
    ensures { (m : Entries) (key value : List ℕ) (steps : List (List ℕ)) → HoldsDigests m
        → IsDigest key
        → IsTrue (none_collide (strings_of m ++ path_strings key (entry_string key value) steps))
        → On key value steps (root m) → get m key ≡ Some value }
{}

/// Steps that show absence under the root of a set of entries show that the key has no value in it.
pub fn absence_binds()
    ensures { (m : Entries) (key : List ℕ) (bottom : Bottom) (steps : List (List ℕ))
        → HoldsDigests m
        → IsDigest key → HasDigestKey bottom
        → IsTrue (none_collide (strings_of m ++ path_strings key (bottom_string bottom) steps))
        → Off key bottom steps (root m) → get m key ≡ None }
{}

/// Two sets of entries with one root are one set.
pub fn equal_roots_bind()
    ensures { (m n : Entries) → HoldsDigests m → HoldsDigests n
        → IsTrue (none_collide (strings_of m ++ strings_of n)) → root m ≡ root n → m ≡ n }
{}

/// The test `is_on` tells whether bytes show that a key has a value.
pub fn presence_is_tested()
    ensures { (key value bytes root : List ℕ)
        → IsTrue (is_on key value bytes root) ↔ OnBytes key value bytes root }
{}

/// The test `is_off` tells whether bytes show that a key has no value.
pub fn absence_is_tested()
    ensures { (key : List ℕ) (bottom : Bottom) (bytes root : List ℕ)
        → IsTrue (is_off key bottom bytes root) ↔ OffBytes key bottom bytes root }
{}
