//! Laws on names, over the definitions alone: each is the contract of a function without a body.

ghost use Rattle.std.specs.Prelude.{◌≡◌, ◌<◌, ◌≤◌, Some, false, List, ℕ, length};
ghost use Rattle.ar_names.specs.Names.{is_open, first_fault_of, IsName, NoneWrongBefore, IsFirstFault};

/// The first fault is the least, and a text without one is a name.
pub fn the_first_fault_is_least()
    ensures found { (text : List ℕ) (p : ℕ) → first_fault_of text ≡ Some p → IsFirstFault text p }
    ensures only { (text : List ℕ) (p : ℕ) → IsFirstFault text p → first_fault_of text ≡ Some p }
    ensures no_fault { (text : List ℕ) → IsName text
        → NoneWrongBefore text (length text) × (is_open text ≡ false) }
    ensures name { (text : List ℕ) → NoneWrongBefore text (length text) → is_open text ≡ false
        → IsName text }
{}

/// A name has 1 to 253 bytes.
pub fn names_are_short()
    ensures { (text : List ℕ) → IsName text → (0 < length text) × (length text ≤ 253) }
{}
