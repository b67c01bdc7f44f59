ghost use Rattle.std.specs.Prelude.{◌≡◌, ℕ, Bool, true};

/// What is found by its print.
pub trait Printed: Drop {
    /// By what an item is sought: the item itself, or a part of it.
    type Sought;

    /// Whether the item is what is sought.
    ghost same: { Self.Sought → Self → Bool };

    /// The print of an item.
    ghost print: { Self → ℕ };

    /// The print of what is sought.
    ghost sought_print: { Self.Sought → ℕ };

    /// Whether the item is what is sought.
    fn is_same(&self, sought: &Self::Sought) -> bool
        ensures { result ≡ same sought.now self.now };

    /// The print of what is sought.
    fn sought_print(sought: &Self::Sought) -> u128
        ensures { result ≡ sought_print sought.now };

    /// The print of the item.
    fn print(&self) -> u128
        ensures { result ≡ print self.now };

    /// What is sought has the print of each item that is the same.
    ghost alike: { (sought : Self.Sought) (item : Self) → same sought item ≡ true
        → sought_print sought ≡ print item };
}
