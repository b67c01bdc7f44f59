/// How far a script came. The phases stand in the order in which the lines of the setup lead from one to the next; `order.rt`
/// says which line may come in which.
#[derive(Clone, Copy, Debug, PartialEq, Eq)]
pub enum Phase {
    /// No line came yet.
    Beginning,
    /// The last line told the secret.
    SecretTold,
    /// The last line told the types of keys.
    KeysTold,
    /// The logs are there.
    LogsMade,
    /// The authorities are there too, and the setup may end.
    AuthoritiesMade,
    /// A party was made dishonest.
    DishonestTold,
    /// A line came that is none of the setup.
    Running,
}
