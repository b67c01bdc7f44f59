/// What the check of an authority is told of a name and a key.
#[derive(Clone, Copy, Debug, PartialEq, Eq)]
pub enum Lesson {
    /// The name has the key.
    Learn,
    /// It has it no longer.
    Forget,
}
