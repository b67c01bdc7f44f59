/// What a ballot is for: the root that the integrity tree is to have next, over the root that it has
/// now, its base.
#[derive(Clone, Copy, Debug, PartialEq, Eq)]
pub struct Value {
    /// The root of the table in which the epoch begins; statuses exclude a root whatever its base.
    pub base: [u8; 32],
    /// The root of the table that the epoch is to end with.
    pub root: [u8; 32],
}
