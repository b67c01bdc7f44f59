use ar_base::Items;

/// What is brought to a log or an authority: a message.
#[derive(Debug, Drop)]
pub struct Delivery {
    /// The number of the delivery among those that are brought together, from 0.
    pub j: u64,
    /// The number of the message in its pool.
    pub message: u64,
    /// The bytes of the message.
    pub bytes: Items<u8>,
}
