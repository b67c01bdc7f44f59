use ar_base::Items;
use ar_names::Name;

/// What an authority is asked.
#[derive(Debug, Drop)]
pub enum AuthorityOrder {
    /// To take a message: its bytes.
    Take(Items<u8>),
    /// To go on to its next key.
    Roll,
    /// Its check is to know that the name has this key.
    Learn {
        name: Name,
        /// The text of the key.
        key: [u8; 56],
    },
    /// Its check is to know it no longer.
    Forget {
        name: Name,
        /// The text of the key.
        key: [u8; 56],
    },
    /// To drop its check: it endorses no more.
    Retire,
}
