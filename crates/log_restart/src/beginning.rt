use lms_tree::LmsKey;
use party_keys::Directory;

/// What a log begins with, beside its number.
#[derive(Drop)]
pub struct Beginning {
    /// The directory of the first keys.
    pub directory: Directory,
    /// Its own first key.
    pub key: LmsKey,
}
