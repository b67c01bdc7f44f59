use party_keys::Directory;

/// What parties know of the keys of logs and authorities.
#[derive(Drop)]
pub struct Directories {
    /// The first keys, with which each party begins.
    pub genesis: Directory,
    /// The clients' own, which all clients share.
    pub clients: Directory,
}
