use ar_base::Items;
use ar_message::Sent;

/// What an owner replies.
#[derive(Debug, Drop)]
pub enum OwnerReply {
    /// It sends this.
    Sends(Sent),
    /// It hands over to the certificate with this digest, by this signature.
    Handed {
        digest: [u8; 32],
        signature: Items<u8>,
    },
    /// It staples the certificate with this digest, in this epoch and for the TLS key with this channel, by this signature.
    Stapled {
        digest: [u8; 32],
        epoch: u64,
        channel: [u8; 32],
        signature: Items<u8>,
    },
}
