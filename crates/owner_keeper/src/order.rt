use crate::{KeptStaple, Permit};
use ar_base::Items;
use ar_cert::Cert;

/// What an owner is asked. Drafts have the numbers of the certificates that it knows, from 1.
#[derive(Debug, Drop)]
pub enum OwnerOrder {
    /// To take a message: its bytes.
    Take(Items<u8>),
    /// To make a certificate a draft, and to ask authorities for it.
    Begin {
        cert: Cert,
        /// The numbers of the authorities, at most 255; a line of a script names at most 8.
        asks: Items<u16>,
    },
    /// To know a certificate that another owner began.
    Know {
        cert: Cert,
    },
    /// To sign the handover to a draft, and to put it to that draft where it is its own.
    Handover {
        draft: u64,
    },
    /// To put a handover that another owner signed to a draft.
    Attach {
        draft: u64,
        /// The bare signature, of less than 65,536 bytes.
        handover: Items<u8>,
    },
    /// To object to a draft.
    Object {
        draft: u64,
    },
    /// To send a draft to all logs.
    Submit {
        draft: u64,
    },
    /// To allow staples for a TLS key, and a draft's certificate.
    Allow(Permit),
    /// To allow them no longer.
    Disallow(Permit),
    /// To sign the staple of the epoch of a confirmation, for a TLS key that is allowed.
    Staple {
        permit: Permit,
        /// The message, by which the draft's certificate is the newest of its name.
        confirmation: Items<u8>,
    },
    /// To sign a staple that the journal has.
    Restaple(KeptStaple),
    /// To tell how many leaves are left.
    Leaves,
}
