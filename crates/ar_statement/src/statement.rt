ghost use Rattle.std.specs.Prelude.{◌≡◌};
ghost use Rattle.ar_statement.specs.Claims.{claim_of, confirmation_by};
ghost use Rattle.ar_statement.specs.Ranges.{is_readable};

use crate::fields::is_epoch;
use crate::party::{Party, Role};
use crate::text::Text;
use ar_bytes::u32_of;
use ar_names::NameView;
use std::fmt;
use vote_quorum::Value;

/// The most bytes that the text of a statement has.
pub const TEXT_LEN: usize = 330;

/// What a party signs. Digests have 32 bytes, and epochs are from 1 to 2^63.
///
/// It is shown by its text.
#[derive(Drop)]
pub enum Statement<'a> {
    /// The authority vouches for the certificate with this digest.
    Endorse {
        authority: u16,
        certificate: [u8; 32],
    },
    /// The owner whose key the certificate with this digest replaces agrees to it.
    Handover {
        certificate: [u8; 32],
    },
    /// The log proposes to go in this epoch from the table with the root `base` to that with `root`.
    Propose {
        log: u16,
        epoch: u64,
        base: [u8; 32],
        root: [u8; 32],
    },
    /// The log votes for this.
    Vote {
        log: u16,
        epoch: u64,
        /// The root of the table in which the epoch begins, before anything ripens in it.
        base: [u8; 32],
        /// The root of the table that the epoch is to end with.
        root: [u8; 32],
    },
    /// At the end of the epoch the name has the certificate with this digest, in the table with this
    /// root. The signer is a log or an authority.
    Confirm {
        signer: Party,
        epoch: u64,
        name: NameView<'a>,
        certificate: [u8; 32],
        root: [u8; 32],
    },
    /// At the end of the epoch the name has no certificate in the table with this root. The signer is a
    /// log or an authority.
    ConfirmAbsent {
        signer: Party,
        epoch: u64,
        name: NameView<'a>,
        root: [u8; 32],
    },
    /// The owner of the name has the key of the certificate with this digest, and answers the challenge.
    Answer {
        name: NameView<'a>,
        certificate: [u8; 32],
        /// The 32 bytes that the client sent, new for each connection.
        challenge: [u8; 32],
    },
    /// What the log did in the epoch: it voted for a base and a root, or for nothing, and will not.
    Status {
        log: u16,
        epoch: u64,
        /// The base and the root; `None` where it voted for nothing.
        value: Option<Value>,
    },
    /// The log's or authority's key behind that of this generation: the text of an LMS public key
    /// (RFC 8554, section 5.3).
    Roll {
        signer: Party,
        /// The generation of the key that signs, from 0.
        generation: u32,
        /// The next key: u32 LMS type, u32 LM-OTS type, I and T[1].
        key: [u8; 56],
    },
    /// The owner whose key the certificate with this digest would replace objects to it.
    Object {
        certificate: [u8; 32],
    },
}

impl fmt::Debug for Statement<'_> {
    fn fmt<W: fmt::Write>(&self, f: &mut fmt::Formatter<W>) -> fmt::Result {
        Text::of(self).fmt(f)
    }
}

impl Statement<'_> {
    ghost use Rattle.std.specs.Prelude.{◌≡◌};
    ghost use Rattle.ar_statement.specs.Claims.{claim_of, signer_of};
    ghost use Rattle.ar_statement.specs.Ranges.{is_in_range};

    /// Who signs the statement. An owner's number is 0, since its key names it.
    pub fn signer(&self) -> Party
        ensures { result ≡ signer_of (claim_of self.now) }
    {
        match self {
            Statement::Endorse { authority, .. } => Role::Authority.party(*authority),
            Statement::Handover { .. } | Statement::Answer { .. } | Statement::Object { .. } => {
                Role::Owner.party(0)
            }
            Statement::Propose { log, .. }
            | Statement::Vote { log, .. }
            | Statement::Status { log, .. } => Role::LogServer.party(*log),
            Statement::Confirm { signer, .. }
            | Statement::ConfirmAbsent { signer, .. }
            | Statement::Roll { signer, .. } => *signer,
        }
    }

    /// Whether the fields say what a statement may say.
    pub(crate) fn is_in_range(&self) -> bool
        ensures { result ≡ is_in_range (claim_of self.now) }
    {
        match self {
            Statement::Propose { epoch, .. }
            | Statement::Vote { epoch, .. }
            | Statement::Status { epoch, .. } => is_epoch(*epoch),
            Statement::Confirm { signer, epoch, .. }
            | Statement::ConfirmAbsent { signer, epoch, .. } => {
                signer.role.is_witness() && is_epoch(*epoch)
            }
            Statement::Roll { signer, key, .. } => signer.role.is_witness() && is_readable(key),
            Statement::Endorse { .. }
            | Statement::Handover { .. }
            | Statement::Answer { .. }
            | Statement::Object { .. } => true,
        }
    }
}

/// Whether a key begins with the numbers of an LMS type and of an LM-OTS type.
#[tactic(auto, unfolding(crate::specs::Ranges::is_readable))]
fn is_readable(key: &[u8; 56]) -> bool
    ensures { result ≡ is_readable key.now }
{
    let lms = u32_of(&key[..4]);
    let ots = u32_of(&key[4..8]);
    5 <= lms && lms <= 9 && 1 <= ots && ots <= 4
}

/// A party's confirmation that a name has a certificate with this digest, or none.
pub fn confirmation_statement(
    signer: Party,
    epoch: u64,
    name: NameView<'_>,
    certificate: Option<[u8; 32]>,
    root: [u8; 32],
) -> Statement<'_>
    ensures { claim_of result ≡ confirmation_by signer epoch name.entry certificate root }
{
    match certificate {
        Some(certificate) => Statement::Confirm {
            signer,
            epoch,
            name,
            certificate,
            root,
        },
        None => Statement::ConfirmAbsent {
            signer,
            epoch,
            name,
            root,
        },
    }
}
