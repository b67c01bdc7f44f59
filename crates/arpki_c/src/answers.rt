ghost use Rattle.std.specs.Prelude.{◌≡◌};
ghost use Rattle.arpki_c.specs.Told.{absent_answer, accepted_answer, connection_answer, fault_answer, judgement_answer, said};

use crate::keys::KeysFault;
use ar_cert::CertView;
use client_rule::Judgement;
use possession::Connection;

/// The certificate is accepted; of a server, that it has the key too.
const ACCEPTED: u32 = 0;
/// The name has no certificate.
const ABSENT: u32 = 1;
/// The confirmation is refused; `check` is the number of the first check that fails, 1 to 11.
pub(crate) const REFUSED: u32 = 2;
/// Memory ran out.
pub(crate) const NO_MEMORY: u32 = 3;
/// The keys make no directory; `check` says what is wrong with them, 1 to 6.
const BAD_KEYS: u32 = 4;
/// The server's answer is not valid; `check` is the number of the first condition of a signature that fails, 1 to 5.
const NO_POSSESSION: u32 = 5;

/// What is told of a confirmation or of a server. What an outcome does not speak of is zero.
#[repr(C)]
#[derive(Clone, Copy, PartialEq, Eq)]
pub struct CallAnswer {
    /// The epoch at whose end the name has the certificate, or none.
    pub epoch: u64,
    /// The serial number of the certificate.
    pub serial: u64,
    /// The text of its subject key.
    pub subject: [u8; 56],
    /// Its digest.
    pub certificate: [u8; 32],
    /// The root of the table of the epoch.
    pub root: [u8; 32],
    /// 0 accepted, 1 absent, 2 refused, 3 no memory, 4 bad keys, 5 no possession.
    pub outcome: u32,
    /// The number of what fails; 0 where nothing does.
    pub check: u32,
}

impl CallAnswer {
    /// An outcome with a number, and nothing else.
    pub(crate) fn said(outcome: u32, check: u32) -> CallAnswer
        ensures { result ≡ said outcome check }
    {
        CallAnswer {
            epoch: 0,
            serial: 0,
            subject: [0; 56],
            certificate: [0; 32],
            root: [0; 32],
            outcome,
            check,
        }
    }

    /// A certificate that is accepted.
    fn accepted(certificate: &CertView, digest: [u8; 32], epoch: u64, root: [u8; 32]) -> CallAnswer
        ensures { result ≡ accepted_answer certificate.now digest epoch root }
    {
        CallAnswer {
            epoch,
            serial: certificate.serial(),
            subject: certificate.subject().bytes(),
            certificate: digest,
            root,
            outcome: ACCEPTED,
            check: 0,
        }
    }

    /// That the name has none.
    fn absent(epoch: u64, root: [u8; 32]) -> CallAnswer
        ensures { result ≡ absent_answer epoch root }
    {
        CallAnswer {
            epoch,
            root,
            ..CallAnswer::said(ABSENT, 0)
        }
    }

    /// What is told of a judgement.
    pub(crate) fn of_judgement(judgement: &Judgement) -> CallAnswer
        ensures { result ≡ judgement_answer judgement.now }
    {
        match judgement {
            Judgement::Accepted {
                certificate,
                digest,
                epoch,
                root,
            } => CallAnswer::accepted(certificate, *digest, *epoch, *root),
            Judgement::Absent { epoch, root } => CallAnswer::absent(*epoch, *root),
            Judgement::Refused(check) => CallAnswer::said(REFUSED, u32::from(*check)),
        }
    }

    /// What is told of a connection.
    pub(crate) fn of_connection(connection: &Connection) -> CallAnswer
        ensures { result ≡ connection_answer connection.now }
    {
        match connection {
            Connection::Open {
                certificate,
                digest,
                epoch,
                root,
            } => CallAnswer::accepted(certificate, *digest, *epoch, *root),
            Connection::Absent { epoch, root } => CallAnswer::absent(*epoch, *root),
            Connection::Refused(check) => CallAnswer::said(REFUSED, u32::from(*check)),
            Connection::NoPossession(condition) => {
                CallAnswer::said(NO_POSSESSION, u32::from(*condition))
            }
        }
    }

    /// What is told of keys that make no directory.
    pub(crate) fn of_fault(fault: KeysFault) -> CallAnswer
        ensures { result ≡ fault_answer fault }
    {
        match fault {
            KeysFault::Memory => CallAnswer::said(NO_MEMORY, 0),
            _ => CallAnswer::said(BAD_KEYS, fault.number()),
        }
    }
}
