ghost use Rattle.std.specs.Prelude.{◌≡◌};
ghost use Rattle.possession.specs.Answering.{answer_text};
ghost use Rattle.possession.specs.Connections.{connection_of, epoch_in, stapled_connection_of};

use ar_cert::CertView;
use ar_names::NameView;
use ar_statement::{Statement, Text};
use bound_challenge::staple_challenge;
use client_rule::{ConfView, Judgement, judge};
use lms_tree::{Verdict, valid};
use party_keys::Directory;

/// What a client makes of a server.
#[derive(Debug, Drop)]
pub enum Connection<'a> {
    /// The server has the key of the name's certificate, which has this digest and stands in the table with this
    /// root at the end of the epoch.
    Open {
        certificate: CertView<'a>,
        digest: [u8; 32],
        epoch: u64,
        root: [u8; 32],
    },
    /// The name has no certificate at the end of the epoch, in the table with this root.
    Absent {
        epoch: u64,
        root: [u8; 32],
    },
    /// The confirmation is refused: the number of the first check of the client's rule that fails.
    Refused(u8),
    /// The confirmation is accepted, and the answer is not valid under the certificate's key: the number of the
    /// first condition of a signature that does not hold.
    NoPossession(u8),
}

/// The text of the answer to a challenge.
#[tactic(auto, unfolding(crate::specs::Answering::answer_text))]
pub(crate) fn answer_text(name: NameView, certificate: &[u8; 32], challenge: &[u8; 32]) -> Text
    ensures { result ≡ answer_text name.entry certificate.now challenge.now }
{
    Text::of(&Statement::Answer {
        name,
        certificate: *certificate,
        challenge: *challenge,
    })
}

/// Judges a server that claims to serve a name: the confirmation that it shows, as `client_rule::judge` does, and
/// then its answer to the challenge, under the subject key of the certificate that is accepted. It takes no memory.
///
/// A challenge is to be new for each connection. An answer to another one is no answer.
#[tactic(auto, using(crate::proofs::Owned::name_of_accepted), unfolding(crate::specs::Connections::connected))]
pub fn connect<'a>(
    directory: &Directory,
    name: &[u8],
    confirmation: &'a [u8],
    now: u64,
    age: u64,
    challenge: &[u8; 32],
    answer: &[u8],
) -> Connection<'a>
    ensures { result ≡ connection_of (record {
      keys = directory.now;
      name = name.now;
      epoch = now;
      age = age;
    }) confirmation.now challenge.now answer.now }
{
    match judge(directory, name, confirmation, now, age) {
        Judgement::Accepted {
            certificate,
            digest,
            epoch,
            root,
        } => {
            certificate.told();
            let text = answer_text(NameView::from_name(certificate.name()), &digest, challenge);
            match valid(&certificate.subject(), text.as_bytes(), answer) {
                Verdict::Valid => Connection::Open {
                    certificate,
                    digest,
                    epoch,
                    root,
                },
                Verdict::Invalid(condition) => Connection::NoPossession(condition),
            }
        }
        Judgement::Absent { epoch, root } => Connection::Absent { epoch, root },
        Judgement::Refused(check) => Connection::Refused(check),
    }
}

/// The epoch of a confirmation, 0 where the bytes are none.
fn epoch_in(confirmation: &[u8]) -> u64
    ensures { result ≡ epoch_in confirmation.now }
{
    match ConfView::read(confirmation) {
        Some(view) => view.epoch(),
        None => 0,
    }
}

/// Judges a server that shows a confirmation of a name and a staple: what `connect` does, where the answer is to be the one to
/// the challenge of the confirmation's epoch and of the TLS key of this connection. It takes no memory.
///
/// The channel is SHA-256 of the SubjectPublicKeyInfo of the TLS key that the server of this connection has shown, and not one that
/// the server told. One staple serves all connections to that key in that epoch, so there is no challenge to make: how old it may
/// be is how old the confirmation may be. A staple for another TLS key, or of another epoch, is `NoPossession`.
pub fn connect_stapled<'a>(
    directory: &Directory,
    name: &[u8],
    confirmation: &'a [u8],
    now: u64,
    age: u64,
    channel: &[u8; 32],
    staple: &[u8],
) -> Connection<'a>
    ensures { result ≡ stapled_connection_of (record {
      keys = directory.now;
      name = name.now;
      epoch = now;
      age = age;
    }) confirmation.now channel.now staple.now }
{
    let challenge = staple_challenge(epoch_in(confirmation), channel);
    connect(directory, name, confirmation, now, age, &challenge, staple)
}
