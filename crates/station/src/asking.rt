//! What the check of owners answered in an authority's step.

ghost use Rattle.std.specs.Prelude.{◌≡◌};
ghost use Rattle.station.specs.Station.{answered_by, asks_to_endorse, note_by};

use authority_core::AuthorityRefusal;
use owner_check::Outcome;

/// Whether bytes, where they are a message, ask for an endorsement.
fn asks_to_endorse(bytes: &[u8]) -> bool
    ensures { result ≡ asks_to_endorse bytes.now }
{
    match bytes {
        [] => false,
        [kind, ..] => *kind == 1,
    }
}

/// What the check answered, where bytes that ask for an endorsement led to this answer.
fn answered_by<T>(answer: &Result<T, AuthorityRefusal>) -> Option<Outcome>
    ensures { result ≡ answered_by answer.now }
{
    match answer {
        Ok(_) => Some(Outcome::Yes),
        Err(AuthorityRefusal::Form(_) | AuthorityRefusal::NotForAuthority) => None,
        Err(AuthorityRefusal::NotOwner) => Some(Outcome::No),
        Err(AuthorityRefusal::CheckFault) => Some(Outcome::Failed),
        Err(_) => Some(Outcome::Yes),
    }
}

/// What the check answered where it was asked, by the bytes of the message and the answer to it. That is `None` where the check
/// was not asked.
pub(crate) fn note_by<T>(bytes: &[u8], answer: &Result<T, AuthorityRefusal>) -> Option<Outcome>
    ensures { result ≡ note_by bytes.now answer.now }
{
    if asks_to_endorse(bytes) {
        answered_by(answer)
    } else {
        None
    }
}
