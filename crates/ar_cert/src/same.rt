//! Whether two changes are the same.

ghost use Rattle.std.specs.Prelude.{◌≡◌};
ghost use Rattle.std.specs.Str.{bytes_eq};
ghost use Rattle.ar_cert.specs.Changes.{change_text};
ghost use Rattle.ar_cert.specs.Same.{are_same_endorsements, has_same_consents, is_same_change, is_same_endorsement, is_same_signature};

use crate::change::{Change, Endorsement};
use ar_base::Items;

/// Whether both are by one authority, with one signature.
fn is_same_endorsement(one: &Endorsement, other: &Endorsement) -> bool
    ensures { result ≡ is_same_endorsement one.now other.now }
{
    one.authority == other.authority && one.signature.as_slice() == other.signature.as_slice()
}

/// Whether both are the same endorsements in the same order.
fn are_same_endorsements(one: &[Endorsement], other: &[Endorsement]) -> bool
    ensures { result ≡ are_same_endorsements one.now other.now }
{
    match one {
        [] => other.is_empty(),
        [endorsement, rest @ ..] => match other {
            [] => false,
            [other_endorsement, others @ ..] => {
                is_same_endorsement(endorsement, other_endorsement)
                    && are_same_endorsements(rest, others)
            }
        },
    }
}

/// Whether both are one signature, or none.
fn is_same_signature(one: &Option<Items<u8>>, other: &Option<Items<u8>>) -> bool
    ensures { result ≡ is_same_signature one.now other.now }
{
    match one {
        None => other.is_none(),
        Some(signature) => match other {
            None => false,
            Some(other_signature) => signature.as_slice() == other_signature.as_slice(),
        },
    }
}

/// Whether both are the same behind their certificates.
fn has_same_consents(one: &Change, other: &Change) -> bool
    ensures { result ≡ has_same_consents one.now other.now }
{
    are_same_endorsements(one.endorsements.as_slice(), other.endorsements.as_slice())
        && is_same_signature(&one.handover, &other.handover)
        && is_same_signature(&one.objection, &other.objection)
}

/// Whether both are the same in each part. Certificates are compared where they have one name.
fn is_same_change(one: &Change, other: &Change) -> bool
    ensures { result ≡ is_same_change one.now other.now }
{
    one.cert.name.text() == other.cert.name.text()
        && one.cert.has_text_of(&other.cert)
        && has_same_consents(one, other)
}

impl Change {
    /// Whether both are the same, with the same signatures, which is where they have one text. It takes no memory: the
    /// signatures are compared where they stand.
    #[tactic(auto, using(crate::proofs::SameChange::same_change))]
    pub fn is_same(&self, other: &Change) -> bool
        ensures { result ≡ bytes_eq (change_text self.now) (change_text other.now) }
    {
        self.told();
        other.told();
        is_same_change(self, other)
    }
}
