ghost use Rattle.std.specs.Prelude.{◌≡◌};

use std::fmt;
use thiserror::Error;

/// The clause that a certificate fails, by its number from 1 to 9, or why an objection is refused, 10 and
/// 11.
#[derive(Clone, Copy, Debug, PartialEq, Eq, Error)]
pub enum PolicyRefusal {
    /// 1: the old certificate, or the one that registers, is revoked.
    Revoked,
    /// 2: the names differ.
    Name,
    /// 3: the serial number is not one more than the old one, or not 0 at a registration.
    Serial,
    /// 4: the previous digest is not the old certificate's, or not 32 zero bytes at a registration.
    Previous,
    /// 5: fewer than three distinct authorities endorse it.
    Endorsers,
    /// 6: fewer distinct authorities that the old policy trusts endorse it than its threshold says.
    Threshold,
    /// 7: the old policy asks for a handover, and there is none.
    Handover,
    /// 8: the new policy is not well formed: its threshold is not 1 to 8, or is more than the number
    /// of authorities that it trusts.
    Policy,
    /// 9: it would be a recovery, and a recovery is pending already.
    Pending,
    /// 10: nothing with the digest of the objection is pending.
    NotPending,
    /// 11: the objection is not valid under the old key.
    Objection,
}

impl PolicyRefusal {
    ghost use Rattle.cert_policy.specs.Refusals.{number_of};

    /// The clause's number, from 1 to 11.
    pub fn number(&self) -> u8
        ensures { result ≡ number_of self.now }
    {
        match self {
            PolicyRefusal::Revoked => 1,
            PolicyRefusal::Name => 2,
            PolicyRefusal::Serial => 3,
            PolicyRefusal::Previous => 4,
            PolicyRefusal::Endorsers => 5,
            PolicyRefusal::Threshold => 6,
            PolicyRefusal::Handover => 7,
            PolicyRefusal::Policy => 8,
            PolicyRefusal::Pending => 9,
            PolicyRefusal::NotPending => 10,
            PolicyRefusal::Objection => 11,
        }
    }

    // The clause, for people.
    fn text(&self) -> &'static str {
        match self {
            PolicyRefusal::Revoked => "the certificate is revoked",
            PolicyRefusal::Name => "the names differ",
            PolicyRefusal::Serial => "the serial number is not the next",
            PolicyRefusal::Previous => "the previous digest is not that of the certificate before",
            PolicyRefusal::Endorsers => "fewer than three authorities endorse it",
            PolicyRefusal::Threshold => "too few authorities that the policy trusts endorse it",
            PolicyRefusal::Handover => "the old key does not hand over",
            PolicyRefusal::Policy => "the new policy is not well formed",
            PolicyRefusal::Pending => "a recovery is pending already",
            PolicyRefusal::NotPending => "nothing like this is pending",
            PolicyRefusal::Objection => "the objection is not valid",
        }
    }
}

impl fmt::Display for PolicyRefusal {
    fn fmt<W: fmt::Write>(&self, f: &mut fmt::Formatter<W>) -> fmt::Result {
        f.write_str(self.text())
    }
}
