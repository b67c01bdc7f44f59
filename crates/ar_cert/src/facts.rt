ghost use Rattle.std.specs.Prelude.{◌≡◌};
ghost use Rattle.cert_policy.specs.Terms.{cert_terms};
ghost use Rattle.ar_cert.specs.Judging.{cert_terms_of};

use crate::cert::Cert;
use cert_policy::{Facts, PolicyFacts};

impl Cert {
    /// What the policy rule reads of the certificate, with its digest. It takes no memory.
    pub fn facts(&self) -> Facts<'_>
        ensures { cert_terms result ≡ cert_terms_of self.now }
    {
        let policy = &self.policy;
        Facts {
            name: self.name.text(),
            serial: self.serial,
            previous: self.previous,
            digest: self.digest(),
            revoked: self.revoked,
            policy: PolicyFacts {
                threshold: policy.threshold,
                keyed: policy.keyed,
                max_age: policy.max_age,
                until: policy.until,
                trusted: policy.trusted.as_slice(),
                wait: policy.wait,
            },
        }
    }
}
