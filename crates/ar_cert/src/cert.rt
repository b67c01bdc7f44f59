ghost use Rattle.std.specs.Prelude.{◌≡◌, ◌++◌, OnOk, OnErr, IfOk};

use ar_base::Items;
use ar_bytes::are_bytes;
use ar_names::Name;
use lms_tree::LmsPublic;
use std::marker::Model;

/// The rules that a domain sets for its clients and for its next certificate.
#[derive(Debug, Drop)]
pub struct Policy {
    /// How many trusted authorities have to endorse the next certificate.
    pub threshold: u8,
    /// Whether the next certificate needs a handover by this one's key.
    pub keyed: bool,
    /// How many epochs old a confirmation may be.
    pub max_age: u32,
    /// The last epoch in which clients accept the certificate.
    pub until: u64,
    /// The numbers of the trusted authorities: at most 16, which ascend strictly.
    pub trusted: Items<u16>,
    /// How many epochs a recovery waits, 1 to 10,000; `None` where the domain has no recovery.
    pub wait: Option<u16>,
}

// Clauses see the terms.
impl Model for Policy {
    ghost use Rattle.std.specs.Prelude.{◌≤◌, length, IfSome};
    ghost use Rattle.cert_policy.specs.Terms.{PolicyTerms};
    ghost use Rattle.ar_bytes.specs.Ascending.{AreNumbers};
    ghost use Rattle.ar_cert.specs.Certificate.{IsWait};

    ghost Value = { PolicyTerms };

    ghost view = { λ p. record {
      threshold = p.threshold;
      keyed = p.keyed;
      max_age = p.max_age;
      until = p.until;
      trusted = p.trusted;
      wait = p.wait;
    } };

    ghost invariant = { λ p. (length p.trusted ≤ 16) × AreNumbers p.trusted
        × IfSome p.wait IsWait };
}

impl Policy {
    ghost use Rattle.ar_cert.specs.Certificate.{AreTerms};

    /// That each of the terms is in its range.
    pub fn told(&self)
        ensures { AreTerms self.now }
    {
        let _threshold = self.threshold;
        let _max_age = self.max_age;
        let _until = self.until;
    }
}

/// The certificate of a domain.
#[derive(Debug, Drop)]
pub struct Cert {
    /// The name of the domain; in the text behind its length in one byte.
    pub name: Name,
    /// How many certificates the domain had before.
    pub serial: u64,
    /// The digest of the certificate before this one; 32 zero bytes in the first.
    pub previous: [u8; 32],
    /// The key of the domain.
    pub subject: LmsPublic,
    /// What the next certificate needs, and what clients ask of a confirmation.
    pub policy: Policy,
    /// Whether the domain takes no further certificates.
    pub revoked: bool,
}

// Clauses see what the certificate says.
impl Model for Cert {
    ghost use Rattle.ar_cert.specs.Certificate.{Certificate};

    ghost Value = { Certificate };

    ghost view = { λ c. record {
      name = c.name;
      serial = c.serial;
      previous = c.previous;
      subject = c.subject;
      policy = c.policy;
      revoked = c.revoked;
    } };
}

impl Cert {
    ghost use Rattle.ar_cert.specs.Certificate.{IsCertificate};

    /// That each field is in its range.
    pub fn told(&self)
        ensures { IsCertificate self.now }
    {
        let _name = self.name.text();
        let _serial = self.serial;
        are_bytes(&self.previous);
        are_bytes(&self.subject.id);
        are_bytes(&self.subject.root);
        self.policy.told();
    }
}
