ghost use Rattle.std.specs.Prelude.{◌≡◌};

use crate::cert::{Cert, Policy};
use crate::copies::numbers_of;
use crate::fields::{take_key, trusted, version, wait};
use crate::writing::{DIGEST_TAG, TAG};
use ar_base::Items;
use ar_bytes::{Fields, are_bytes};
use ar_names::NameView;
use ar_statement::fields::{digest, name};
use lms_tree::LmsPublic;
use sha2::{Digest, Sha256};
use std::alloc::{AllocError, Global};
use std::marker::Model;

/// The terms of a certificate that is read in place.
#[derive(Clone, Copy, Debug)]
pub(crate) struct TermsView<'a> {
    threshold: u8,
    keyed: bool,
    max_age: u32,
    until: u64,
    trusted: &'a [u8],
    wait: Option<u16>,
}

/// The fields of a certificate that is read in place.
#[derive(Clone, Copy, Debug)]
pub(crate) struct FieldsView<'a> {
    name: &'a [u8],
    serial: u64,
    previous: [u8; 32],
    subject: LmsPublic,
    terms: TermsView<'a>,
    revoked: bool,
}

/// A certificate that is read in place: its text, its name and its list of trusted authorities are
/// borrowed from the bytes that it was read from.
#[derive(Debug, Drop)]
pub struct CertView<'a> {
    text: &'a [u8],
    fields: FieldsView<'a>,
}

// Clauses see what the certificate says.
impl<'a> Model for CertView<'a> {
    ghost use Rattle.ar_cert.specs.Certificate.{Certificate};

    ghost Value = { Certificate };

    ghost use Rattle.ar_cert.specs.Views.{certificate_of, IsCertView};

    ghost view = { λ v. certificate_of v.fields };

    ghost invariant = { IsCertView };
}

impl<'a> TermsView<'a> {
    ghost use Rattle.std.specs.Prelude.{IfOk};
    ghost use Rattle.ar_bytes.specs.Reading.{Tells};
    ghost use Rattle.ar_cert.specs.Certificate.{terms_at};
    ghost use Rattle.ar_cert.specs.Views.{terms_of};
    ghost use Rattle.ar_cert.specs.Lists.{SpellsNumbers};

    /// The terms that stand next.
    #[tactic(auto, unfolding(crate::specs::Certificate::terms_at))]
    fn take(fields: &mut Fields<'a>) -> Result<TermsView<'a>, usize>
        ensures tells { Tells terms_of result fields.new (terms_at fields.old) }
        ensures trusted { IfOk result (λ terms. SpellsNumbers terms.trusted.now) }
    {
        let waits = version(fields)?;
        let threshold = fields.take_u8()?;
        let keyed = fields.take_flag()?;
        let max_age = fields.take_u32()?;
        let until = fields.take_u64()?;
        let trusted = trusted(fields)?;
        let wait = wait(fields, waits)?;
        Ok(TermsView {
            threshold,
            keyed,
            max_age,
            until,
            trusted,
            wait,
        })
    }
}

impl<'a> FieldsView<'a> {
    ghost use Rattle.std.specs.Prelude.{IfOk};
    ghost use Rattle.ar_bytes.specs.Reading.{Tells};
    ghost use Rattle.ar_cert.specs.Certificate.{certificate_at};
    ghost use Rattle.ar_cert.specs.Views.{certificate_of};
    ghost use Rattle.ar_cert.specs.Lists.{SpellsNumbers};

    /// The fields that stand next.
    #[tactic(auto, unfolding(crate::specs::Certificate::certificate_at))]
    fn take(fields: &mut Fields<'a>) -> Result<FieldsView<'a>, usize>
        ensures tells { Tells certificate_of result fields.new (certificate_at fields.old) }
        ensures trusted { IfOk result (λ fields. SpellsNumbers fields.terms.trusted.now) }
    {
        fields.take_byte(TAG)?;
        let name = name(fields)?.text();
        let serial = fields.take_u64()?;
        let previous = digest(fields)?;
        let subject = take_key(fields)?;
        let terms = TermsView::take(fields)?;
        let revoked = fields.take_flag()?;
        Ok(FieldsView {
            name,
            serial,
            previous,
            subject,
            terms,
            revoked,
        })
    }
}

impl<'a> CertView<'a> {
    ghost use Rattle.std.specs.Prelude.{◌≡◌, IfOk};
    ghost use Rattle.std.specs.Result.{result_ok};
    ghost use Rattle.ar_bytes.specs.Reading.{Tells, whole};
    ghost use Rattle.ar_bytes.specs.Ascending.{numbers_text};
    ghost use Rattle.ar_cert.specs.Views.{filling_at};
    ghost use Rattle.ar_cert.specs.Certificate.{IsCertificate, certificate_at, certificate_text, counted_certificate_at, digest_of};

    /// The certificate with this text, or `None` exactly where no certificate has it.
    pub fn read(bytes: &'a [u8]) -> Option<CertView<'a>>
        ensures { result ≡ result_ok (whole certificate_at bytes.now) }
    {
        CertView::of(bytes).ok()
    }

    /// The certificate with this text, or the place of the field that fails.
    #[tactic(auto, unfolding(ar_bytes::specs::Reading::whole))]
    pub(crate) fn of(bytes: &'a [u8]) -> Result<CertView<'a>, usize>
        ensures { result ≡ whole certificate_at bytes.now }
    {
        CertView::fill(&mut Fields::new(bytes))
    }

    // The certificate whose text is all that is left, or the place of the field that fails.
    fn fill(fields: &mut Fields<'a>) -> Result<CertView<'a>, usize>
        ensures { result ≡ filling_at fields.old }
    {
        let text = fields.left();
        are_bytes(text);
        let view = FieldsView::take(fields)?;
        fields.take_end()?;
        Ok(CertView { text, fields: view })
    }

    /// The certificate that stands next behind the number of its bytes, which it fills, or the place in
    /// the whole input of the field that fails. After a fault the reader is of no further use.
    #[tactic(auto, unfolding(crate::specs::Certificate::counted_certificate_at, ar_bytes::specs::Reading::within, ar_bytes::specs::Reading::counted_part_at))]
    pub fn take_counted(fields: &mut Fields<'a>) -> Result<CertView<'a>, usize>
        ensures { Tells (λ view. view) result fields.new (counted_certificate_at fields.old) }
    {
        CertView::fill(&mut fields.take_part()?)
    }

    /// That what is viewed is a certificate: each field is in its range.
    pub fn told(&self)
        ensures { IsCertificate self.now }
    {
        let _text = &self.text;
    }

    /// The same view once more.
    pub fn copy(&self) -> CertView<'a>
        ensures { result ≡ self.now }
    {
        CertView {
            text: self.text,
            fields: self.fields,
        }
    }

    /// The text of the certificate, as it stands in the bytes that it was read from.
    pub fn text(&self) -> &'a [u8]
        ensures { result.now ≡ certificate_text self.now }
    {
        self.text
    }

    /// The name of the domain.
    pub fn name(&self) -> &'a [u8]
        ensures { result.now ≡ self.now.name }
    {
        self.fields.name
    }

    /// How many certificates the domain had before.
    pub fn serial(&self) -> u64
        ensures { result ≡ self.now.serial }
    {
        self.fields.serial
    }

    /// The digest of the certificate before this one.
    pub fn previous(&self) -> [u8; 32]
        ensures { result ≡ self.now.previous }
    {
        self.fields.previous
    }

    /// The key of the domain.
    pub fn subject(&self) -> LmsPublic
        ensures { result ≡ self.now.subject }
    {
        self.fields.subject
    }

    /// How many trusted authorities have to endorse the next certificate.
    pub fn threshold(&self) -> u8
        ensures { result ≡ self.now.policy.threshold }
    {
        self.fields.terms.threshold
    }

    /// Whether the next certificate needs a handover by this one's key.
    pub fn keyed(&self) -> bool
        ensures { result ≡ self.now.policy.keyed }
    {
        self.fields.terms.keyed
    }

    /// How many epochs old a confirmation of this certificate may be.
    pub fn max_age(&self) -> u32
        ensures { result ≡ self.now.policy.max_age }
    {
        self.fields.terms.max_age
    }

    /// The last epoch in which clients accept this certificate.
    pub fn until(&self) -> u64
        ensures { result ≡ self.now.policy.until }
    {
        self.fields.terms.until
    }

    /// The numbers of the trusted authorities, two bytes for each, the highest first.
    pub fn trusted(&self) -> &'a [u8]
        ensures { result.now ≡ numbers_text self.now.policy.trusted }
    {
        self.fields.terms.trusted
    }

    /// How many epochs a recovery waits, or `None` exactly where the policy has version 1.
    pub fn wait(&self) -> Option<u16>
        ensures { result ≡ self.now.policy.wait }
    {
        self.fields.terms.wait
    }

    /// Whether the domain takes no further certificates.
    pub fn revoked(&self) -> bool
        ensures { result ≡ self.now.revoked }
    {
        self.fields.revoked
    }

    /// SHA-256 (FIPS 180-4) of the byte 0x10 and the certificate's text.
    #[tactic(auto, unfolding(crate::specs::Certificate::digest_of))]
    pub fn digest(&self) -> [u8; 32]
        ensures { result ≡ digest_of self.now }
    {
        let mut hasher = Sha256::new();
        hasher.update(&[DIGEST_TAG]);
        hasher.update(self.text);
        hasher.finalize()
    }

    /// The certificate as a value of its own. The one error is want of memory.
    pub fn to_cert(&self, alloc: Global) -> Result<Cert, AllocError>
        ensures { IfOk result (λ cert. cert ≡ self.now) }
    {
        let fields = &self.fields;
        let terms = &fields.terms;
        let name = NameView::from_name(fields.name).to_name(alloc)?;
        let trusted = numbers_of(alloc, terms.trusted)?;
        Ok(Cert {
            name,
            serial: fields.serial,
            previous: fields.previous,
            subject: fields.subject,
            policy: Policy {
                threshold: terms.threshold,
                keyed: terms.keyed,
                max_age: terms.max_age,
                until: terms.until,
                trusted: Items::from_vec(trusted),
                wait: terms.wait,
            },
            revoked: fields.revoked,
        })
    }
}
