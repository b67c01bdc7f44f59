ghost use Rattle.std.specs.Prelude.{◌≡◌};

use crate::confirming::owned_body;
use crate::fields::{BodyView, SignedView, SubjectView, body, form, path, signed, subject};
use crate::{Message, Signature};
use ar_bytes::{Fields, are_bytes};
use ar_cert::CertView;
use ar_names::NameView;
use std::alloc::{AllocError, Global};
use std::marker::Model;
use tree_proof::Bottom;

/// The first byte of a confirmation.
const KIND: u8 = 12;

/// A confirmation that is read in place: its name, its certificate, its path and its signatures are
/// borrowed from the bytes that it was read from.
#[derive(Debug, Drop)]
pub struct ConfView<'a> {
    about: SubjectView<'a>,
    body: BodyView<'a>,
    steps: &'a [u8],
    log: SignedView<'a>,
    first: SignedView<'a>,
    second: SignedView<'a>,
}

// Clauses see what the confirmation says.
impl<'a> Model for ConfView<'a> {
    ghost use Rattle.ar_message.specs.Confirmation.{Confirmation};

    ghost Value = { Confirmation };

    ghost use Rattle.ar_message.specs.Views.{confirmation_of, IsConfView};

    ghost view = { confirmation_of };

    ghost invariant = { IsConfView };
}

impl<'a> ConfView<'a> {
    ghost use Rattle.std.specs.Prelude.{◌≡◌};
    ghost use Rattle.std.specs.Result.{result_ok};
    ghost use Rattle.ar_bytes.specs.Reading.{Tells, whole};
    ghost use Rattle.ar_message.specs.Confirmation.{IsConfirmation, bottom_in, certificate_in, confirmation_at, confirmation_fields_at};
    ghost use Rattle.ar_message.specs.Messages.{with_confirmation};
    ghost use Rattle.ar_message.specs.Views.{body_of};
    ghost use Rattle.ar_names.specs.Names.{IsName};
    ghost use Rattle.std.specs.Prelude.{IfOk};

    /// The confirmation with this text, or `None` exactly where no confirmation has it.
    #[tactic(auto, unfolding(ar_bytes::specs::Reading::whole))]
    pub fn read(bytes: &'a [u8]) -> Option<ConfView<'a>>
        ensures { result ≡ result_ok (whole confirmation_at bytes.now) }
    {
        let mut fields = Fields::new(bytes);
        let view = ConfView::take(&mut fields).ok()?;
        if !fields.at_end() {
            return None;
        }
        Some(view)
    }

    // The confirmation that stands next, or the place of the field that fails.
    #[tactic(auto, unfolding(crate::specs::Confirmation::confirmation_at))]
    fn take(fields: &mut Fields<'a>) -> Result<ConfView<'a>, usize>
        ensures { Tells (λ view. view) result fields.new (confirmation_at fields.old) }
    {
        fields.take_byte(KIND)?;
        ConfView::take_fields(fields)
    }

    // What stands next of a confirmation behind its kind, or the place of the field that fails.
    #[tactic(auto, unfolding(crate::specs::Confirmation::confirmation_fields_at, crate::specs::Confirmation::signers_at))]
    pub(crate) fn take_fields(fields: &mut Fields<'a>) -> Result<ConfView<'a>, usize>
        ensures { Tells (λ view. view) result fields.new (confirmation_fields_at fields.old) }
    {
        are_bytes(fields.left());
        let is_present = form(fields)?;
        let about = subject(fields)?;
        let body = body(fields, is_present)?;
        let steps = path(fields)?;
        let log = signed(fields)?;
        let first = signed(fields)?;
        let second = signed(fields)?;
        Ok(ConfView {
            about,
            body,
            steps,
            log,
            first,
            second,
        })
    }

    /// The confirmation as a message of its own. The one error is want of memory.
    pub(crate) fn to_message(&self, alloc: Global) -> Result<Message, AllocError>
        ensures { IfOk result (λ message. message ≡ with_confirmation self.now) }
    {
        let name = NameView::from_name(self.about.name).to_name(alloc)?;
        let body = owned_body(alloc, &self.body, self.steps)?;
        let log_signature = Signature::of(alloc, self.log.signature)?;
        let first_signature = Signature::of(alloc, self.first.signature)?;
        let second_signature = Signature::of(alloc, self.second.signature)?;
        Ok(Message::Confirmation {
            client: self.about.client,
            epoch: self.about.epoch,
            name,
            root: self.about.root,
            body,
            log: self.log.number,
            log_signature,
            first: self.first.number,
            first_signature,
            second: self.second.number,
            second_signature,
        })
    }

    /// That what is viewed is a confirmation: each field is in its range.
    pub fn told(&self)
        ensures { IsConfirmation self.now }
    {
        let _steps = &self.steps;
    }

    /// The number of the client that asked.
    pub fn client(&self) -> u16
        ensures { result ≡ self.now.about.client }
    {
        self.about.client
    }

    /// The epoch at whose end it holds.
    pub fn epoch(&self) -> u64
        ensures { result ≡ self.now.about.epoch }
    {
        self.about.epoch
    }

    /// The name of the domain.
    pub fn name(&self) -> &'a [u8]
        ensures value { result.now ≡ self.now.about.name }
        ensures name { IsName result.now }
    {
        self.about.name
    }

    /// The root of the table of certificates at the end of the epoch.
    pub fn root(&self) -> [u8; 32]
        ensures { result ≡ self.now.about.root }
    {
        self.about.root
    }

    /// What the table has for the name: its certificate, or what stands at the foot of its path where it has none.
    pub fn body(&self) -> BodyView<'a>
        ensures { body_of result ≡ self.now.body }
    {
        self.body.copy()
    }

    /// The certificate of the name, or `None` exactly where the confirmation is of absence.
    pub fn cert(&self) -> Option<CertView<'a>>
        ensures { result ≡ certificate_in self.now.body }
    {
        match &self.body {
            BodyView::Present(certificate) => Some(certificate.copy()),
            BodyView::Absent(_) => None,
        }
    }

    /// What stands at the foot of the path of a name that has no certificate, or `None` exactly where
    /// the confirmation is of presence.
    pub fn bottom(&self) -> Option<Bottom>
        ensures { result ≡ bottom_in self.now.body }
    {
        match &self.body {
            BodyView::Present(_) => None,
            BodyView::Absent(bottom) => Some(*bottom),
        }
    }

    /// The digests on the way from the name's entry, or from what stands at the foot of its path, to the
    /// root, the deepest first, 32 bytes for each.
    pub fn steps(&self) -> &'a [u8]
        ensures { result.now ≡ self.now.steps }
    {
        self.steps
    }

    /// The number of the log that signed.
    pub fn log(&self) -> u16
        ensures { result ≡ self.now.log.number }
    {
        self.log.number
    }

    /// The number of the first authority.
    pub fn first(&self) -> u16
        ensures { result ≡ self.now.first.number }
    {
        self.first.number
    }

    /// The number of the second authority.
    pub fn second(&self) -> u16
        ensures { result ≡ self.now.second.number }
    {
        self.second.number
    }

    /// The log's signature.
    pub fn log_signature(&self) -> &'a [u8]
        ensures { result.now ≡ self.now.log.signature }
    {
        self.log.signature
    }

    /// The first authority's signature.
    pub fn first_signature(&self) -> &'a [u8]
        ensures { result.now ≡ self.now.first.signature }
    {
        self.first.signature
    }

    /// The second authority's signature.
    pub fn second_signature(&self) -> &'a [u8]
        ensures { result.now ≡ self.now.second.signature }
    {
        self.second.signature
    }
}
