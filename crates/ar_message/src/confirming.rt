//! The three kinds of messages that bring a confirmation to its client, read from the fields behind the number of
//! the kind.

ghost use Rattle.std.specs.Prelude.{◌≡◌, List, IfOk};
ghost use Rattle.ar_cert.specs.Changes.{IsSignature};
ghost use Rattle.ar_names.specs.Names.{IsName};
ghost use Rattle.ar_message.specs.Answers.{Fills, Finds};
ghost use Rattle.ar_message.specs.Confirmation.{AreSteps};
ghost use Rattle.ar_message.specs.Messages.{body_with, confirming_at, half_confirmed_at, log_confirmed_at, whole_confirmation_at};
ghost use Rattle.ar_message.specs.Views.{body_of, confirming_of};
ghost use Rattle.ar_message.specs.declared.lists.Vote.{Vote};

use crate::fields::{BodyView, SignedView, SubjectView, body, form, path, signed, subject};
use crate::take_lists::take_votes;
use crate::{Body, ConfView, Confirming, Message, MessageFault, PathSteps, Signature, Votes};
use ar_bytes::Fields;
use ar_names::NameView;
use ar_statement::fields::digest;
use std::alloc::{AllocError, Global};

/// What a confirmation on its way says beside the votes, in place.
#[derive(Debug, Drop)]
pub(crate) struct ConfirmingView<'a> {
    about: SubjectView<'a>,
    base: [u8; 32],
    shown: BodyView<'a>,
    path: &'a [u8],
    log: SignedView<'a>,
    first: u16,
    second: u16,
}

/// What the table has for the name, as a value of its own.
pub(crate) fn owned_body(alloc: Global, shown: &BodyView, path: &[u8]) -> Result<Body, AllocError>
    requires { AreSteps path.now }
    ensures { IfOk result (λ body. body ≡ body_with (body_of shown.now) path.now) }
{
    let path = PathSteps::of(alloc, path)?;
    match shown {
        BodyView::Present(certificate) => {
            let cert = certificate.to_cert(alloc)?;
            Ok(Body::Present { cert, path })
        }
        BodyView::Absent(bottom) => Ok(Body::Absent {
            bottom: *bottom,
            path,
        }),
    }
}

/// A value of its own, with the votes, unless memory was wanting for these.
fn with_votes(
    alloc: Global,
    view: &ConfirmingView,
    votes: Result<Votes, AllocError>,
) -> Result<Confirming, AllocError>
    requires name { IsName view.now.about.name.now }
    requires path { AreSteps view.now.path.now }
    requires signature { IsSignature view.now.log.signature.now }
    ensures { (list : List Vote) → IfOk votes (λ v. v ≡ list)
        → IfOk result (λ part. part ≡ confirming_of view.now list) }
{
    let votes = votes?;
    let name = NameView::from_name(view.about.name).to_name(alloc)?;
    let body = owned_body(alloc, &view.shown, view.path)?;
    let signature = Signature::of(alloc, view.log.signature)?;
    Ok(Confirming {
        client: view.about.client,
        epoch: view.about.epoch,
        name,
        root: view.about.root,
        base: view.base,
        body,
        votes,
        log: view.log.number,
        signature,
        first: view.first,
        second: view.second,
    })
}

/// What two kinds share.
#[tactic(auto, unfolding(crate::specs::Messages::confirming_at))]
fn confirming(alloc: Global, fields: &mut Fields) -> Result<Result<Confirming, AllocError>, usize>
    ensures { Finds (λ part. part) result fields.new (confirming_at fields.old) }
{
    let is_present = form(fields)?;
    let about = subject(fields)?;
    let base = digest(fields)?;
    let shown = body(fields, is_present)?;
    let path = path(fields)?;
    let votes = take_votes(alloc, fields)?;
    let log = signed(fields)?;
    let first = fields.take_u16()?;
    let second = fields.take_u16()?;
    let view = ConfirmingView {
        about,
        base,
        shown,
        path,
        log,
        first,
        second,
    };
    Ok(with_votes(alloc, &view, votes))
}

#[tactic(auto, unfolding(crate::specs::Messages::log_confirmed_at))]
pub(crate) fn log_confirmed(alloc: Global, fields: &mut Fields) -> Result<Message, MessageFault>
    ensures { Fills result log_confirmed_at fields.old }
{
    let part = confirming(alloc, fields)?;
    fields.take_end()?;
    let part = part?;
    Ok(Message::LogConfirmed { part })
}

#[tactic(auto, unfolding(crate::specs::Messages::half_confirmed_at))]
pub(crate) fn half_confirmed(alloc: Global, fields: &mut Fields) -> Result<Message, MessageFault>
    ensures { Fills result half_confirmed_at fields.old }
{
    let part = confirming(alloc, fields)?;
    let first_signature = fields.take_counted()?;
    fields.take_end()?;
    let part = part?;
    let first_signature = Signature::of(alloc, first_signature)?;
    Ok(Message::HalfConfirmed {
        part,
        first_signature,
    })
}

#[tactic(auto, unfolding(crate::specs::Messages::whole_confirmation_at))]
pub(crate) fn confirmation(alloc: Global, fields: &mut Fields) -> Result<Message, MessageFault>
    ensures { Fills result whole_confirmation_at fields.old }
{
    let view = ConfView::take_fields(fields)?;
    fields.take_end()?;
    let message = view.to_message(alloc)?;
    Ok(message)
}
