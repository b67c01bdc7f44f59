ghost use Rattle.std.specs.Prelude.{◌≡◌};
ghost use Rattle.ar_base.specs.Gives.{GivesUnless};
ghost use Rattle.arpki_c.specs.Following.{IsFollowingUnlessMemory, following_by, following_told, shown_in};
ghost use Rattle.arpki_c.specs.Given.{directory_given};
ghost use Rattle.arpki_c.specs.Told.{asked_by};
ghost use Rattle.arpki_c.specs.declared.pins.PinFault.TheVariants.{Memory};

use crate::answers::CallAnswer;
use crate::followed::Followed;
use crate::keys::{Keys, directory_of};
use crate::pins::{PinFault, book_of, changes_of};
use crate::questions::CallQuestion;
use client_rule::{ConfView, Judgement};
use party_keys::Directory;
use std::alloc::Global;

/// What the bytes of a confirmation show, whether or not it is accepted.
fn shown(confirmation: &[u8]) -> Judgement<'_>
    ensures { result ≡ shown_in confirmation.now }
{
    let Some(view) = ConfView::read(confirmation) else {
        return Judgement::Refused(1);
    };
    let (epoch, root) = (view.epoch(), view.root());
    let Some(certificate) = view.cert() else {
        return Judgement::Absent { epoch, root };
    };
    Judgement::Accepted {
        digest: certificate.digest(),
        certificate,
        epoch,
        root,
    }
}

/// What is told of a confirmation, a pin and links by who trusts a directory, or what is wrong with these two.
fn following_by(
    alloc: Global,
    directory: &Directory,
    question: &CallQuestion,
    pin: &[u8],
    links: &[u8],
) -> Result<Followed, PinFault>
    ensures { GivesUnless Memory (λ told. told) result
        (following_by (asked_by directory.now question.now) question.now.confirmation.now pin.now
        links.now) }
{
    let mut book = book_of(alloc, question.name, pin)?;
    let changes = changes_of(alloc, links, PinFault::Links)?;
    let pinned = book.judge(
        alloc,
        directory,
        question.name,
        question.confirmation,
        &changes,
        question.epoch,
        question.age,
    )?;
    Ok(Followed::of_pinned(pinned, &shown(question.confirmation)))
}

/// What is told of a confirmation, a pin and links.
fn following_told(
    alloc: Global,
    keys: &Keys,
    question: &CallQuestion,
    pin: &[u8],
    links: &[u8],
) -> Followed
    ensures { IsFollowingUnlessMemory result
        (following_told (directory_given keys.now) question.now pin.now links.now) }
{
    let directory = match directory_of(alloc, keys) {
        Ok(directory) => directory,
        Err(fault) => return Followed::keeping_nothing(CallAnswer::of_fault(fault), 0),
    };
    match following_by(alloc, &directory, question, pin, links) {
        Ok(told) => told,
        Err(fault) => Followed::of_fault(fault),
    }
}

/// Judges the bytes of a confirmation as `arpki_judge` does, and then by what is pinned of its name and by the links that
/// lead from there to the certificate that it shows: writes what is told, all of it, and returns the outcome. A pin and
/// links are texts of changes, one behind the other; no bytes are no pin, and no links.
#[unsafe(no_mangle)]
pub extern "C" fn arpki_follow(
    alloc: Global,
    keys: &Keys,
    question: &CallQuestion,
    pin: &[u8],
    links: &[u8],
    followed: &mut Followed,
) -> u32
    ensures told { IsFollowingUnlessMemory followed.new
        (following_told (directory_given keys.now) question.now pin.now links.now) }
    ensures outcome { result ≡ followed.new.answer.outcome }
{
    *followed = following_told(alloc, keys, question, pin, links);
    followed.answer.outcome
}
