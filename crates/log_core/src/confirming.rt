//! The row of a ConfirmAsk: the log confirms what a name has behind the newest decided epoch.

ghost use Rattle.std.specs.Prelude.{◌≡◌, ◌+◌, ◌≤◌, Err, IfErr, IfOk, Some, flat_map, length};
ghost use Rattle.ar_base.specs.Gives.{GivesUnless};
ghost use Rattle.ar_message.specs.Lists.{AreVotes, vote_text};
ghost use Rattle.ar_message.specs.Messages.{message_text};
ghost use Rattle.ar_message.specs.declared.message.Message.TheVariants.{LogConfirmed};
ghost use Rattle.ar_statement.specs.Claims.{claim_of, text_of};
ghost use Rattle.epoch_log.specs.Calls.{confirmation_text};
ghost use Rattle.log_sending.specs.Checks.{has_decision};
ghost use Rattle.log_core.specs.Confirming.{confirm_row, confirmation_prepared, confirmed_draft, confirmed_places, confirming_of};
ghost use Rattle.log_sending.specs.Sending.{none_composed, sent_votes, with_draft};
ghost use Rattle.log_core.specs.Steps.{IsStep};
ghost use Rattle.log_sending.specs.declared.refusal.LogRefusal.TheVariants as refusals;

use crate::LogRefusal;
use crate::log_core::LogCore;
use ar_message::{Address, Confirming, Signature, Unsigned, log_confirmed_text};
use ar_names::Name;
use ar_statement::{Role, Statement};
use epoch_log::{EpochLog, Newest, confirm_statement, newest_digest};
use key_roll::forgo;
use log_sending::{
    DraftMessages, OwnPlace, Ready, body_in, book_refusal, known, own_votes, sent_votes,
};
use std::alloc::{AllocError, Global};
use std::marker::Model;

/// What a client asks: to confirm a name, by two authorities of the client's choice.
#[derive(Drop)]
struct ConfirmQuestion<'a> {
    client: u16,
    name: &'a Name,
    first: u16,
    second: u16,
}

// Clauses see the name by its text.
impl<'a> Model for ConfirmQuestion<'a> {
    ghost use Rattle.log_core.specs.Confirming.{ConfirmQuestion};

    ghost Value = { ConfirmQuestion };

    ghost view = { λ a. record {
      client = a.client;
      name = a.name.now;
      first = a.first;
      second = a.second;
    } };
}

/// The newest decision, where there is one.
fn decision(log: &EpochLog) -> Result<&Newest, LogRefusal>
    ensures ok { IfOk result (λ w. log.now.state.newest ≡ Some w.now) }
    ensures err { IfErr result (λ refusal.
        has_decision log.now.state log.now.state.newest ≡ Err refusal) }
{
    match log.newest() {
        Some(newest) => Ok(newest),
        None => Err(LogRefusal::WrongEpoch(log.epoch())),
    }
}

/// What the log confirms of a name by a decision, as it is signed.
fn confirmation<'a>(log: &EpochLog, newest: &Newest, name: &'a Name) -> Statement<'a>
    ensures { text_of (claim_of result) ≡ confirmation_text log.now.state newest.now name.now }
{
    let certificate = newest_digest(log.table(), name.text());
    confirm_statement(
        log.number(),
        newest.epoch,
        name.view(),
        certificate,
        newest.root,
    )
}

impl LogCore {
    /// The confirmation, with the votes of the decision.
    fn confirming(
        &self,
        alloc: Global,
        newest: &Newest,
        asked: &ConfirmQuestion,
    ) -> Result<Confirming, AllocError>
        requires { AreVotes (sent_votes self.now.signature_len newest.now.votes) }
        ensures { IfOk result (λ part. part ≡ confirming_of self.now newest.now asked.now) }
    {
        let name = asked.name.view().to_name(alloc)?;
        let signature = Signature::zeros(alloc, self.signature_len)?;
        let votes = sent_votes(alloc, self.signature_len, newest.votes.as_slice())?;
        let body = body_in(alloc, self.log.table(), asked.name)?;
        Ok(Confirming {
            client: asked.client,
            epoch: newest.epoch,
            name,
            root: newest.root,
            base: newest.base,
            body,
            votes,
            log: self.log.number(),
            signature,
            first: asked.first,
            second: asked.second,
        })
    }

    /// The bytes of the message.
    fn confirmed_bytes(
        &self,
        alloc: Global,
        newest: &Newest,
        asked: &ConfirmQuestion,
    ) -> Result<Vec<u8>, AllocError>
        requires { AreVotes (sent_votes self.now.signature_len newest.now.votes) }
        ensures { IfOk result (λ bytes.
            bytes.items ≡ message_text
            (LogConfirmed (confirming_of self.now newest.now asked.now))) }
    {
        let part = self.confirming(alloc, newest, asked)?;
        log_confirmed_text(alloc, &part)
    }

    /// Where the log's own signatures are due, in a message of so many bytes.
    fn confirmed_places<'a>(
        &self,
        alloc: Global,
        newest: &Newest,
        name: &'a Name,
        len: usize,
    ) -> Result<Vec<OwnPlace<'a>>, AllocError>
        requires { length (flat_map vote_text (sent_votes self.now.signature_len newest.now.votes))
            + (self.now.signature_len + 8) ≤ len }
        ensures { IfOk result (λ own.
            own.items ≡ confirmed_places self.now newest.now name.now len) }
    {
        let value = newest.value();
        let mut own = own_votes(
            alloc,
            self.signature_len,
            self.log.number(),
            newest.epoch,
            &value,
            len - (self.signature_len + 8),
            newest.votes.as_slice(),
        )?;
        own.push(OwnPlace {
            at: len - (self.signature_len + 4),
            statement: confirmation(&self.log, newest, name),
        })?;
        Ok(own)
    }

    /// The message to the first authority.
    #[tactic(auto, using(crate::proofs::ConfirmedDrafts::confirmed_within))]
    fn confirmed_draft<'a>(
        &self,
        alloc: Global,
        newest: &Newest,
        asked: &ConfirmQuestion<'a>,
    ) -> Result<Ready<'a>, AllocError>
        requires { AreVotes (sent_votes self.now.signature_len newest.now.votes) }
        ensures { IfOk result (λ ready.
            ready ≡ with_draft none_composed (confirmed_draft self.now newest.now asked.now)) }
    {
        let bytes = self.confirmed_bytes(alloc, newest, asked)?;
        let own = self.confirmed_places(alloc, newest, asked.name, bytes.len())?;
        let mut drafts = DraftMessages::new(alloc);
        let to = Address::One(Role::Authority.party(asked.first));
        drafts.add_written(to, bytes, own)?;
        drafts.ready(alloc)
    }

    /// The checks of a ConfirmAsk but that of the leaf, in their order; and then the message.
    #[tactic(auto, unfolding(crate::specs::Confirming::confirmation_prepared))]
    fn prepare_confirmation<'a>(
        &self,
        alloc: Global,
        asked: &ConfirmQuestion<'a>,
    ) -> Result<Ready<'a>, LogRefusal>
        ensures { GivesUnless refusals.Memory (λ ready.
            ready) result (confirmation_prepared self.now asked.now) }
    {
        let first = Role::Authority.party(asked.first);
        let second = Role::Authority.party(asked.second);
        known(self.log.directory(), &[first, second])?;
        let newest = decision(&self.log)?;
        let ready = self.confirmed_draft(alloc, newest, asked)?;
        Ok(ready)
    }

    /// Confirms what a name has by the newest decision, and sends that to the first authority.
    pub(crate) fn confirm_ask(
        &mut self,
        alloc: Global,
        client: u16,
        name: &Name,
        first: u16,
        second: u16,
    ) -> Result<Unsigned, LogRefusal>
        ensures { IsStep result self.old self.new
            (confirm_row self.old (record {
              client = client;
              name = name.now;
              first = first;
              second = second;
            })) }
    {
        let _text = name.text();
        let asked = ConfirmQuestion {
            client,
            name,
            first,
            second,
        };
        let ready = match self.prepare_confirmation(alloc, &asked) {
            Ok(ready) => ready,
            Err(refusal) => return Err(refusal),
        };
        match self.log.confirm(alloc, name) {
            Ok(due) => {
                forgo(due);
                Ok(ready.seal(&self.log, None))
            }
            Err(fault) => {
                ready.discard();
                Err(book_refusal(fault))
            }
        }
    }
}
