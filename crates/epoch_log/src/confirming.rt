//! Confirmations of what a name has.
ghost use Rattle.std.specs.Prelude.{◌≡◌, ◌<◌, [], ◌∷◌, Option, IfSome, IsSome, OnOk, OnErr, false, vec_len, vec_capacity};
ghost use Rattle.std.specs.List.{list_any};
ghost use Rattle.ar_base.specs.Adding.{with_one};
ghost use Rattle.ar_base.specs.Bytes.{IsDigest};
ghost use Rattle.ar_base.specs.Gives.{GivesOrWants};
ghost use Rattle.ar_council.specs.Room.{HasRoom};
ghost use Rattle.ar_council.specs.Values.{confirm_claim, is_same_digest};
ghost use Rattle.ar_statement.specs.Claims.{claim_of, text_of};
ghost use Rattle.key_roll.specs.Entry.{entered};
ghost use Rattle.key_roll.specs.Rolls.{is_roll};
ghost use Rattle.ar_statement.specs.declared.fault.BookFault.TheVariants as book_fault;
ghost use Rattle.domain_table.specs.Tables.{newest};
ghost use Rattle.epoch_log.specs.Answers.{confirmed};
ghost use Rattle.epoch_log.specs.Calls.{after_confirm, confirming, is_same_confirmation};
ghost use Rattle.epoch_log.specs.Log.{IsLog, moved, parts_of, state_in};
ghost use Rattle.epoch_log.specs.Right.{newest_digest};

use crate::Confirmed;
use crate::parts::Parts;
use crate::signing::{leaf_for, sign};
use ar_bytes::digest_told;
use ar_council::is_same_digest;
use ar_names::{Name, NameView};
use ar_statement::{Role, Statement, confirmation_statement};
use domain_table::Table;
use key_roll::{BookFault, RollDue};
use std::alloc::Global;

/// Tells a proof that a digest, where there is one, is one.
fn some_digest_told(digest: &Option<[u8; 32]>)
    ensures { IfSome digest.now IsDigest }
{
    if let Some(digest) = digest {
        digest_told(digest);
    }
}

/// The digest of the newest certificate of a name.
pub fn newest_digest(table: &Table, name: &[u8]) -> Option<[u8; 32]>
    ensures { result ≡ newest_digest table.now name.now }
{
    let certificate = table.newest(name)?;
    Some(certificate.digest())
}

/// Whether two confirmations say the same.
fn is_same(one: &Confirmed, other: &Confirmed) -> bool
    ensures { result ≡ is_same_confirmation one.now other.now }
{
    one.epoch == other.epoch
        && one.name.text() == other.name.text()
        && is_same_digest(&one.certificate, &other.certificate)
        && one.root == other.root
}

/// Whether a confirmation is among these.
fn was_confirmed(confirmed: &[Confirmed], more: &Confirmed) -> bool
    ensures { result ≡ list_any (λ c. is_same_confirmation c more.now) confirmed.now }
{
    confirmed.iter().any(|c| is_same(c, more))
}

/// Adds a confirmation, unless it is there. There is room for it.
fn put_confirmed(confirmed: &mut Vec<Confirmed>, more: Confirmed)
    requires { vec_len confirmed.old < vec_capacity confirmed.old }
    ensures { confirmed.new.items ≡ with_one is_same_confirmation confirmed.old.items more }
{
    if !was_confirmed(confirmed, &more) {
        confirmed.push_reserved(more);
    }
}

/// A log's confirmation that a name has a certificate with this digest, or none.
pub fn confirm_statement(
    log: u16,
    epoch: u64,
    name: NameView<'_>,
    certificate: Option<[u8; 32]>,
    root: [u8; 32],
) -> Statement<'_>
    ensures { claim_of result ≡ confirm_claim log epoch name.entry certificate root }
{
    let signer = Role::LogServer.party(log);
    confirmation_statement(signer, epoch, name, certificate, root)
}

impl Parts {
    /// Signs the statement of a confirmation, and tells of it.
    fn affirm(
        &mut self,
        alloc: Global,
        statement: &Statement,
        epoch: u64,
        name: &Name,
        certificate: Option<[u8; 32]>,
        root: [u8; 32],
    ) -> Result<RollDue, BookFault>
        requires kept { IsLog self.old }
        requires plain { is_roll (text_of (claim_of statement.now)) ≡ false }
        ensures answer { GivesOrWants book_fault.Memory (λ due.
            due) result (entered (state_in self.old).past.signed
            (text_of (claim_of statement.now))) }
        ensures ok { OnOk result (parts_of self.new ≡ moved (parts_of self.old)
            (confirming (state_in self.old) (text_of (claim_of statement.now))
            (record {
              epoch = epoch;
              name = name.now;
              certificate = certificate;
              root = root;
            }))) }
        ensures err { OnErr result (parts_of self.new ≡ parts_of self.old) }
        ensures tables { self.new.tables ≡ self.old.tables }
        ensures leaf { OnOk result
            (HasRoom (state_in self.old).past.signed (text_of (claim_of statement.now) ∷ [])) }
    {
        leaf_for(&self.past.signed, statement)?;
        let name = name.view().to_name(alloc)?;
        self.reserve(alloc, 0, 1)?;
        let due = sign(alloc, &mut self.past.signed, statement);
        put_confirmed(
            &mut self.past.confirmed,
            Confirmed {
                epoch,
                name,
                certificate,
                root,
            },
        );
        Ok(due)
    }

    /// `EpochLog::confirm`.
    pub(crate) fn confirm(&mut self, alloc: Global, name: &Name) -> Result<RollDue, BookFault>
        requires kept { IsLog self.old }
        requires decided { IsSome (state_in self.old).newest }
        ensures answer { IfSome (state_in self.old).newest (λ w.
            GivesOrWants book_fault.Memory (λ due.
            due) result (confirmed (state_in self.old) w name.now)) }
        ensures ok { OnOk result (IfSome (state_in self.old).newest (λ w.
            parts_of self.new ≡ moved (parts_of self.old)
            (after_confirm (state_in self.old) w name.now))) }
        ensures err { OnErr result (parts_of self.new ≡ parts_of self.old) }
        ensures kept { IsLog self.new }
    {
        let Some(newest) = &self.newest else {
            unreachable!();
        };
        let epoch = newest.epoch;
        let root = newest.root;
        let text = name.text();
        let certificate = newest_digest(&self.tables.base, text);
        digest_told(&root);
        some_digest_told(&certificate);
        let statement = confirm_statement(self.number, epoch, name.view(), certificate, root);
        match self.affirm(alloc, &statement, epoch, name, certificate, root) {
            Ok(due) => Ok(due),
            Err(fault) => Err(fault),
        }
    }
}
