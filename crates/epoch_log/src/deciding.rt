//! Decisions of which other logs tell.
ghost use Rattle.std.specs.Prelude.{◌≡◌, ◌++◌, flat_map, IfOk, OnOk, OnErr, Some};
ghost use Rattle.party_keys.specs.Seen.{seen_of};
ghost use Rattle.ar_council.specs.Values.{vote_claim};
ghost use Rattle.domain_table.specs.Applying.{apply};
ghost use Rattle.ar_statement.specs.Claims.{log_party};
ghost use Rattle.epoch_log.specs.Calls.{after_decide, endorsements_of, signed_votes, votes_seen, CanDecide};
ghost use Rattle.epoch_log.specs.Log.{IsLog, moved, parts_of, state_in};
ghost use Rattle.epoch_log.specs.State.{epoch_of, table_of};
ghost use Rattle.epoch_log.specs.Telling.{tables_if, to_root, votes_in};

use crate::ending::Decision;
use crate::parts::Parts;
use crate::seeing::push_all_endorsements;
use crate::statements::changes_told;
use ar_base::Items;
use ar_cert::Change;
use ar_council::{see_each, seen_text, vote_statement};
use ar_statement::{Role, SeenText, value_told};
use domain_table::Table;
use std::alloc::{AllocError, Global};
use vote_quorum::Value;

/// A log's vote, as it is kept.
pub(crate) fn vote_text(log: u16, epoch: u64, value: &Value) -> SeenText
    ensures { result ≡ seen_of (log_party log) (vote_claim log epoch value.now) }
{
    seen_text(
        Role::LogServer.party(log),
        &vote_statement(log, epoch, value),
    )
}

/// The votes, as they are seen.
fn texts(
    alloc: Global,
    epoch: u64,
    value: &Value,
    votes: &[(u16, Vec<u8>)],
) -> Result<Vec<SeenText>, AllocError>
    ensures { IfOk result (λ list. list.items ≡ votes_seen epoch value.now (votes_in votes.now)) }
{
    let mut list = Vec::new(alloc);
    for vote in votes {
        list.push(vote_text(vote.0, epoch, value))?;
    }
    Ok(list)
}

/// What is seen of a decision: the votes, and the endorsements of its changes.
fn seen_by(
    alloc: Global,
    epoch: u64,
    value: &Value,
    changes: &[Change],
    votes: &[(u16, Vec<u8>)],
) -> Result<Vec<SeenText>, AllocError>
    ensures { IfOk result (λ list.
        list.items ≡ votes_seen epoch value.now (votes_in votes.now)
        ++ flat_map endorsements_of changes.now) }
{
    let mut seen = texts(alloc, epoch, value, votes)?;
    push_all_endorsements(&mut seen, changes)?;
    Ok(seen)
}

/// The votes as they are kept.
fn signed(
    alloc: Global,
    votes: Vec<(u16, Vec<u8>)>,
) -> Result<Vec<(u16, Option<Items<u8>>)>, AllocError>
    ensures { IfOk result (λ list. list.items ≡ signed_votes (votes_in votes.items)) }
{
    let mut list = Vec::new(alloc);
    for vote in votes {
        list.push((vote.0, Some(Items::from_vec(vote.1))))?;
    }
    Ok(list)
}

impl Parts {
    /// Sees the votes and the endorsements, and ends the epoch.
    fn decide_by(
        &mut self,
        alloc: Global,
        value: Value,
        changes: Vec<Change>,
        table: Table,
        votes: Vec<(u16, Vec<u8>)>,
    ) -> Result<(), AllocError>
        requires { IsLog self.old }
        ensures ok { OnOk result
            (parts_of self.new ≡ moved (parts_of self.old)
            (after_decide (state_in self.old) value changes.items (votes_in votes.items))) }
        ensures tables { OnOk result
            (self.new.tables ≡ tables_if (state_in self.old) self.old.tables table) }
        ensures err { OnErr result (parts_of self.new ≡ parts_of self.old) }
        ensures same { OnErr result (self.new.tables ≡ self.old.tables) }
    {
        let epoch = self.epoch();
        let seen = seen_by(alloc, epoch, &value, &changes, &votes)?;
        let votes = signed(alloc, votes)?;
        self.reserve(alloc, seen.len(), 0)?;
        see_each(&mut self.past.seen, &seen);
        self.decide_unless_last(
            alloc,
            epoch,
            Decision {
                changes,
                value,
                table,
                votes,
            },
        );
        Ok(())
    }

    /// `EpochLog::decide`.
    pub(crate) fn decide(
        &mut self,
        alloc: Global,
        changes: Vec<Change>,
        root: [u8; 32],
        table: Table,
        votes: Vec<(u16, Vec<u8>)>,
    ) -> Result<(), AllocError>
        requires kept { IsLog self.old }
        requires may { CanDecide (state_in self.old) changes.items root (votes_in votes.items) }
        requires table { apply (table_of (state_in self.old))
            (epoch_of (state_in self.old)) changes.items ≡ Some table }
        ensures ok { OnOk result
            (parts_of self.new ≡ moved (parts_of self.old)
            (after_decide (state_in self.old) (to_root (state_in self.old) root) changes.items
            (votes_in votes.items))) }
        ensures err { OnErr result (parts_of self.new ≡ parts_of self.old) }
        ensures kept { IsLog self.new }
    {
        changes_told(&changes);
        let value = Value {
            base: self.tables.base.root(),
            root,
        };
        value_told(&value);
        match self.decide_by(alloc, value, changes, table, votes) {
            Ok(()) => Ok(()),
            Err(error) => Err(error),
        }
    }
}
