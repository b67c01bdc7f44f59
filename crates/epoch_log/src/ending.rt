//! An epoch ends: its ending is kept, and what was counted is dropped.
ghost use Rattle.std.specs.Prelude.{◌≡◌, ◌<◌, vec_len, vec_capacity};
ghost use Rattle.epoch_log.specs.Ending.{decided, decided_if, skipped, skipped_if};
ghost use Rattle.epoch_log.specs.Log.{moved, parts_of, state_in, untried};
ghost use Rattle.epoch_log.specs.State.{epoch_of};
ghost use Rattle.epoch_log.specs.Telling.{tables_if};

use crate::parts::{CountedStatus, Parts, Tables};
use crate::{Ended, How, Newest};
use ar_base::Items;
use ar_cert::Change;
use ar_statement::fields::LAST_EPOCH;
use domain_table::Table;
use std::alloc::Global;
use std::mem;
use vote_quorum::Value;

/// What a decision takes: the changes, the value that a quorum is for, the table to which the changes lead, and the votes.
#[derive(Drop)]
pub(crate) struct Decision {
    pub(crate) changes: Vec<Change>,
    pub(crate) value: Value,
    pub(crate) table: Table,
    pub(crate) votes: Vec<(u16, Option<Items<u8>>)>,
}

impl Parts {
    /// Ends the epoch as decided; the counts are dropped.
    pub(crate) fn end_decided(&mut self, alloc: Global, epoch: u64, decision: Decision)
        requires epoch { epoch ≡ epoch_of (state_in self.old) }
        requires room { vec_len self.old.past.ended < vec_capacity self.old.past.ended }
        ensures parts { parts_of self.new
            ≡ moved (parts_of self.old)
            (decided (state_in self.old) decision.changes.items decision.value
            decision.votes.items) }
        ensures tables { self.new.tables ≡ untried decision.table }
    {
        let Decision {
            changes,
            value,
            table,
            votes,
        } = decision;
        let Value { base, root } = value;
        self.past.ended.push_reserved(Ended {
            epoch,
            how: How::Decided {
                changes: Items::from_vec(changes),
                root,
            },
        });
        self.votes = Vec::new(alloc);
        self.statuses = Vec::new(alloc);
        self.newest = Some(Newest {
            epoch,
            base,
            root,
            votes: Items::from_vec(votes),
        });
        self.tables = Tables {
            base: table,
            tried: None,
        };
    }

    /// The same, unless the epoch is the last.
    pub(crate) fn decide_unless_last(&mut self, alloc: Global, epoch: u64, decision: Decision)
        requires epoch { epoch ≡ epoch_of (state_in self.old) }
        requires room { vec_len self.old.past.ended < vec_capacity self.old.past.ended }
        ensures parts { parts_of self.new
            ≡ moved (parts_of self.old)
            (decided_if (state_in self.old) decision.changes.items decision.value
            decision.votes.items) }
        ensures tables { self.new.tables
            ≡ tables_if (state_in self.old) self.old.tables decision.table }
    {
        if epoch < LAST_EPOCH {
            self.end_decided(alloc, epoch, decision);
        }
    }

    /// Ends the epoch as skipped by these statuses; the counts are dropped, and those of statuses are given.
    pub(crate) fn end_skipped(
        &mut self,
        alloc: Global,
        epoch: u64,
        statuses: Vec<(u16, Option<Value>)>,
    ) -> Items<CountedStatus>
        requires epoch { epoch ≡ epoch_of (state_in self.old) }
        requires room { vec_len self.old.past.ended < vec_capacity self.old.past.ended }
        ensures counted { result ≡ self.old.statuses.items }
        ensures parts { parts_of self.new
            ≡ moved (parts_of self.old) (skipped (state_in self.old) statuses.items) }
        ensures tables { self.new.tables ≡ untried self.old.tables.base }
    {
        self.past.ended.push_reserved(Ended {
            epoch,
            how: How::Skipped {
                statuses: Items::from_vec(statuses),
            },
        });
        self.votes = Vec::new(alloc);
        self.tables.tried = None;
        Items::from_vec(mem::replace(&mut self.statuses, Vec::new(alloc)))
    }

    /// The same, unless the epoch is the last.
    pub(crate) fn skip_unless_last(
        &mut self,
        alloc: Global,
        epoch: u64,
        statuses: Vec<(u16, Option<Value>)>,
    )
        requires epoch { epoch ≡ epoch_of (state_in self.old) }
        requires room { vec_len self.old.past.ended < vec_capacity self.old.past.ended }
        ensures parts { parts_of self.new
            ≡ moved (parts_of self.old) (skipped_if (state_in self.old) statuses.items) }
        ensures tables { self.new.tables
            ≡ tables_if (state_in self.old) self.old.tables self.old.tables.base }
    {
        if epoch < LAST_EPOCH {
            let _counted = self.end_skipped(alloc, epoch, statuses);
        }
    }
}
