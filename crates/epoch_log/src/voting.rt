//! Votes for the proposals of other logs.
ghost use Rattle.std.specs.Prelude.{◌≡◌, ◌<◌, [], ◌∷◌, flat_map, IfOk, OnOk, OnErr, Some};
ghost use Rattle.ar_base.specs.Gives.{GivesOrWants};
ghost use Rattle.ar_council.specs.Room.{HasRoom};
ghost use Rattle.party_keys.specs.Seen.{seen_of};
ghost use Rattle.ar_statement.specs.Claims.{log_party, propose};
ghost use Rattle.domain_table.specs.Applying.{apply};
ghost use Rattle.ar_statement.specs.declared.fault.BookFault.TheVariants as book_fault;
ghost use Rattle.epoch_log.specs.Answers.{voted};
ghost use Rattle.epoch_log.specs.Calls.{IsProposed, after_vote, endorsements_of, own_vote_text, IsOpenTo};
ghost use Rattle.epoch_log.specs.Log.{IsLog, having_tried, moved, parts_of, state_in};
ghost use Rattle.epoch_log.specs.State.{epoch_of, table_of};

use crate::Voted;
use crate::parts::Parts;
use crate::seeing::push_all_endorsements;
use crate::signing::{leaf_for, sign};
use crate::statements::changes_told;
use ar_base::Items;
use ar_cert::Change;
use ar_council::{propose_statement, see_each, seen_text, vote_statement};
use ar_statement::{Role, SeenText, value_told};
use domain_table::Table;
use key_roll::{BookFault, RollDue};
use std::alloc::{AllocError, Global};
use vote_quorum::Value;

/// What is seen of a proposal: itself, and the endorsements of its changes.
fn proposal_seen(
    alloc: Global,
    proposer: u16,
    epoch: u64,
    value: &Value,
    changes: &[Change],
) -> Result<Vec<SeenText>, AllocError>
    ensures { IfOk result (λ list. list.items
        ≡ seen_of (log_party proposer) (propose proposer epoch value.now.base value.now.root)
        ∷ flat_map endorsements_of changes.now) }
{
    let proposal = propose_statement(proposer, epoch, value);
    let mut seen = Vec::new(alloc);
    seen.push(seen_text(Role::LogServer.party(proposer), &proposal))?;
    push_all_endorsements(&mut seen, changes)?;
    Ok(seen)
}

impl Parts {
    /// Sees a proposal, and votes for it.
    fn cast(
        &mut self,
        alloc: Global,
        proposer: u16,
        value: Value,
        changes: Vec<Change>,
        tried: Table,
    ) -> Result<RollDue, BookFault>
        requires { IsLog self.old }
        ensures answer { GivesOrWants book_fault.Memory (λ due.
            due) result (voted (state_in self.old) value) }
        ensures ok { OnOk result
            (parts_of self.new ≡ moved (parts_of self.old)
            (after_vote (state_in self.old) proposer value changes.items)) }
        ensures err { OnErr result (parts_of self.new ≡ parts_of self.old) }
        ensures tables { OnOk result (self.new.tables ≡ having_tried self.old.tables tried) }
        ensures same { OnErr result (self.new.tables ≡ self.old.tables) }
        ensures leaf { OnOk result
            (HasRoom (state_in self.old).past.signed
            (own_vote_text (state_in self.old) value ∷ [])) }
    {
        let epoch = self.epoch();
        let statement = vote_statement(self.number, epoch, &value);
        leaf_for(&self.past.signed, &statement)?;
        let seen = proposal_seen(alloc, proposer, epoch, &value, &changes)?;
        self.reserve(alloc, seen.len(), 1)?;
        see_each(&mut self.past.seen, &seen);
        let due = sign(alloc, &mut self.past.signed, &statement);
        self.past.voted.push_reserved(Voted {
            epoch,
            base: value.base,
            changes: Items::from_vec(changes),
            root: value.root,
        });
        self.tables.tried = Some(tried);
        Ok(due)
    }

    /// `EpochLog::vote`.
    pub(crate) fn vote(
        &mut self,
        alloc: Global,
        proposer: u16,
        value: Value,
        changes: Vec<Change>,
        tried: Table,
    ) -> Result<RollDue, BookFault>
        requires kept { IsLog self.old }
        requires open { IsOpenTo (state_in self.old) value changes.items }
        requires tried { apply (table_of (state_in self.old))
            (epoch_of (state_in self.old)) changes.items ≡ Some tried }
        requires proposal { IsProposed (state_in self.old) proposer changes.items }
        ensures answer { GivesOrWants book_fault.Memory (λ due.
            due) result (voted (state_in self.old) value) }
        ensures ok { OnOk result
            (parts_of self.new ≡ moved (parts_of self.old)
            (after_vote (state_in self.old) proposer value changes.items)) }
        ensures err { OnErr result (parts_of self.new ≡ parts_of self.old) }
        ensures kept { IsLog self.new }
    {
        value_told(&value);
        changes_told(&changes);
        match self.cast(alloc, proposer, value, changes, tried) {
            Ok(due) => Ok(due),
            Err(fault) => Err(fault),
        }
    }
}
