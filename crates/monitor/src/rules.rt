//! The tests by which two statements of one party contradict each other.
ghost use Rattle.std.specs.Prelude.{◌≡◌, bytes_eq};
ghost use Rattle.std.specs.Option.{option_map};
ghost use Rattle.ar_statement.specs.Claims.{claim_of};
ghost use Rattle.party_keys.specs.Signatures.{rolls_from};
ghost use Rattle.monitor.specs.Rules.{are_confirmations, are_one, are_rolls, are_statuses, are_two_of_one, are_votes, confirmation_in, have_one_leaf, is_denied, is_of_log, is_value, rule_fitting, rule_of, status_in, vote_in};

use crate::sworn::Sworn;
use ar_statement::{Role, Statement};
use vote_quorum::Value;

/// The epoch of a vote, and what it is for.
fn vote_in(statement: &Statement) -> Option<(u64, Value)>
    ensures { result ≡ vote_in (claim_of statement.now) }
{
    match statement {
        Statement::Vote {
            epoch,
            base,
            root,
            ..
        } => {
            let (base, root) = (*base, *root);
            Some((*epoch, Value { base, root }))
        }
        _ => None,
    }
}

/// The epoch of a status, and what it says that the log voted for.
fn status_in(statement: &Statement) -> Option<(u64, Option<Value>)>
    ensures { result ≡ status_in (claim_of statement.now) }
{
    match statement {
        Statement::Status { epoch, value, .. } => Some((*epoch, *value)),
        _ => None,
    }
}

/// The epoch, the name and the root of a confirmation.
fn confirmation_in<'a>(statement: &'a Statement) -> Option<(u64, (&'a [u8], &'a [u8]))>
    ensures { option_map (λ c.
        (c.0, (c.1.0.now, c.1.1.now))) result ≡ confirmation_in (claim_of statement.now) }
{
    match statement {
        Statement::Confirm {
            epoch,
            name,
            root,
            ..
        }
        | Statement::ConfirmAbsent {
            epoch,
            name,
            root,
            ..
        } => Some((*epoch, (name.text(), root.as_slice()))),
        _ => None,
    }
}

/// The generation that a Roll names.
fn rolls_from(statement: &Statement) -> Option<u32>
    ensures { result ≡ rolls_from (claim_of statement.now) }
{
    match statement {
        Statement::Roll { generation, .. } => Some(*generation),
        _ => None,
    }
}

/// Whether both are votes of one epoch.
fn are_votes(one: &Statement, other: &Statement) -> bool
    ensures { result ≡ are_votes (claim_of one.now) (claim_of other.now) }
{
    match (vote_in(one), vote_in(other)) {
        (Some((epoch, _)), Some((other, _))) => epoch == other,
        _ => false,
    }
}

/// Whether this is what a status says that the log voted for.
fn is_value(value: &Option<Value>, voted: &Value) -> bool
    ensures { result ≡ is_value value.now voted.now }
{
    match value {
        Some(value) => value.base == voted.base && value.root == voted.root,
        None => false,
    }
}

/// Whether these are a vote, and a status of its epoch that does not say what the vote is for.
fn is_denied(one: &Statement, other: &Statement) -> bool
    ensures { result ≡ is_denied (claim_of one.now) (claim_of other.now) }
{
    match (vote_in(one), status_in(other)) {
        (Some((epoch, voted)), Some((stated, value))) => {
            epoch == stated && !is_value(&value, &voted)
        }
        _ => false,
    }
}

/// Whether both are statuses of one epoch.
fn are_statuses(one: &Statement, other: &Statement) -> bool
    ensures { result ≡ are_statuses (claim_of one.now) (claim_of other.now) }
{
    match (status_in(one), status_in(other)) {
        (Some((epoch, _)), Some((other, _))) => epoch == other,
        _ => false,
    }
}

/// Whether a log signs the statement.
fn is_of_log(statement: &Statement) -> bool
    ensures { result ≡ is_of_log (claim_of statement.now) }
{
    statement.signer().role.number() == 1
}

/// Whether both are confirmations of a log for one epoch, with different roots or of one name.
fn are_confirmations(one: &Statement, other: &Statement) -> bool
    ensures { result ≡ are_confirmations (claim_of one.now) (claim_of other.now) }
{
    if !is_of_log(one) {
        return false;
    }
    match (confirmation_in(one), confirmation_in(other)) {
        (Some((epoch, (name, root))), Some((other_epoch, (other_name, other_root)))) => {
            epoch == other_epoch && (root != other_root || name == other_name)
        }
        _ => false,
    }
}

/// Whether both are there, and are the same.
fn are_one(one: Option<u32>, other: Option<u32>) -> bool
    ensures { result ≡ are_one one other }
{
    match (one, other) {
        (Some(one), Some(other)) => one == other,
        _ => false,
    }
}

/// Whether both are Rolls of one generation.
fn are_rolls(one: &Statement, other: &Statement) -> bool
    ensures { result ≡ are_rolls (claim_of one.now) (claim_of other.now) }
{
    are_one(rolls_from(one), rolls_from(other))
}

impl Sworn<'_> {
    ghost use Rattle.std.specs.Prelude.{◌≡◌};
    ghost use Rattle.monitor.specs.Rules.{are_two_of_one, have_one_leaf, rule_fitting, rule_of};

    /// Whether one leaf of one generation signed both.
    fn has_leaf_of(&self, other: &Sworn) -> bool
        ensures { result ≡ have_one_leaf self.now other.now }
    {
        are_one(self.generation, other.generation) && are_one(self.leaf, other.leaf)
    }

    /// Whether one party signed both, and their texts differ.
    fn are_two_of_one(&self, other: &Sworn) -> bool
        ensures { result ≡ are_two_of_one self.now other.now }
    {
        self.signer().is_same(&other.signer()) && self.text != other.text
    }

    /// The least rule that fits both.
    fn rule_fitting(&self, other: &Sworn) -> Option<u8>
        ensures { result ≡ rule_fitting self.now other.now }
    {
        let (one, two) = (&self.statement, &other.statement);
        if are_votes(one, two) {
            Some(1)
        } else if is_denied(one, two) || is_denied(two, one) {
            Some(2)
        } else if are_statuses(one, two) {
            Some(3)
        } else if are_confirmations(one, two) {
            Some(4)
        } else if are_rolls(one, two) {
            Some(5)
        } else if self.has_leaf_of(other) {
            Some(6)
        } else {
            None
        }
    }

    /// The least rule by which both contradict each other, where one party signed them and their texts differ.
    #[tactic(auto, unfolding(crate::specs::Rules::rule_of))]
    pub(crate) fn rule_against(&self, other: &Sworn) -> Option<u8>
        ensures { result ≡ rule_of self.now other.now }
    {
        if self.are_two_of_one(other) {
            self.rule_fitting(other)
        } else {
            None
        }
    }
}
