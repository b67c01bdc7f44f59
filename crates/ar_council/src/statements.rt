//! The statements of logs on a value.
ghost use Rattle.std.specs.Prelude.{◌≡◌};
ghost use Rattle.ar_council.specs.Values.{is_same_digest, status_claim, vote_claim};
ghost use Rattle.ar_statement.specs.Claims.{claim_of, propose};

use ar_statement::Statement;
use vote_quorum::Value;

/// A log's proposal.
pub fn propose_statement(log: u16, epoch: u64, value: &Value) -> Statement<'static>
    ensures { claim_of result ≡ propose log epoch value.now.base value.now.root }
{
    Statement::Propose {
        log,
        epoch,
        base: value.base,
        root: value.root,
    }
}

/// A log's vote.
pub fn vote_statement(log: u16, epoch: u64, value: &Value) -> Statement<'static>
    ensures { claim_of result ≡ vote_claim log epoch value.now }
{
    Statement::Vote {
        log,
        epoch,
        base: value.base,
        root: value.root,
    }
}

/// A log's status.
pub fn status_statement(log: u16, epoch: u64, value: &Option<Value>) -> Statement<'static>
    ensures { claim_of result ≡ status_claim log epoch value.now }
{
    Statement::Status {
        log,
        epoch,
        value: *value,
    }
}

/// Whether two digests, or none, are the same.
pub fn is_same_digest(one: &Option<[u8; 32]>, other: &Option<[u8; 32]>) -> bool
    ensures { result ≡ is_same_digest one.now other.now }
{
    match (one, other) {
        (None, None) => true,
        (Some(one), Some(other)) => *one == *other,
        _ => false,
    }
}
