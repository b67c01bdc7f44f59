//! What logs and authorities are said to have signed in a message.

ghost use Rattle.std.specs.Prelude.{◌≡◌, ◌++◌, ◌∷◌, [], flat_map, map, IfOk, OnOk};
ghost use Rattle.ar_claims.specs.Claimed.{claimed_in, confirmed_claim, confirmed_in, votes_behind};
ghost use Rattle.ar_claims.specs.Lists.{endorsements_in, claimed_statuses, claimed_votes};
ghost use Rattle.ar_council.specs.Values.{status_claim};
ghost use Rattle.ar_message.specs.Confirmation.{digest_in};
ghost use Rattle.ar_message.specs.Messages.{shown_in};
ghost use Rattle.ar_statement.specs.Claims.{authority_party, claim_of, endorse, log_party, signer_of, value_with};
ghost use Rattle.ar_message.specs.declared.message.Message.TheVariants.{HalfConfirmed, LogConfirmed};
ghost use Rattle.party_keys.specs.Signers.{signed_by};
ghost use Rattle.run_premises.specs.Books.{claimed_of_confirmations, claimed_of_logs, claimed_of_others};

use ar_cert::{Change, Endorsement};
use ar_council::{propose_statement, vote_statement};
use ar_message::{Body, Confirming, LogStatus, Message, Vote};
use ar_names::Name;
use ar_statement::{Party, Role, Statement, Text, confirmation_statement};
use party_keys::Claimed;
use std::alloc::{AllocError, Global};
use vote_quorum::Value;

/// Puts that a party signed this statement behind the others.
fn put<'a>(
    statement: &Statement,
    signature: &'a [u8],
    claims: &mut Vec<Claimed<'a>>,
) -> Result<(), AllocError>
    ensures { OnOk result
        (claims.new.items ≡ claims.old.items
        ++ signed_by (signer_of (claim_of statement.now)) (claim_of statement.now) signature.now
        ∷ []) }
{
    claims.push(Claimed::new(statement.signer(), Text::of(statement), signature))?;
    Ok(())
}

// ---- lists

/// Puts the endorsements of the certificate with this digest behind the others.
fn put_each<'a>(
    certificate: [u8; 32],
    endorsements: &'a [Endorsement],
    claims: &mut Vec<Claimed<'a>>,
) -> Result<(), AllocError>
    ensures { OnOk result (claims.new.items ≡ claims.old.items
        ++ map (λ e. signed_by (authority_party e.authority)
        (endorse e.authority certificate) e.signature) endorsements.now) }
{
    if let [endorsement, rest @ ..] = endorsements {
        let authority = endorsement.authority;
        let statement = Statement::Endorse {
            authority,
            certificate,
        };
        put(&statement, endorsement.signature.as_slice(), claims)?;
        put_each(certificate, rest, claims)?;
    }
    Ok(())
}

/// Puts the endorsements of a change behind the others.
fn put_endorsements<'a>(change: &'a Change, claims: &mut Vec<Claimed<'a>>) -> Result<(), AllocError>
    ensures { OnOk result (claims.new.items ≡ claims.old.items ++ endorsements_in change.now) }
{
    put_each(change.cert.digest(), change.endorsements.as_slice(), claims)
}

/// Puts the endorsements of changes behind the others.
fn put_changes<'a>(changes: &'a [Change], claims: &mut Vec<Claimed<'a>>) -> Result<(), AllocError>
    ensures { OnOk result
        (claims.new.items ≡ claims.old.items ++ flat_map endorsements_in changes.now) }
{
    if let [change, rest @ ..] = changes {
        put_endorsements(change, claims)?;
        put_changes(rest, claims)?;
    }
    Ok(())
}

/// A base and a root as the value that is voted for.
fn value(base: [u8; 32], root: [u8; 32]) -> Value
    ensures { result ≡ value_with base root }
{
    Value { base, root }
}

/// Puts votes of an epoch for this value behind the others.
fn put_votes<'a>(
    epoch: u64,
    value: &Value,
    votes: &'a [Vote],
    claims: &mut Vec<Claimed<'a>>,
) -> Result<(), AllocError>
    ensures { OnOk result
        (claims.new.items ≡ claims.old.items ++ claimed_votes epoch value.now votes.now) }
{
    if let [vote, rest @ ..] = votes {
        let statement = vote_statement(vote.log, epoch, value);
        put(&statement, vote.signature.as_slice(), claims)?;
        put_votes(epoch, value, rest, claims)?;
    }
    Ok(())
}

/// Puts what a log states of an epoch behind the others.
fn put_status<'a>(
    log: u16,
    epoch: u64,
    value: Option<Value>,
    signature: &'a [u8],
    claims: &mut Vec<Claimed<'a>>,
) -> Result<(), AllocError>
    ensures { OnOk result (claims.new.items ≡ claims.old.items
        ++ signed_by (log_party log) (status_claim log epoch value) signature.now ∷ []) }
{
    put(&Statement::Status { log, epoch, value }, signature, claims)
}

/// Puts statuses of an epoch behind the others.
fn put_statuses<'a>(
    epoch: u64,
    statuses: &'a [LogStatus],
    claims: &mut Vec<Claimed<'a>>,
) -> Result<(), AllocError>
    ensures { OnOk result
        (claims.new.items ≡ claims.old.items ++ claimed_statuses epoch statuses.now) }
{
    if let [status, rest @ ..] = statuses {
        put_status(
            status.log,
            epoch,
            status.value,
            status.signature.as_slice(),
            claims,
        )?;
        put_statuses(epoch, rest, claims)?;
    }
    Ok(())
}

// ---- confirmations

/// The digest of the certificate that a confirmation shows; none where it shows that there is none.
fn digest_in(body: &Body) -> Option<[u8; 32]>
    ensures { result ≡ digest_in (shown_in body.now) }
{
    match body {
        Body::Present { cert, .. } => Some(cert.digest()),
        Body::Absent { .. } => None,
    }
}

/// What is confirmed of a name.
#[derive(Clone, Copy)]
struct About<'a> {
    epoch: u64,
    name: &'a Name,
    body: &'a Body,
    root: [u8; 32],
}

/// Puts that a party confirmed this of a name behind the others.
fn put_confirmed<'a>(
    about: &About,
    party: Party,
    signature: &'a [u8],
    claims: &mut Vec<Claimed<'a>>,
) -> Result<(), AllocError>
    ensures { OnOk result (claims.new.items ≡ claims.old.items
        ++ confirmed_in about.now.epoch about.now.name.now
        (shown_in about.now.body.now) about.now.root party signature.now ∷ []) }
{
    let certificate = digest_in(about.body);
    let name = about.name.view();
    let statement = confirmation_statement(party, about.epoch, name, certificate, about.root);
    claims.push(Claimed::new(party, Text::of(&statement), signature))?;
    Ok(())
}

/// Puts that a party confirmed what is on its way behind the others.
fn put_part<'a>(
    part: &Confirming,
    party: Party,
    signature: &'a [u8],
    claims: &mut Vec<Claimed<'a>>,
) -> Result<(), AllocError>
    ensures { OnOk result
        (claims.new.items ≡ claims.old.items ++ confirmed_claim part.now party signature.now ∷ []) }
{
    let about = About {
        epoch: part.epoch,
        name: &part.name,
        body: &part.body,
        root: part.root,
    };
    put_confirmed(&about, party, signature, claims)
}

/// Puts the votes behind a confirmation behind the others.
fn put_votes_behind<'a>(
    part: &'a Confirming,
    claims: &mut Vec<Claimed<'a>>,
) -> Result<(), AllocError>
    ensures { OnOk result (claims.new.items ≡ claims.old.items ++ votes_behind part.now) }
{
    let value = value(part.base, part.root);
    put_votes(part.epoch, &value, &part.votes.list, claims)
}

// ---- messages

/// Puts the claims of a proposal behind the others.
fn put_proposal<'a>(
    statement: &Statement,
    signature: &'a [u8],
    changes: &'a [Change],
    claims: &mut Vec<Claimed<'a>>,
) -> Result<(), AllocError>
    ensures { OnOk result (claims.new.items ≡ claims.old.items
        ++ signed_by (signer_of (claim_of statement.now)) (claim_of statement.now) signature.now
        ∷ flat_map endorsements_in changes.now) }
{
    put(statement, signature, claims)?;
    put_changes(changes, claims)
}

/// Puts the claims of what a log confirmed behind the others.
fn put_log_confirmed<'a>(
    part: &'a Confirming,
    claims: &mut Vec<Claimed<'a>>,
) -> Result<(), AllocError>
    ensures { OnOk result
        (claims.new.items ≡ claims.old.items ++ claimed_in (LogConfirmed part.now)) }
{
    put_part(
        part,
        Role::LogServer.party(part.log),
        part.signature.as_slice(),
        claims,
    )?;
    put_votes_behind(part, claims)
}

/// Puts the claims of what a log and a first authority confirmed behind the others.
fn put_half_confirmed<'a>(
    part: &'a Confirming,
    first_signature: &'a [u8],
    claims: &mut Vec<Claimed<'a>>,
) -> Result<(), AllocError>
    ensures { OnOk result
        (claims.new.items ≡ claims.old.items
        ++ claimed_in (HalfConfirmed part.now first_signature.now)) }
{
    put_part(
        part,
        Role::LogServer.party(part.log),
        part.signature.as_slice(),
        claims,
    )?;
    put_part(
        part,
        Role::Authority.party(part.first),
        first_signature,
        claims,
    )?;
    put_votes_behind(part, claims)
}

/// Puts the claims of a confirmation behind the others; of another message none.
fn put_confirmation<'a>(
    message: &'a Message,
    claims: &mut Vec<Claimed<'a>>,
) -> Result<(), AllocError>
    ensures { OnOk result
        (claims.new.items ≡ claims.old.items ++ claimed_of_confirmations message.now) }
{
    let Message::Confirmation {
        epoch,
        name,
        root,
        body,
        log,
        log_signature,
        first,
        first_signature,
        second,
        second_signature,
        ..
    } = message
    else {
        return Ok(());
    };
    let about = About {
        epoch: *epoch,
        name,
        body,
        root: *root,
    };
    let log = Role::LogServer.party(*log);
    let first = Role::Authority.party(*first);
    let second = Role::Authority.party(*second);
    put_confirmed(&about, log, log_signature.as_slice(), claims)?;
    put_confirmed(&about, first, first_signature.as_slice(), claims)?;
    put_confirmed(&about, second, second_signature.as_slice(), claims)
}

/// Puts the claims of a message about an epoch, as it passes between logs, behind the others; of another message none.
fn put_of_logs<'a>(message: &'a Message, claims: &mut Vec<Claimed<'a>>) -> Result<(), AllocError>
    ensures { OnOk result (claims.new.items ≡ claims.old.items ++ claimed_of_logs message.now) }
{
    match message {
        Message::Propose {
            log,
            epoch,
            base,
            root,
            changes,
            signature,
        } => {
            let statement = propose_statement(*log, *epoch, &value(*base, *root));
            put_proposal(&statement, signature.as_slice(), &changes.list, claims)
        }
        Message::Ballot {
            log,
            epoch,
            base,
            root,
            signature,
        } => {
            let statement = vote_statement(*log, *epoch, &value(*base, *root));
            put(&statement, signature.as_slice(), claims)
        }
        Message::StatusNote {
            log,
            epoch,
            value,
            signature,
        } => { put_status(*log, *epoch, *value, signature.as_slice(), claims) }
        Message::Decision {
            epoch,
            base,
            root,
            changes,
            votes,
        } => {
            put_votes(*epoch, &value(*base, *root), &votes.list, claims)?;
            put_changes(&changes.list, claims)
        }
        Message::SkipNote { epoch, statuses } => put_statuses(*epoch, &statuses.list, claims),
        _ => Ok(()),
    }
}

/// Puts the claims of each other message behind the others.
fn put_of_others<'a>(message: &'a Message, claims: &mut Vec<Claimed<'a>>) -> Result<(), AllocError>
    ensures { OnOk result (claims.new.items ≡ claims.old.items ++ claimed_of_others message.now) }
{
    match message {
        Message::Submit { change } => put_endorsements(change, claims),
        Message::LogConfirmed { part } => put_log_confirmed(part, claims),
        Message::HalfConfirmed {
            part,
            first_signature,
        } => { put_half_confirmed(part, first_signature.as_slice(), claims) }
        Message::RollNote {
            party,
            generation,
            key,
            signature,
        } => {
            let statement = Statement::Roll {
                signer: *party,
                generation: *generation,
                key: key.bytes(),
            };
            put(&statement, signature.as_slice(), claims)
        }
        _ => Ok(()),
    }
}

/// The claims of a message: each a party, a text that it is said to have signed, and the signature. The only error is want of
/// memory.
pub fn claims_in(alloc: Global, message: &Message) -> Result<Vec<Claimed<'_>>, AllocError>
    ensures { IfOk result (λ claims. claims.items ≡ claimed_in message.now) }
{
    let mut claims = Vec::new(alloc);
    put_of_logs(message, &mut claims)?;
    put_of_others(message, &mut claims)?;
    put_confirmation(message, &mut claims)?;
    Ok(claims)
}
