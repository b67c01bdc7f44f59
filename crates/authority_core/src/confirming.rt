//! What an authority checks of a confirmation that a log made.

ghost use Rattle.std.specs.Prelude.{◌≡◌, ◌++◌, map, IfOk, OnOk};
ghost use Rattle.ar_base.specs.FirstFailing.{first_failing};
ghost use Rattle.tree_proof.specs.Fold.{digests_in};
ghost use Rattle.ar_message.specs.Messages.{path_in, shown_in};
ghost use Rattle.ar_message.specs.Confirmation.{bottom_in, digest_in};
ghost use Rattle.ar_message.specs.Shown.{shows};
ghost use Rattle.authority_core.specs.Confirming.{content_tests, kept_of, log_claimed, parties_of, voted_by, voters_of};
ghost use Rattle.party_keys.specs.Signers.{seen_in};
ghost use Rattle.authority_core.specs.ConfirmRows.{half_claims, log_claims};
ghost use Rattle.authority_core.specs.Calls.{kept_claim};
ghost use Rattle.authority_core.specs.declared.refusal.AuthorityRefusal.TheVariants.{Memory};
ghost use Rattle.ar_base.specs.Gives.{GivesUnless};
ghost use Rattle.ar_statement.specs.Claims.{log_party, text_of};

use crate::entries::Kept;
use crate::record::kept_statement;
use crate::refusal::AuthorityRefusal;
use ar_base::Items;
use ar_message::{Body, Confirming, Vote};
use ar_statement::{Party, Role, SeenText, Statement, Text};
use party_keys::Claimed;
use std::alloc::{AllocError, Global};
use tree_proof::{Bottom, check_absent, check_present};
use vote_quorum::distinct_count;

// ---- what the confirmation says

fn digest_in(body: &Body) -> Option<[u8; 32]>
    ensures { result ≡ digest_in (shown_in body.now) }
{
    match body {
        Body::Present { cert, .. } => Some(cert.digest()),
        Body::Absent { .. } => None,
    }
}

fn bottom_in(body: &Body) -> Option<Bottom>
    ensures { result ≡ bottom_in (shown_in body.now) }
{
    match body {
        Body::Present { .. } => None,
        Body::Absent { bottom, .. } => Some(*bottom),
    }
}

fn path_in(body: &Body) -> &[u8]
    ensures { result.now ≡ path_in body.now }
{
    match body {
        Body::Present { path, .. } => path.as_slice(),
        Body::Absent { path, .. } => path.as_slice(),
    }
}

/// The digests that lie in bytes one after another, 32 bytes each.
fn digests_in(alloc: Global, bytes: &[u8]) -> Result<Vec<[u8; 32]>, AllocError>
    ensures { IfOk result (λ digests. digests.items ≡ digests_in bytes.now) }
{
    let (digests, _) = bytes.as_chunks::<32>();
    digests.to_vec(alloc)
}

/// What is kept of it.
pub(crate) fn kept_of(alloc: Global, part: &Confirming) -> Result<Kept, AllocError>
    ensures { IfOk result (λ kept. kept ≡ kept_of part.now) }
{
    let name = part.name.view().to_name(alloc)?;
    let steps = digests_in(alloc, path_in(&part.body))?;
    Ok(Kept {
        epoch: part.epoch,
        name,
        certificate: digest_in(&part.body),
        base: part.base,
        root: part.root,
        bottom: bottom_in(&part.body),
        steps: Items::from_vec(steps),
    })
}

// ---- who signed

/// A party is said to have confirmed what is kept.
fn confirmed_by<'a>(party: Party, kept: &Kept, signature: &'a [u8]) -> Claimed<'a>
    ensures { result ≡ record {
      party = party;
      text = text_of (kept_claim party kept.now);
      signature = signature.now;
    } }
{
    let text = Text::of(&kept_statement(party, kept));
    Claimed::new(party, text, signature)
}

/// A log is said to have voted for it.
fn voted_by<'a>(part: &Confirming, vote: &'a Vote) -> Claimed<'a>
    ensures { result ≡ voted_by part.now vote.now }
{
    let text = Text::of(&Statement::Vote {
        log: vote.log,
        epoch: part.epoch,
        base: part.base,
        root: part.root,
    });
    let log = Role::LogServer.party(vote.log);
    Claimed::new(log, text, vote.signature.as_slice())
}

fn add_votes<'a>(
    part: &Confirming,
    votes: &'a [Vote],
    claims: &mut Vec<Claimed<'a>>,
) -> Result<(), AllocError>
    ensures { OnOk result
        (claims.new.items ≡ claims.old.items ++ map (voted_by part.now) votes.now) }
{
    for vote in votes {
        claims.push(voted_by(part, vote))?;
    }
    Ok(())
}

fn log_claimed<'a>(part: &'a Confirming, kept: &Kept) -> Claimed<'a>
    requires { kept.now ≡ kept_of part.now }
    ensures { result ≡ log_claimed part.now }
{
    let log = Role::LogServer.party(part.log);
    confirmed_by(log, kept, part.signature.as_slice())
}

/// What the log and the logs that voted are said to have signed.
pub(crate) fn log_claims<'a>(
    alloc: Global,
    part: &'a Confirming,
    kept: &Kept,
) -> Result<Vec<Claimed<'a>>, AllocError>
    requires { kept.now ≡ kept_of part.now }
    ensures { IfOk result (λ claims. claims.items ≡ log_claims part.now) }
{
    let mut claims = Vec::new(alloc);
    claims.push(log_claimed(part, kept))?;
    add_votes(part, &part.votes.list, &mut claims)?;
    Ok(claims)
}

/// What the log, the first authority and the logs that voted are said to have signed.
pub(crate) fn half_claims<'a>(
    alloc: Global,
    part: &'a Confirming,
    kept: &Kept,
    first_signature: &'a [u8],
) -> Result<Vec<Claimed<'a>>, AllocError>
    requires { kept.now ≡ kept_of part.now }
    ensures { IfOk result (λ claims. claims.items ≡ half_claims part.now first_signature.now) }
{
    let mut claims = Vec::new(alloc);
    claims.push(log_claimed(part, kept))?;
    let first = Role::Authority.party(part.first);
    claims.push(confirmed_by(first, kept, first_signature))?;
    add_votes(part, &part.votes.list, &mut claims)?;
    Ok(claims)
}

fn add_voters(votes: &[Vote], parties: &mut Vec<Party>) -> Result<(), AllocError>
    ensures { OnOk result
        (parties.new.items ≡ parties.old.items ++ map (λ v. log_party v.log) votes.now) }
{
    for vote in votes {
        parties.push(Role::LogServer.party(vote.log))?;
    }
    Ok(())
}

/// The log, the logs that voted, and an authority.
pub(crate) fn parties_of(
    alloc: Global,
    part: &Confirming,
    authority: u16,
) -> Result<Vec<Party>, AllocError>
    ensures { IfOk result (λ parties. parties.items ≡ parties_of part.now authority) }
{
    let mut parties = Vec::new(alloc);
    parties.push(Role::LogServer.party(part.log))?;
    add_voters(&part.votes.list, &mut parties)?;
    parties.push(Role::Authority.party(authority))?;
    Ok(parties)
}

/// What is seen where these claims are accepted.
pub(crate) fn seen_in(alloc: Global, claims: &[Claimed]) -> Result<Vec<SeenText>, AllocError>
    ensures { IfOk result (λ seen. seen.items ≡ map seen_in claims.now) }
{
    let mut seen = Vec::new(alloc);
    for claim in claims {
        seen.push(claim.seen())?;
    }
    Ok(seen)
}

// ---- the content

// Whether the table with its root has for the name what the confirmation says.
#[tactic(auto, unfolding(ar_message::specs::Shown::is_shown))]
fn shows(part: &Confirming) -> bool
    ensures { result ≡ shows part.now }
{
    let key = part.name.digest();
    match &part.body {
        Body::Present { cert, path } => {
            cert.name.text() == part.name.text()
                && check_present(&key, &cert.value(), path.as_slice(), &part.root)
        }
        Body::Absent { bottom, path } => check_absent(&key, bottom, path.as_slice(), &part.root),
    }
}

// The logs that voted.
fn voters_of(alloc: Global, votes: &[Vote]) -> Result<Vec<u16>, AllocError>
    ensures { IfOk result (λ voters. voters.items ≡ map (λ v. v.log) votes.now) }
{
    let mut voters = Vec::new(alloc);
    for vote in votes {
        voters.push(vote.log)?;
    }
    Ok(voters)
}

// A quorum voted, the path leads to the root, and the authorities are two; else the first that is not so.
fn content(quorum: usize, part: &Confirming, voters: &[u16]) -> Result<(), AuthorityRefusal>
    requires { voters.now ≡ voters_of part.now }
    ensures { result ≡ first_failing (content_tests quorum part.now) }
{
    let count = distinct_count(voters);
    if count < quorum {
        return Err(AuthorityRefusal::FewVotes(count));
    }
    if !shows(part) {
        return Err(AuthorityRefusal::BadPath);
    }
    if part.first == part.second {
        return Err(AuthorityRefusal::SameAuthority);
    }
    Ok(())
}

/// The checks of the content, in order.
pub(crate) fn check_content(
    alloc: Global,
    quorum: usize,
    part: &Confirming,
) -> Result<(), AuthorityRefusal>
    ensures { GivesUnless Memory (λ u. u) result (first_failing (content_tests quorum part.now)) }
{
    let voters = voters_of(alloc, &part.votes.list)?;
    content(quorum, part, &voters)
}
