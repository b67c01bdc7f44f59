//! The keys that an authority knows, with the votes that it verified last.
//!
//! Each confirmation of an epoch has the same votes. So those of the confirmation that was accepted last are kept as they
//! were verified, and the same votes for the same value in the same epoch are not verified again. Contracts see the keys
//! alone: to pass over votes that are kept is to verify them, since they were, under the keys as they are.

ghost use Rattle.std.specs.Prelude.{◌≡◌, ◌≤◌, [], length, drop, Ok, Err, IfOk, OnOk, OnErr};
ghost use Rattle.ar_base.specs.Gives.{GivesOrWants};
ghost use Rattle.authority_core.specs.Confirming.{votes_claimed};
ghost use Rattle.authority_core.specs.Verifying.{AreVerified, are_of, are_same_votes, kept_claims, is_same_vote};
ghost use Rattle.party_keys.specs.Learning.{after_adopting, after_learning, learned};
ghost use Rattle.party_keys.specs.Signers.{all_signed, signers_answer};
ghost use Rattle.party_keys.specs.declared.fault.LearnFault.TheVariants as learn_fault;
ghost use Rattle.party_keys.specs.declared.learning.Learned.TheVariants.{New};

use ar_message::{Confirming, Signature, Vote};
use ar_statement::Party;
use lms_tree::LmsPublic;
use party_keys::{Announced, Claimed, Directory, LearnFault, Learned, SignerFault};
use std::alloc::{AllocError, Global};
use std::marker::Model;
use vote_quorum::Value;

/// Votes for one value in one epoch, whose signatures were verified.
#[derive(Debug, Drop)]
pub(crate) struct VerifiedVotes {
    epoch: u64,
    value: Value,
    votes: Vec<Vote>,
}

/// The keys that an authority knows, and the votes that it verified last under them.
#[derive(Debug, Drop)]
pub(crate) struct VerifyingDirectory {
    directory: Directory,
    verified: VerifiedVotes,
}

// Clauses see the keys alone.
impl Model for VerifyingDirectory {
    ghost use Rattle.authority_core.specs.Verifying.{AreVerified};
    ghost use Rattle.party_keys.specs.Directory.{Directory};

    ghost Value = { Directory };

    ghost view = { λ d. d.directory };

    ghost invariant = { λ d. AreVerified d.directory d.verified };
}

// ---- votes

/// Whether both are one vote with one signature.
fn is_same_vote(one: &Vote, other: &Vote) -> bool
    ensures { result ≡ is_same_vote one.now other.now }
{
    one.log == other.log && one.signature.as_slice() == other.signature.as_slice()
}

/// Whether both are the same votes in the same order.
fn are_same_votes(one: &[Vote], other: &[Vote]) -> bool
    ensures { result ≡ are_same_votes one.now other.now }
{
    match one {
        [] => other.is_empty(),
        [vote, rest @ ..] => match other {
            [] => false,
            [other_vote, others @ ..] => {
                is_same_vote(vote, other_vote) && are_same_votes(rest, others)
            }
        },
    }
}

/// The vote once more. The only error here and below is want of memory.
fn copy_vote(alloc: Global, vote: &Vote) -> Result<Vote, AllocError>
    ensures { IfOk result (λ copy. copy ≡ vote.now) }
{
    let bytes = Vec::from_slice(alloc, vote.signature.as_slice())?;
    Ok(Vote {
        log: vote.log,
        signature: Signature { bytes },
    })
}

/// The votes once more.
fn copy_votes(alloc: Global, votes: &[Vote]) -> Result<Vec<Vote>, AllocError>
    ensures { IfOk result (λ copies. copies.items ≡ votes.now) }
{
    let mut copies = Vec::new(alloc);
    for vote in votes {
        copies.push(copy_vote(alloc, vote)?)?;
    }
    Ok(copies)
}

impl VerifiedVotes {
    /// No votes. It takes no memory.
    fn none(alloc: Global) -> VerifiedVotes
        ensures { result.votes.items ≡ [] }
    {
        VerifiedVotes {
            epoch: 0,
            value: Value {
                base: [0; 32],
                root: [0; 32],
            },
            votes: Vec::new(alloc),
        }
    }

    /// The votes of a confirmation, which are verified.
    pub(crate) fn of(alloc: Global, part: &Confirming) -> Result<VerifiedVotes, AllocError>
        ensures { IfOk result (λ v.
            kept_claims v.epoch v.value v.votes.items ≡ votes_claimed part.now) }
    {
        let votes = copy_votes(alloc, &part.votes.list)?;
        Ok(VerifiedVotes {
            epoch: part.epoch,
            value: Value {
                base: part.base,
                root: part.root,
            },
            votes,
        })
    }

    /// Whether they are those of a confirmation.
    fn are_of(&self, part: &Confirming) -> bool
        ensures { result ≡ are_of self.now part.now }
    {
        self.epoch == part.epoch
            && self.value.base == part.base
            && self.value.root == part.root
            && are_same_votes(&self.votes, &part.votes.list)
    }
}

// ---- the keys

impl VerifyingDirectory {
    /// These keys, under which nothing was verified yet. It takes no memory.
    pub(crate) fn new(alloc: Global, directory: Directory) -> VerifyingDirectory
        ensures { result ≡ directory }
    {
        let verified = VerifiedVotes::none(alloc);
        VerifyingDirectory {
            directory,
            verified,
        }
    }

    /// The keys.
    pub(crate) fn directory(&self) -> &Directory
        ensures { result.now ≡ self.now }
    {
        &self.directory
    }

    /// How many logs make a quorum.
    pub(crate) fn quorum(&self) -> usize
        ensures { result ≡ self.now.quorum }
    {
        self.directory.quorum()
    }

    /// Whether the signatures of some claims are accepted, so many of which stand in front of those of a confirmation's
    /// votes; else the first that is not. Votes that are kept are not verified again.
    fn all_signed(
        &self,
        claims: &[Claimed],
        front: usize,
        part: &Confirming,
    ) -> Result<(), SignerFault>
        requires few { front ≤ length claims.now }
        requires votes { drop front claims.now ≡ votes_claimed part.now }
        ensures { result ≡ all_signed self.now claims.now }
    {
        if self.verified.are_of(part) {
            return self.directory.all_signed(&claims[..front]);
        }
        self.directory.all_signed(claims)
    }

    /// Whether each of the parties is known, and then whether the signatures of the claims are accepted, as above.
    pub(crate) fn check_signers(
        &self,
        parties: &[Party],
        claims: &[Claimed],
        front: usize,
        part: &Confirming,
    ) -> Result<(), SignerFault>
        requires few { front ≤ length claims.now }
        requires votes { drop front claims.now ≡ votes_claimed part.now }
        ensures { result ≡ signers_answer self.now parties.now claims.now }
    {
        self.directory.all_known(parties)?;
        self.all_signed(claims, front, part)
    }

    /// Keeps votes that were verified. It takes no memory.
    pub(crate) fn keep(&mut self, verified: VerifiedVotes)
        requires { AreVerified self.old verified }
        ensures { self.new ≡ self.old }
    {
        self.verified = verified;
    }

    /// Takes the key that a party announces, as `Directory::learn` does. Behind a key that is learnt nothing is kept as
    /// verified.
    pub(crate) fn learn(
        &mut self,
        alloc: Global,
        announced: &Announced,
    ) -> Result<Learned, LearnFault>
        ensures answer { GivesOrWants learn_fault.Memory (λ learned.
            learned) result (learned self.old announced.now) }
        ensures memory { result ≡ Err learn_fault.Memory → learned self.old announced.now ≡ Ok New }
        ensures ok { OnOk result (self.new ≡ after_learning self.old announced.now) }
        ensures err { OnErr result (self.new ≡ self.old) }
    {
        self.verified = VerifiedVotes::none(alloc);
        self.directory.learn(alloc, announced)
    }

    /// Takes a party's own next key, as `Directory::adopt` does. Behind it nothing is kept as verified.
    pub(crate) fn adopt(
        &mut self,
        alloc: Global,
        party: Party,
        generation: u32,
        key: LmsPublic,
    ) -> Result<(), AllocError>
        ensures ok { OnOk result (self.new ≡ after_adopting self.old party generation key) }
        ensures err { OnErr result (self.new ≡ self.old) }
    {
        self.verified = VerifiedVotes::none(alloc);
        self.directory.adopt(alloc, party, generation, key)
    }
}
