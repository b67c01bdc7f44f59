//! The checks that rows share: each holds, or is its refusal.
ghost use Rattle.std.specs.Prelude.{◌≡◌, ◌==◌, [], ◌∷◌};
ghost use Rattle.std.specs.List.{list_any};
ghost use Rattle.std.specs.Option.{option_map};
ghost use Rattle.ar_council.specs.Council.{council_of};
ghost use Rattle.ar_statement.specs.Claims.{claim_of, text_of};
ghost use Rattle.log_sending.specs.Checks.{book_refusal, enough, in_epoch, in_turn, leaves_left, no_vote, not_stated, not_voted, same_base, turn_of};

use crate::LogRefusal;
use ar_council::{has_leaf, has_leaves};
use ar_statement::Statement;
use epoch_log::{EpochLog, Stated, Voted, own_vote};
use key_roll::{BookFault, RollBook};
use party_keys::Directory;

/// That the epoch is the log's own.
pub fn in_epoch(log: &EpochLog, epoch: u64) -> Result<(), LogRefusal>
    ensures { result ≡ in_epoch log.now.state epoch }
{
    if epoch == log.epoch() {
        Ok(())
    } else {
        Err(LogRefusal::WrongEpoch(log.epoch()))
    }
}

/// The log whose turn it is in an epoch.
pub fn turn_of(directory: &Directory, epoch: u64) -> u16
    ensures { result ≡ turn_of (council_of directory.now) epoch }
{
    (epoch % directory.logs() as u64) as u16
}

/// That it is this log's turn in an epoch.
pub fn in_turn(directory: &Directory, epoch: u64, log: u16) -> Result<(), LogRefusal>
    ensures { result ≡ in_turn (council_of directory.now) epoch log }
{
    let turn = turn_of(directory, epoch);
    if log == turn {
        Ok(())
    } else {
        Err(LogRefusal::NotCoordinator(turn))
    }
}

/// That there is no vote.
fn no_vote(vote: Option<&Voted>) -> Result<(), LogRefusal>
    ensures { result ≡ no_vote (option_map (λ v. v.now) vote.entry) }
{
    match vote {
        None => Ok(()),
        Some(vote) => Err(LogRefusal::AlreadyVoted(vote.root)),
    }
}

/// That the log has not voted in its epoch.
pub fn not_voted(log: &EpochLog) -> Result<(), LogRefusal>
    ensures { result ≡ not_voted log.now.state }
{
    no_vote(own_vote(&log.record().voted, log.epoch()))
}

/// Whether what is stated is of an epoch.
fn has_stated(stated: &[Stated], epoch: u64) -> bool
    ensures { result ≡ list_any (λ t. t.epoch == epoch) stated.now }
{
    stated.iter().any(|s| s.epoch == epoch)
}

/// That the log has stated nothing in its epoch.
pub fn not_stated(log: &EpochLog) -> Result<(), LogRefusal>
    ensures { result ≡ not_stated log.now.state }
{
    if has_stated(&log.record().stated, log.epoch()) {
        Err(LogRefusal::AlreadyStated)
    } else {
        Ok(())
    }
}

/// That the base is the root of the log's table, as it is before it ripens.
pub(crate) fn same_base(log: &EpochLog, base: &[u8; 32]) -> Result<(), LogRefusal>
    ensures { result ≡ same_base log.now.state base.now }
{
    let root = log.table().root();
    if *base == root {
        Ok(())
    } else {
        Err(LogRefusal::WrongBase(root))
    }
}

/// That so many votes are a quorum.
pub fn enough(directory: &Directory, count: usize) -> Result<(), LogRefusal>
    ensures { result ≡ enough (council_of directory.now) count }
{
    if directory.quorum() <= count {
        Ok(())
    } else {
        Err(LogRefusal::FewVotes(count))
    }
}

/// That the newest key has a leaf for a statement, if it needs one.
pub fn leaf_left(book: &RollBook, statement: &Statement) -> Result<(), LogRefusal>
    ensures { result ≡ leaves_left book.now.book (text_of (claim_of statement.now) ∷ []) }
{
    if has_leaf(book, statement) {
        Ok(())
    } else {
        Err(LogRefusal::Spent)
    }
}

/// That the newest key has leaves for two statements, where they need them.
pub fn leaves_left(book: &RollBook, first: &Statement, second: &Statement) -> Result<(), LogRefusal>
    ensures { result ≡ leaves_left book.now.book
        (text_of (claim_of first.now) ∷ (text_of (claim_of second.now) ∷ [])) }
{
    if has_leaves(book, first, second) {
        Ok(())
    } else {
        Err(LogRefusal::Spent)
    }
}

/// Why a statement is not entered, as a refusal.
pub fn book_refusal(fault: BookFault) -> LogRefusal
    ensures { result ≡ book_refusal fault }
{
    match fault {
        BookFault::Spent => LogRefusal::Spent,
        BookFault::Memory => LogRefusal::Memory,
    }
}
