ghost use Rattle.std.specs.Prelude.{◌≡◌};
ghost use Rattle.log_sending.specs.declared.refusal.LogRefusal.TheVariants.{Memory};

use ar_statement::Party;
use domain_table::ChangeRefusal;
use std::alloc::AllocError;
use std::fmt;
use thiserror::Error;

/// Why a step of a log is refused: the first check of its row that fails, with the values that are printed behind its
/// number. After a refusal the log is as it was.
#[derive(Clone, Copy, PartialEq, Eq, Error)]
pub enum LogRefusal {
    /// L1: the bytes are no message; the place of the first field that fails.
    Form(usize),
    /// L2: a message that logs do not take.
    NotForLog,
    /// L3: a signer, or an authority that is asked for, is not in the directory; the first such one.
    Unknown(Party),
    /// L4: a signature is bad; the first such one's party, and the number of the test that fails.
    BadSignature(Party, u8),
    /// L5: the message is not of the log's epoch, or no epoch is decided that could be confirmed; the log's epoch.
    WrongEpoch(u64),
    /// L6: it is another log's turn; the number of that log.
    NotCoordinator(u16),
    /// L7: the log has voted in the epoch; the root that it voted for.
    AlreadyVoted([u8; 32]),
    /// L8: the log has stated what it did in the epoch.
    AlreadyStated,
    /// L9: the base is not the root of the log's table; that root.
    WrongBase([u8; 32]),
    /// L10: the table refuses a change; the index of the first such one, from 0, and why.
    BadChange(usize, ChangeRefusal),
    /// L11: the changes lead to another root; the one that they lead to.
    WrongRoot([u8; 32]),
    /// L12: the votes are no quorum; how many there are.
    FewVotes(usize),
    /// L13: 256 changes are queued.
    QueueFull,
    /// L14: the newest key has too few leaves left for what the step signs.
    Spent,
    /// L15: by the statuses a root could still have a quorum; the root that is reported most often, where one is, and
    /// how often.
    CouldBeDecided(Option<[u8; 32]>, usize),
    /// L16: another key is known as the party's next behind this generation.
    OtherRoll(Party, u32),
    /// L17: the log's newest generation is the last, 999.
    LastGeneration,
    /// Memory ran out. It is no row's answer.
    Memory,
}

impl From<AllocError> for LogRefusal {
    ghost from_gives = { λ _ e. e ≡ Memory };

    fn from(_error: AllocError) -> LogRefusal {
        LogRefusal::Memory
    }
}

// The refusals that are told without a value.
fn text(refusal: &LogRefusal) -> &'static str {
    match refusal {
        LogRefusal::NotForLog => "a log does not take this message",
        LogRefusal::Unknown(_) => "a party is not in the directory",
        LogRefusal::AlreadyVoted(_) => "the log has voted in its epoch",
        LogRefusal::AlreadyStated => "the log has stated its vote of the epoch",
        LogRefusal::WrongBase(_) => "the base is not the root of the log's table",
        LogRefusal::WrongRoot(_) => "the changes lead to another root",
        LogRefusal::QueueFull => "the queue is full",
        LogRefusal::Spent => "no leaf is left",
        LogRefusal::LastGeneration => "the last generation has no next",
        LogRefusal::Memory => "memory ran out",
        _ => "the log refuses",
    }
}

impl fmt::Display for LogRefusal {
    fn fmt<W: fmt::Write>(&self, f: &mut fmt::Formatter<W>) -> fmt::Result {
        use LogRefusal::*;

        match self {
            Form(place) => write!(f, "the field at byte {place} is of no message"),
            BadSignature(_, check) => write!(f, "a signature is bad, by check {check}"),
            WrongEpoch(epoch) => write!(f, "the log's epoch is {epoch}"),
            NotCoordinator(log) => write!(f, "it is the turn of log {log}"),
            BadChange(index, why) => write!(f, "change {index} is refused: {why}"),
            FewVotes(count) => write!(f, "{count} votes are no quorum"),
            CouldBeDecided(_, count) => {
                write!(
                    f,
                    "a root that is reported {count} times could have a quorum"
                )
            }
            OtherRoll(_, generation) => {
                write!(f, "another key is known behind generation {generation}")
            }
            _ => f.write_str(text(self)),
        }
    }
}

impl fmt::Debug for LogRefusal {
    fn fmt<W: fmt::Write>(&self, f: &mut fmt::Formatter<W>) -> fmt::Result {
        fmt::Display::fmt(self, f)
    }
}
