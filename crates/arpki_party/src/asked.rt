//! What the program's words ask.

ghost use Rattle.std.specs.Prelude.{◌≡◌};
ghost use Rattle.std.specs.Result.{result_map_both};
ghost use Rattle.arpki_party.specs.Words.{purpose_of, purpose_in, texts, role_of, kind_named, number_named, most_number};

use ar_lines::number_in;
use ar_statement::Role;
use thiserror::Error;

/// What a party of this program may be.
#[derive(Clone, Copy, Debug, PartialEq, Eq)]
pub(crate) enum PartyKind {
    Log,
    Authority,
    Owner,
}

impl PartyKind {
    /// Its role.
    pub(crate) fn role(self) -> Role
        ensures { result ≡ role_of self }
    {
        match self {
            PartyKind::Log => Role::LogServer,
            PartyKind::Authority => Role::Authority,
            PartyKind::Owner => Role::Owner,
        }
    }
}

/// What is asked.
#[derive(Debug, Drop)]
pub(crate) enum Asked<'a> {
    /// To say how the program is called.
    Help,
    /// To write the key of a party.
    Key {
        kind: PartyKind,
        number: u16,
        /// The path of its secret.
        secret: &'a str,
    },
    /// To be a party.
    Party {
        kind: PartyKind,
        number: u16,
        /// The paths of its directory, its secret and its journal.
        directory: &'a str,
        secret: &'a str,
        journal: &'a str,
    },
}

/// Why words ask nothing.
#[derive(Clone, Copy, Debug, PartialEq, Eq, Error)]
pub(crate) enum NotAsked {
    #[error("there are too few or too many words")]
    Count,
    #[error("a role is 'log', 'authority' or 'owner'")]
    Role,
    #[error("a number is 0 to 15 of a log or an authority, and 0 to 65535 of an owner")]
    Number,
}

/// What this word names.
fn kind_named(word: &str) -> Result<PartyKind, NotAsked>
    ensures { result ≡ kind_named word.now }
{
    match word {
        "log" => Ok(PartyKind::Log),
        "authority" => Ok(PartyKind::Authority),
        "owner" => Ok(PartyKind::Owner),
        _ => Err(NotAsked::Role),
    }
}

/// The greatest number of such a party.
fn most_number(kind: PartyKind) -> u64
    ensures { result ≡ most_number kind }
{
    match kind {
        PartyKind::Owner => 65_535,
        PartyKind::Log | PartyKind::Authority => 15,
    }
}

/// The number of a party: below 16 of a log or an authority, and below 65,536 of an owner.
fn number_named(kind: PartyKind, word: &str) -> Result<u16, NotAsked>
    ensures { result ≡ number_named kind word.now }
{
    match number_in(0, most_number(kind), word.as_bytes()) {
        Some(number) => Ok(number as u16),
        None => Err(NotAsked::Number),
    }
}

/// What the words ask.
pub(crate) fn read_words<'a>(words: &'a [String]) -> Result<Asked<'a>, NotAsked>
    ensures { result_map_both purpose_in (λ why. why) result ≡ purpose_of (texts words.now) }
{
    match words {
        [word] if word.as_str() == "--help" || word.as_str() == "-h" => Ok(Asked::Help),
        [key, kind, number, secret] if key.as_str() == "key" => {
            let kind = kind_named(kind.as_str())?;
            Ok(Asked::Key {
                kind,
                number: number_named(kind, number.as_str())?,
                secret: secret.as_str(),
            })
        }
        [kind, number, directory, secret, journal] => {
            let kind = kind_named(kind.as_str())?;
            Ok(Asked::Party {
                kind,
                number: number_named(kind, number.as_str())?,
                directory: directory.as_str(),
                secret: secret.as_str(),
                journal: journal.as_str(),
            })
        }
        _ => Err(NotAsked::Count),
    }
}
