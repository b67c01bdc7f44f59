ghost use Rattle.std.specs.Prelude.{◌≡◌, [], IfOk, length};
ghost use Rattle.ar_base.specs.Gives.{GivesUnless};
ghost use Rattle.arpki_c.specs.Given.{directory_given, entry_party, fault_number, first_directory, is_sized, keys_behind, with_each, with_entry};
ghost use Rattle.arpki_c.specs.declared.keys.KeysFault.TheVariants.{Memory};

use ar_statement::{Party, Role};
use lms_tree::LmsPublic;
use party_keys::{Directory, is_party_count, is_quorum};
use std::alloc::{AllocError, AllocFailed, Global};

/// A next key of a log or an authority, as `arpki_learn` wrote it. The caller keeps it.
#[repr(C)]
#[derive(Clone, Copy, PartialEq, Eq)]
pub struct Entry {
    /// The generation of the key that announced it, from 0; its own is the next.
    pub generation: u32,
    /// The party's place among those of its role, from 0.
    pub number: u16,
    /// 1 a log, 2 an authority.
    pub role: u16,
    /// The key's text.
    pub key: [u8; 56],
}

/// What a client trusts: the keys of generation 0 of all logs and of all authorities, each by its place; next keys
/// in the order in which they were learnt; and how many logs make a quorum.
#[repr(C)]
#[derive(Drop)]
pub struct Keys<'a> {
    pub logs: &'a [[u8; 56]],
    pub authorities: &'a [[u8; 56]],
    pub learnt: &'a [Entry],
    pub quorum: usize,
}

/// What is wrong with a caller's keys; the first where there are several. Its number is 1 to 6, in this order.
#[derive(Clone, Copy, PartialEq, Eq)]
pub(crate) enum KeysFault {
    /// There are not 3 to 16 logs.
    Logs,
    /// There are not 3 to 16 authorities.
    Authorities,
    /// Twice the quorum is not more than the logs and two, or the quorum is more than all logs.
    Quorum,
    /// The key of a log is the text of none.
    LogKey,
    /// The key of an authority is the text of none.
    AuthorityKey,
    /// The role of an entry is neither 1 nor 2, or its key is the text of none.
    Entry,
    /// Memory ran out. It has no number.
    Memory,
}

impl From<AllocError> for KeysFault {
    ghost from_gives = { λ _ e. e ≡ Memory };

    fn from(_error: AllocError) -> KeysFault {
        KeysFault::Memory
    }
}

impl<T: Drop> From<AllocFailed<T>> for KeysFault {
    ghost from_gives = { λ _ e. e ≡ Memory };

    fn from(_error: AllocFailed<T>) -> KeysFault {
        KeysFault::Memory
    }
}

impl KeysFault {
    /// Its number.
    pub(crate) fn number(self) -> u32
        ensures { result ≡ fault_number self }
    {
        match self {
            KeysFault::Logs => 1,
            KeysFault::Authorities => 2,
            KeysFault::Quorum => 3,
            KeysFault::LogKey => 4,
            KeysFault::AuthorityKey => 5,
            KeysFault::Entry => 6,
            KeysFault::Memory => 0,
        }
    }
}

/// Whether there may be so many logs and authorities, and this quorum.
fn is_sized(keys: &Keys) -> Result<(), KeysFault>
    ensures { result ≡ is_sized keys.now }
{
    if !is_party_count(keys.logs.len()) {
        return Err(KeysFault::Logs);
    }
    if !is_party_count(keys.authorities.len()) {
        return Err(KeysFault::Authorities);
    }
    if !is_quorum(keys.quorum, keys.logs.len()) {
        return Err(KeysFault::Quorum);
    }
    Ok(())
}

/// The keys of these texts, or the fault where one is the text of none.
#[tactic(auto, unfolding(crate::specs::Given::keys_behind))]
fn read_keys(
    alloc: Global,
    texts: &[[u8; 56]],
    fault: KeysFault,
) -> Result<Vec<LmsPublic>, KeysFault>
    ensures tells { GivesUnless Memory (λ keys.
        keys.items) result (keys_behind fault [] texts.now) }
    ensures count { IfOk result (λ keys. length keys.items ≡ length texts.now) }
{
    let mut keys = Vec::new(alloc);
    for text in texts {
        let Some(key) = LmsPublic::read(text) else {
            return Err(fault);
        };
        keys.push(key)?;
    }
    Ok(keys)
}

/// The directory of the keys of generation 0.
fn first_directory(alloc: Global, keys: &Keys) -> Result<Directory, KeysFault>
    ensures { GivesUnless Memory (λ directory. directory) result (first_directory keys.now) }
{
    is_sized(keys)?;
    let logs = read_keys(alloc, keys.logs, KeysFault::LogKey)?;
    let authorities = read_keys(alloc, keys.authorities, KeysFault::AuthorityKey)?;
    match Directory::new(logs, authorities, keys.quorum) {
        Ok(directory) => Ok(directory),
        // The counts were tested before.
        Err(_) => unreachable!(),
    }
}

/// The party of an entry.
fn party_of(entry: &Entry) -> Option<Party>
    ensures { result ≡ entry_party entry.now }
{
    match entry.role {
        1 => Some(Role::LogServer.party(entry.number)),
        2 => Some(Role::Authority.party(entry.number)),
        _ => None,
    }
}

/// Takes an entry as its party's next key.
pub(crate) fn take(
    alloc: Global,
    directory: Directory,
    entry: &Entry,
) -> Result<Directory, KeysFault>
    ensures { GivesUnless Memory (λ directory. directory) result (with_entry directory entry.now) }
{
    let mut directory = directory;
    let Some(party) = party_of(entry) else {
        return Err(KeysFault::Entry);
    };
    let Some(key) = LmsPublic::read(&entry.key) else {
        return Err(KeysFault::Entry);
    };
    directory.adopt(alloc, party, entry.generation, key)?;
    Ok(directory)
}

/// Takes entries, in their order.
#[tactic(auto, unfolding(crate::specs::Given::with_each))]
fn take_each(alloc: Global, directory: Directory, entries: &[Entry]) -> Result<Directory, KeysFault>
    ensures { GivesUnless Memory (λ directory. directory) result (with_each directory entries.now) }
{
    let mut directory = directory;
    for entry in entries {
        directory = take(alloc, directory, entry)?;
    }
    Ok(directory)
}

/// The directory that a caller's keys make, or what is wrong with them.
#[tactic(auto, unfolding(crate::specs::Given::directory_given))]
pub(crate) fn directory_of(alloc: Global, keys: &Keys) -> Result<Directory, KeysFault>
    ensures { GivesUnless Memory (λ directory. directory) result (directory_given keys.now) }
{
    let directory = first_directory(alloc, keys)?;
    take_each(alloc, directory, keys.learnt)
}
