//! What a party is made of, and the file of its journal.

ghost use Rattle.std.specs.Prelude.{◌≡◌, ◌⊎◌, ◌∷◌, [], ℕ, List, Ok, Err, true, IfOk, IfErr};
ghost use Rattle.ar_base.specs.Gives.{GivesUnless};
ghost use Rattle.ar_base.specs.Prefixes.{BeginsWith};
ghost use Rattle.ar_statement.specs.Claims.{party};
ghost use Rattle.ar_statement.specs.Ranges.{is_witness};
ghost use Rattle.arpki_party.specs.FirstKeys.{may_have};
ghost use Rattle.arpki_party.specs.Made.{IsUnread, parts_taken};
ghost use Rattle.arpki_party.specs.Marks.{belonging, mark_of};
ghost use Rattle.arpki_party.specs.Refused.{IsOfFile};
ghost use Rattle.arpki_party.specs.declared.not_opened.NotOpened.TheVariants.{Memory};
ghost use Rattle.file_disk.specs.File.{IsJustOpened};
ghost use Rattle.lms_tree.specs.Key.{public_of};
ghost use Rattle.party_keys.specs.Directory.{keys_of};
ghost use Rattle.party_keys.specs.Learning.{is_key};
ghost use Rattle.sha2.specs.Sha256.{sha256};

use crate::files::{bytes_of, first_directory_in};
use crate::not_opened::NotOpened;
use crate::secret::key_in;
use ar_council::key_told;
use ar_lines::letter_of;
use ar_statement::{Party, Role};
use file_disk::{FileDisk, FileFault};
use lms_tree::{LmsKey, LmsPublic};
use party_keys::Directory;
use sha2::{Digest, Sha256};
use std::alloc::Global;
use std::io::ErrorKind;

/// What a party is made of: its number, its directory and its first key; and the mark of its journal.
#[derive(Drop)]
pub(crate) struct Parts {
    pub number: u16,
    pub directory: Directory,
    pub key: LmsKey,
    pub mark: [u8; 8],
}

/// The digest of what a journal belongs to: the role's number u8, the party's number u16, the text of its first key, and the text of
/// its directory's file.
#[tactic(auto, unfolding(ar_bytes::specs::RoundTrip::number_text))]
fn belonging(party: Party, key: &LmsPublic, directory: &[u8]) -> [u8; 32]
    ensures { result ≡ sha256 (belonging party key.now directory.now) }
{
    let mut hasher = Sha256::new();
    hasher.update(&[party.role.number()]);
    hasher.update(&party.number.to_be_bytes());
    hasher.update(&key.bytes());
    hasher.update(directory);
    hasher.finalize()
}

/// The mark of a party's journal: `ARPL`, `ARPA` or `ARPD`, and the first 4 bytes of the digest of what it belongs to.
fn mark_of(party: Party, key: &LmsPublic, directory: &[u8]) -> [u8; 8]
    ensures { result ≡ mark_of party key.now directory.now }
{
    let digest = belonging(party, key, directory);
    [
        b'A',
        b'R',
        b'P',
        letter_of(party.role),
        digest[0],
        digest[1],
        digest[2],
        digest[3],
    ]
}

/// Whether two keys are one, by their texts.
fn is_same(one: &LmsPublic, other: &LmsPublic) -> bool
    ensures text { result ≡ is_key one.now other.now }
    ensures key { result ≡ true → one.now ≡ other.now }
{
    key_told(one);
    key_told(other);
    one.bytes() == other.bytes()
}

/// Whether the party may have this as its first key: a log or an authority where the directory says so; of an owner it says nothing.
fn may_have(directory: &Directory, party: Party, key: &LmsPublic) -> bool
    ensures may { result ≡ may_have directory.now party key.now }
    ensures own { result ≡ true → is_witness party.role ≡ true
        → BeginsWith (keys_of directory.now party) (key.now ∷ []) }
{
    if !party.role.is_witness() {
        return true;
    }
    match directory.key(party, 0) {
        Some(known) => is_same(known, key),
        None => false,
    }
}

/// What the party with this role and number is made of, by the texts of its directory and its secret's file.
fn parts_in(
    alloc: Global,
    role: Role,
    number: u16,
    directory: &[u8],
    secret: &[u8],
) -> Result<Parts, NotOpened>
    ensures made { GivesUnless Memory (λ parts. parts) result
        (parts_taken role number directory.now secret.now) }
    ensures own { IfOk result (λ parts. is_witness role ≡ true
        → keys_of parts.directory (party role number) ≡ public_of parts.key ∷ []) }
{
    let keys = first_directory_in(alloc, directory)?;
    let key = key_in(alloc, secret, role, number)?;
    let party = role.party(number);
    let public = key.public();
    if !may_have(&keys, party, &public) {
        return Err(NotOpened::OtherKey);
    }
    Ok(Parts {
        number,
        mark: mark_of(party, &public, directory),
        directory: keys,
        key,
    })
}

/// The same, by these files.
pub(crate) fn parts_of(
    rt: &HostRuntime,
    role: Role,
    number: u16,
    directory: &str,
    secret: &str,
) -> Result<Parts, NotOpened>
    ensures made { IfOk result (λ parts. (directory secret : List ℕ)
        × (parts_taken role number directory secret ≡ Ok parts)) }
    // A log or an authority begins with its first key: its directory has this one of it, and no other.
    ensures own { IfOk result (λ parts. is_witness role ≡ true
        → keys_of parts.directory (party role number) ≡ public_of parts.key ∷ []) }
    ensures refused { IfErr result (λ e. IsUnread e ⊎ ((directory secret : List ℕ)
        × (parts_taken role number directory secret ≡ Err e))) }
{
    let directory = bytes_of(rt, directory, "of the directory")?;
    let secret = bytes_of(rt, secret, "of the secret")?;
    parts_in(rt.alloc(), role, number, &directory, &secret)
}

/// Opens the file of a journal, or makes an empty one.
pub(crate) fn open_disk(rt: &HostRuntime, path: &str) -> Result<FileDisk, NotOpened>
    ensures opened { IfOk result IsJustOpened }
    ensures refused { IfErr result IsOfFile }
{
    match FileDisk::open(rt, path) {
        Ok(disk) => Ok(disk),
        Err(FileFault::Memory) => Err(NotOpened::Memory),
        Err(FileFault::System(error)) if error.kind() == ErrorKind::OutOfMemory => {
            Err(NotOpened::Memory)
        }
        Err(fault) => Err(NotOpened::Journal(fault)),
    }
}
