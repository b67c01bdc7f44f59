ghost use Rattle.std.specs.Prelude.{◌≡◌, ◌<◌, true, IfSome};
ghost use Rattle.script_text.specs.Forms.{judged_of, lms_of, new_owner_of, number_with, ots_of, party_count_of, quorum_of, receiver_of, witness_of};
ghost use Rattle.ar_lines.specs.Forms.{number_in, number_of};
ghost use Rattle.party_keys.specs.Directory.{is_party_count, is_quorum};

use ar_lines::{number_in, number_of, party_of};
use ar_statement::{Party, Role};
use party_keys::{is_party_count, is_quorum};

/// A number below 256.
pub(crate) fn byte_of(word: &[u8]) -> Option<u8>
    ensures { result ≡ number_in 0 255 word.now }
{
    let number = number_in(0, 255, word)?;
    Some(number as u8)
}

/// A number of 32 bits.
pub(crate) fn short_of(word: &[u8]) -> Option<u32>
    ensures { result ≡ number_in 0 0xffff_ffff word.now }
{
    let number = number_in(0, 0xffff_ffff, word)?;
    Some(number as u32)
}

/// How many logs, or authorities, a word says that there are.
#[tactic(auto, unfolding(crate::specs::Forms::party_count_of))]
pub fn party_count_of(word: &[u8]) -> Option<u16>
    ensures value { result ≡ party_count_of word.now }
    ensures fits { IfSome result (λ n. is_party_count n ≡ true) }
{
    let count = number_of(word)? as usize;
    if !is_party_count(count) {
        return None;
    }
    Some(count as u16)
}

/// How many of so many logs make a quorum, as a word says.
#[tactic(auto, unfolding(crate::specs::Forms::quorum_of))]
pub fn quorum_of(logs: u16, word: &[u8]) -> Option<u16>
    ensures value { result ≡ quorum_of logs word.now }
    ensures fits { IfSome result (λ q. is_quorum q logs ≡ true) }
{
    let quorum = number_of(word)? as usize;
    if !is_quorum(quorum, usize::from(logs)) {
        return None;
    }
    Some(quorum as u16)
}

/// The number of an LMS type that keys may have.
#[tactic(auto, unfolding(crate::specs::Forms::lms_of))]
pub(crate) fn lms_of(word: &[u8]) -> Option<u32>
    ensures { result ≡ lms_of word.now }
{
    match number_of(word)? {
        5 => Some(5),
        6 => Some(6),
        7 => Some(7),
        _ => None,
    }
}

/// The number of an LM-OTS type that keys of this LMS type may have.
#[tactic(auto, unfolding(crate::specs::Forms::ots_of))]
pub(crate) fn ots_of(lms: u32, word: &[u8]) -> Option<u32>
    ensures { result ≡ ots_of lms word.now }
{
    match (lms, number_of(word)?) {
        (5 | 6 | 7, 3) => Some(3),
        (5 | 6, 4) => Some(4),
        _ => None,
    }
}

/// The number of a party of this role.
#[tactic(auto, unfolding(crate::specs::Forms::number_with))]
pub(crate) fn number_with(role: Role, word: &[u8]) -> Option<u16>
    ensures { result ≡ number_with role word.now }
{
    let party = party_of(word)?;
    if party.role.number() != role.number() {
        return None;
    }
    Some(party.number)
}

/// A log or an authority.
#[tactic(auto, unfolding(crate::specs::Forms::witness_of))]
pub(crate) fn witness_of(word: &[u8]) -> Option<Party>
    ensures { result ≡ witness_of word.now }
{
    let party = party_of(word)?;
    if !party.role.is_witness() {
        return None;
    }
    Some(party)
}

/// The number of an owner that a script may make.
#[tactic(auto, unfolding(crate::specs::Forms::new_owner_of))]
pub(crate) fn new_owner_of(word: &[u8]) -> Option<u16>
    ensures { result ≡ new_owner_of word.now }
{
    let owner = number_with(Role::Owner, word)?;
    if owner >= 512 {
        return None;
    }
    Some(owner)
}

/// To whom bytes go: a party, or all logs for `None`.
#[tactic(auto, unfolding(crate::specs::Forms::receiver_of))]
pub(crate) fn receiver_of(word: &[u8]) -> Option<Option<Party>>
    ensures { result ≡ receiver_of word.now }
{
    if word == b"logs".as_slice() {
        return Some(None);
    }
    let party = party_of(word)?;
    Some(Some(party))
}

/// The number of a message, or the newest that goes to a client for `None`.
#[tactic(auto, unfolding(crate::specs::Forms::judged_of))]
pub(crate) fn judged_of(word: &[u8]) -> Option<Option<u64>>
    ensures { result ≡ judged_of word.now }
{
    if word == b"last".as_slice() {
        return Some(None);
    }
    let number = number_of(word)?;
    Some(Some(number))
}
