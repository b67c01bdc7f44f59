//! The lines that a directory, and a question about it, are read from: one call for each. A call reads from where the
//! lines stand, and leaves them behind what it read. The refusal is that of the first line which is not as it should be;
//! `specs/Inquiries.antt` says for each call which lines it reads, and `specs/Written.antt` how they are written.

ghost use Rattle.std.specs.Prelude.{◌≡◌, true, IfOk, length};
ghost use Rattle.arpki_ask.specs.Inquiries.{authorities_at, confirmation_at, directory_at, first_keys_at, key_in_line, keys_at, logs_at, name_at, number_at};
ghost use Rattle.script_text.specs.Forms.{party_count_of, quorum_of};
ghost use Rattle.ar_lines.specs.Readings.{Follows, FollowsUnless, spelled};
ghost use Rattle.party_keys.specs.Directory.{is_party_count, is_quorum};

use crate::rolls::rolls;
use ar_lines::{LineFault, Lines, Refusal, Word};
use ar_names::Name;
use lms_tree::LmsPublic;
use party_keys::Directory;
use script_text::{party_count_of, quorum_of};
use std::alloc::Global;

/// How many logs or authorities a word says that there are.
fn party_count(word: &Word) -> Result<u16, Refusal>
    ensures reads { result ≡ spelled word.now (party_count_of word.now.text) }
    ensures fits { IfOk result (λ n. is_party_count n ≡ true) }
{
    party_count_of(word.text()).ok_or(word.refusal())
}

/// How many of so many logs make a quorum, as a word says.
fn quorum(word: &Word, logs: u16) -> Result<u16, Refusal>
    ensures reads { result ≡ spelled word.now (quorum_of logs word.now.text) }
    ensures fits { IfOk result (λ q. is_quorum q logs ≡ true) }
{
    quorum_of(logs, word.text()).ok_or(word.refusal())
}

/// `logs <N> <q>`: how many logs there are, and how many of them make a quorum.
#[tactic(auto, unfolding(crate::specs::Inquiries::logs_at))]
fn logs(lines: &mut Lines) -> Result<(u16, u16), Refusal>
    ensures tells { Follows (λ x. x) result lines.new (logs_at lines.old) }
    ensures count { IfOk result (λ x. is_party_count x.0 ≡ true) }
    ensures quorum { IfOk result (λ x. is_quorum x.1 x.0 ≡ true) }
{
    let (count, needed) = lines.two_fields(b"logs")?;
    let count = party_count(&count)?;
    let quorum = quorum(&needed, count)?;
    Ok((count, quorum))
}

/// `authorities <M>`: how many authorities there are.
#[tactic(auto, unfolding(ar_lines::specs::Rows::value_at))]
fn authorities(lines: &mut Lines) -> Result<u16, Refusal>
    ensures tells { Follows (λ n. n) result lines.new (authorities_at lines.old) }
    ensures count { IfOk result (λ n. is_party_count n ≡ true) }
{
    let field = lines.field(b"authorities")?;
    party_count(&field)
}

/// `key <112 hex>`: the key of the next party.
#[tactic(auto, unfolding(ar_lines::specs::Rows::value_at))]
pub fn key(lines: &mut Lines) -> Result<LmsPublic, Refusal>
    ensures { Follows (λ key. key) result lines.new (key_in_line lines.old) }
{
    let field = lines.field(b"key")?;
    field.key()
}

/// So many keys, a line each.
#[tactic(auto, using(crate::proofs::KeyLines::key_lines))]
fn keys(alloc: Global, lines: &mut Lines, count: u16) -> Result<Vec<LmsPublic>, LineFault>
    ensures tells { FollowsUnless (λ keys. keys.items) result lines.new (keys_at count lines.old) }
    ensures count { IfOk result (λ keys. length keys.items ≡ count) }
{
    let mut keys = Vec::new(alloc);
    for _ in 0..count {
        let next = key(lines)?;
        keys.push(next)?;
    }
    Ok(keys)
}

/// The lines of the logs, of the authorities, and of their keys of generation 0.
#[tactic(auto, unfolding(crate::specs::Inquiries::first_keys_at))]
fn first_keys(alloc: Global, lines: &mut Lines) -> Result<Directory, LineFault>
    ensures { FollowsUnless (λ directory. directory) result lines.new (first_keys_at lines.old) }
{
    let (count, quorum) = logs(lines)?;
    let logs = keys(alloc, lines, count)?;
    let count = authorities(lines)?;
    let authorities = keys(alloc, lines, count)?;
    match Directory::new(logs, authorities, usize::from(quorum)) {
        Ok(directory) => Ok(directory),
        // The counts were tested where they were read.
        Err(_) => unreachable!(),
    }
}

/// The lines of the logs, of the authorities, of their keys, and of what they announce: the directory that learnt it all.
#[tactic(auto, unfolding(crate::specs::Inquiries::directory_at))]
pub fn directory(alloc: Global, lines: &mut Lines) -> Result<Directory, LineFault>
    ensures { FollowsUnless (λ directory. directory) result lines.new (directory_at lines.old) }
{
    let directory = first_keys(alloc, lines)?;
    rolls(alloc, lines, directory)
}

/// `name <name>`: the name of a domain.
#[tactic(auto, unfolding(ar_lines::specs::Rows::value_at))]
pub fn name(alloc: Global, lines: &mut Lines) -> Result<Name, LineFault>
    ensures { FollowsUnless (λ name. name) result lines.new (name_at lines.old) }
{
    let field = lines.field(b"name")?;
    field.name(alloc)
}

/// `now <n>`, `age <n>`, or a line of another name with a number of 64 bits in decimal.
#[tactic(auto, unfolding(ar_lines::specs::Rows::value_at))]
pub fn number(lines: &mut Lines, name: &[u8]) -> Result<u64, Refusal>
    ensures { Follows (λ n. n) result lines.new (number_at name.now lines.old) }
{
    let field = lines.field(name)?;
    field.number()
}

/// `confirmation <hex>`: any bytes.
#[tactic(auto, unfolding(ar_lines::specs::Rows::value_at))]
pub fn confirmation(alloc: Global, lines: &mut Lines) -> Result<Vec<u8>, LineFault>
    ensures { FollowsUnless (λ bytes. bytes.items) result lines.new (confirmation_at lines.old) }
{
    let field = lines.field(b"confirmation")?;
    field.bytes(alloc)
}
