ghost use Rattle.std.specs.Prelude.{◌≡◌, [], length};
ghost use Rattle.ar_base.specs.Gives.{GivesUnless};
ghost use Rattle.ar_bytes.specs.Reading.{Tells};
ghost use Rattle.table_map.specs.Shown.{keys_behind, keys_in, parts_at, shown_by, shown_in};
ghost use Rattle.table_map.specs.declared.fault.ShownFault.TheVariants.{Memory};

use crate::ShownFault;
use ar_bytes::Fields;
use lms_tree::LmsPublic;
use party_keys::Directory;
use std::alloc::Global;
use std::marker::Model;

/// A directory as it is shown with a confirmation: that of the table with this number, by this path.
#[derive(Debug, Drop)]
pub struct ShownDirectory<'a> {
    /// The number of the table.
    pub table: u32,
    /// Its directory, which may learn keys.
    pub directory: Directory,
    /// The digests of the siblings on the way to the root of the map, 32 bytes each, the deepest first.
    pub path: &'a [u8],
}

// The parts of what is shown, as they stand.
#[derive(Drop)]
struct Parts<'a> {
    table: u32,
    quorum: u8,
    logs: &'a [u8],
    authorities: &'a [u8],
    path: &'a [u8],
}

// Clauses see what the parts are.
impl<'a> Model for Parts<'a> {
    ghost use Rattle.table_map.specs.Shown.{Parts};

    ghost Value = { Parts };

    ghost view = { λ p. record {
      table = p.table;
      quorum = p.quorum;
      logs = p.logs.now;
      authorities = p.authorities.now;
      path = p.path.now;
    } };
}

// Reads the parts.
#[tactic(auto, unfolding(crate::specs::Shown::parts_at))]
fn read_parts<'a>(fields: &mut Fields<'a>) -> Result<Parts<'a>, usize>
    ensures { Tells (λ parts. parts) result fields.new (parts_at fields.old) }
{
    let table = fields.take_u32()?;
    let quorum = fields.take_u8()?;
    let logs = fields.take_u8()?;
    let authorities = fields.take_u8()?;
    let logs = fields.take_bytes(56 * logs as usize)?;
    let authorities = fields.take_bytes(56 * authorities as usize)?;
    let path = fields.left();
    Ok(Parts {
        table,
        quorum,
        logs,
        authorities,
        path,
    })
}

// The keys of these texts.
#[tactic(auto, unfolding(crate::specs::Shown::keys_behind))]
fn read_keys(alloc: Global, texts: &[[u8; 56]]) -> Result<Vec<LmsPublic>, ShownFault>
    ensures { GivesUnless Memory (λ keys. keys.items) result (keys_behind [] texts.now) }
{
    let mut keys = Vec::new(alloc);
    for text in texts {
        let Some(key) = LmsPublic::read(text) else {
            return Err(ShownFault::NoDirectory);
        };
        keys.push(key)?;
    }
    Ok(keys)
}

// The keys of texts that lie one behind the other.
fn keys_of(alloc: Global, bytes: &[u8]) -> Result<Vec<LmsPublic>, ShownFault>
    ensures { GivesUnless Memory (λ keys. keys.items) result (keys_in bytes.now) }
{
    let (texts, _) = bytes.as_chunks::<56>();
    read_keys(alloc, texts)
}

// The directory of the parts.
#[tactic(auto, unfolding(crate::specs::Shown::shown_by))]
fn shown<'a>(alloc: Global, parts: &Parts<'a>) -> Result<ShownDirectory<'a>, ShownFault>
    ensures { GivesUnless Memory (λ s.
        (s.table, s.directory, s.path.now)) result (shown_by parts.now) }
{
    let logs = keys_of(alloc, parts.logs)?;
    let authorities = keys_of(alloc, parts.authorities)?;
    let Ok(directory) = Directory::new(logs, authorities, parts.quorum as usize) else {
        return Err(ShownFault::NoDirectory);
    };
    Ok(ShownDirectory {
        table: parts.table,
        directory,
        path: parts.path,
    })
}

impl<'a> ShownDirectory<'a> {
    /// What the bytes show: the number of the table in 4 bytes, the size of a quorum, how many logs and how many authorities
    /// there are in a byte each, the texts of their first keys, and the path.
    #[tactic(auto, unfolding(crate::specs::Shown::shown_in))]
    pub fn read(alloc: Global, bytes: &'a [u8]) -> Result<ShownDirectory<'a>, ShownFault>
        ensures { GivesUnless Memory (λ s.
            (s.table, s.directory, s.path.now)) result (shown_in bytes.now) }
    {
        let Ok(parts) = read_parts(&mut Fields::new(bytes)) else {
            return Err(ShownFault::NoDirectory);
        };
        shown(alloc, &parts)
    }
}
