ghost use Rattle.std.specs.Prelude.{◌≡◌, ◌↔◌, ◌<◌, ◌≤◌, ◌^◌, IsTrue, IsNone, IfSome};
ghost use Rattle.table_map.specs.Maps as maps;

use crate::{MOST_BITS, directory_digest, table_key};
use party_keys::Directory;
use std::marker::Model;
use tree_proof::check_present;

/// What a client ships of a map of tables: how many first bits of a name's key are the number of its table, at most 24, and
/// the root of the tree over the directories.
#[derive(Debug, Drop)]
pub struct TableMap {
    bits: u8,
    root: [u8; 32],
}

// Clauses see both.
impl Model for TableMap {
    ghost use Rattle.std.specs.Prelude.{◌≤◌};
    ghost use Rattle.table_map.specs.Maps.{TableMap};

    ghost Value = { TableMap };

    ghost view = { λ m. record { bits = m.bits; root = m.root } };

    ghost invariant = { λ m. m.bits ≤ 24 };
}

impl TableMap {
    /// The map of 2 ^ bits tables with this root; `None` exactly where there are more than 24 bits.
    pub fn new(bits: u8, root: [u8; 32]) -> Option<TableMap>
        ensures map { IfSome result (λ m. m ≡ record { bits = bits; root = root }) }
        ensures none { IsNone result ↔ (24 < bits) }
    {
        if bits > MOST_BITS {
            return None;
        }
        Some(TableMap { bits, root })
    }

    /// How many first bits of a name's key are the number of its table.
    pub fn bits(&self) -> u8
        ensures value { result ≡ self.now.bits }
        ensures most { result ≤ 24 }
    {
        self.bits
    }

    /// The root of the tree over the directories.
    pub fn root(&self) -> [u8; 32]
        ensures { result ≡ self.now.root }
    {
        self.root
    }

    /// Whether the path shows that the directory is that of the table with this number.
    #[tactic(auto, unfolding(crate::specs::Maps::is_placed))]
    pub(crate) fn is_placed(&self, table: u32, directory: &Directory, path: &[u8]) -> bool
        requires { table < 2 ^ self.now.bits }
        ensures { result ≡ maps.is_placed self.now table directory.now path.now }
    {
        path.len() == 32 * self.bits as usize
            && check_present(
                &table_key(self.bits, table),
                &directory_digest(directory),
                path,
                &self.root,
            )
    }
}
