ghost use Rattle.std.specs.Prelude.{◌≡◌, ◌<◌, ◌≤◌, ◌^◌};
ghost use Rattle.table_map.specs.Tables as tables;

use ar_bytes::digest_told;
use ar_names::name_digest;

/// A map has at most 2 to this power tables.
pub const MOST_BITS: u8 = 24;

/// The number of the table of a name, where there are 2 ^ bits tables: the first bits of the key that the name has in a
/// table. The name may be any bytes.
#[tactic(auto, unfolding(crate::specs::Tables::table_of), using(crate::proofs::Bits::bits_below))]
pub fn table_of(bits: u8, name: &[u8]) -> u32
    requires { bits ≤ 24 }
    ensures value { result ≡ tables.table_of bits name.now }
    ensures range { result < 2 ^ bits }
{
    first_bits(bits, &name_digest(name))
}

// The number that the first bits of a key are.
fn first_bits(bits: u8, key: &[u8; 32]) -> u32
    requires { bits ≤ 24 }
    ensures { result ≡ tables.first_bits bits key.now }
{
    if bits == 0 {
        return 0;
    }
    digest_told(key);
    u32::from_be_bytes([key[0], key[1], key[2], key[3]]) >> (32 - bits)
}

/// The key of a table in the tree over the directories: its number in the first bits, and zeros behind.
pub fn table_key(bits: u8, table: u32) -> [u8; 32]
    requires bits { bits ≤ 24 }
    requires table { table < 2 ^ bits }
    ensures { result ≡ tables.table_key bits table }
{
    let mut key = [0; 32];
    if bits > 0 {
        key[..4].copy_from_slice(&(table << (32 - bits)).to_be_bytes());
    }
    key
}
