ghost use Rattle.std.specs.Prelude.{◌≡◌, ◌<◌};
ghost use Rattle.ar_base.specs.Bytes.{IsDigest};
ghost use Rattle.hash_tree.specs.Entries.{bit};

/// The bit of a key at a depth, 0 or 1. Bit 0 is the highest bit of byte 0.
pub fn key_bit(key: &[u8; 32], depth: usize) -> u8
    requires { depth < 256 }
    ensures { result ≡ bit key.now depth }
{
    (key[depth / 8] >> (7 - depth % 8)) & 1
}

// Each key has 32 bytes by its type, which a proof learns where it is read.
pub(crate) fn read_key(key: &[u8; 32])
    ensures { IsDigest key.now }
{
    let _bytes = key.as_slice();
}
