ghost use Rattle.std.specs.Prelude.{◌≡◌, ◌<◌, ◌≤◌, ◌==◌, ◌↔◌, true, false, length, All, IsTrue};
ghost use Rattle.std.specs.List.Sorted.{IsPartitionedBy, IsPartitionPoint};
ghost use Rattle.ar_base.specs.Bytes.{IsDigest};
ghost use Rattle.hash_tree.specs.Entries.{entries_of, HasAscendingKeys, AgreeAmong, bit, of_side};
ghost use Rattle.hash_tree.specs.Root as tree;

use crate::bits::read_key;
use crate::digests::{NODE_TAG, hash};
use crate::{empty_digest, entry_digest, key_bit};

/// The root of the integrity tree over the entries.
///
/// It hashes once for each entry and once for each node.
pub fn root_of(entries: &[([u8; 32], [u8; 32])]) -> [u8; 32]
    requires { HasAscendingKeys entries.now }
    ensures { result ≡ tree.root (entries_of entries.now) }
{
    subtree_digest(entries, 0)
}

/// Whether the keys of the entries ascend strictly, as `root_of` asks for it.
pub fn have_ascending_keys(entries: &[([u8; 32], [u8; 32])]) -> bool
    ensures { IsTrue result ↔ HasAscendingKeys entries.now }
{
    entries.is_sorted_by(|one, next| one.0.cmp(&next.0).is_lt())
}

/// The digest at a depth, of entries whose keys agree in all bits before it.
pub fn subtree_digest(entries: &[([u8; 32], [u8; 32])], depth: usize) -> [u8; 32]
    requires ascending { HasAscendingKeys entries.now }
    requires agreed { AgreeAmong depth (entries_of entries.now) }
    requires in_key { depth ≤ 256 }
    ensures { result ≡ tree.subtree_digest depth (entries_of entries.now) }
{
    let mut digest = [0; 32];
    put_digest(entries, depth, &mut digest);
    digest
}

// Writes the digest at a depth.
//
// It is inlined into `put_node`, so that only a node costs a call.
#[cycle(digest)]
#[inline(always)]
fn put_digest(entries: &[([u8; 32], [u8; 32])], depth: usize, out: &mut [u8])
    requires ascending { HasAscendingKeys entries.now }
    requires agreed { AgreeAmong depth (entries_of entries.now) }
    requires in_key { depth ≤ 256 }
    requires room { length out.old ≡ 32 }
    ensures { out.new ≡ tree.subtree_digest depth (entries_of entries.now) }
{
    match entries {
        [] => out.copy_from_slice(&empty_digest()),
        [(key, value)] => out.copy_from_slice(&entry_digest(key, value)),
        _ => put_node(entries, depth, out),
    }
}

// The same of two entries or more. The digests of the halves are written where they are hashed.
#[cycle(digest)]
fn put_node(entries: &[([u8; 32], [u8; 32])], depth: usize, out: &mut [u8])
    requires ascending { HasAscendingKeys entries.now }
    requires agreed { AgreeAmong depth (entries_of entries.now) }
    requires several { 2 ≤ length entries.now }
    requires in_key { depth ≤ 256 }
    requires room { length out.old ≡ 32 }
    ensures { out.new ≡ tree.subtree_digest depth (entries_of entries.now) }
{
    let (left, right) = halves(entries, depth);
    let mut bytes = [NODE_TAG; 65];
    put_digest(left, depth + 1, &mut bytes[1..33]);
    put_digest(right, depth + 1, &mut bytes[33..]);
    out.copy_from_slice(&hash(&bytes));
}

/// Two or more entries whose keys agree in all bits before the depth, by their bit at the depth: those
/// whose bit is 0, and those whose bit is 1. Since the keys ascend, they are a front and the rest.
pub fn halves(
    entries: &[([u8; 32], [u8; 32])],
    depth: usize,
) -> (&[([u8; 32], [u8; 32])], &[([u8; 32], [u8; 32])])
    requires ascending { HasAscendingKeys entries.now }
    requires agreed { AgreeAmong depth (entries_of entries.now) }
    requires several { 2 ≤ length entries.now }
    requires in_key { depth ≤ 256 }
    ensures in_key { depth < 256 }
    ensures left { result.0.now ≡ of_side depth 0 entries.now }
    ensures right { result.1.now ≡ of_side depth 1 entries.now }
{
    read_keys(entries);
    entries.split_at(first_one(entries, depth))
}

// Where the entries whose bit is 1 begin, if none whose bit is 0 comes after one of them.
fn first_one(entries: &[([u8; 32], [u8; 32])], depth: usize) -> usize
    requires { depth < 256 }
    ensures in_range { result ≤ length entries.now }
    ensures point { IsPartitionedBy (λ e. bit e.0 depth == 0) entries.now
        → IsPartitionPoint (λ e. (bit e.0 depth == 0) ≡ true) (λ e.
        (bit e.0 depth == 0) ≡ false) entries.now result }
{
    entries.partition_point(|(key, _)| key_bit(key, depth) == 0)
}

// Each key has 32 bytes by its type, which a proof learns where it is read. The loop does nothing
// else, and the compiler drops it.
fn read_keys(entries: &[([u8; 32], [u8; 32])])
    ensures { All (λ e. IsDigest e.0) entries.now }
{
    for (key, _) in entries {
        read_key(key);
    }
}
