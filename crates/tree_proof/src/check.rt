ghost use Rattle.std.specs.Prelude.{◌≡◌, ◌≤◌, ◌↔◌, IsTrue, length};
ghost use Rattle.hash_tree.specs.Entries.{Agree};
ghost use Rattle.sha2.specs.Sha256.{sha256};
ghost use Rattle.tree_proof.specs.Fold.{path_value};
ghost use Rattle.tree_proof.specs.Membership.{OnBytes, OffBytes, SpeaksOf, bottom_string, is_off, is_on};

use hash_tree::{Bottom, empty_digest, entry_digest, key_bit, node_digest};

/// Whether the steps show that the key has the value under the root.
///
/// The steps are digests of 32 bytes, the deepest first, one after another. It is false where their
/// length is no multiple of 32, and where there are more than 256.
pub fn check_present(key: &[u8; 32], value: &[u8; 32], steps: &[u8], root: &[u8; 32]) -> bool
    ensures test { result ≡ is_on key.now value.now steps.now root.now }
    ensures meaning { IsTrue result ↔ OnBytes key.now value.now steps.now root.now }
{
    has_value(key, value, steps, root)
}

/// Whether the steps show that the key has no value under the root: they lead there from an empty
/// set, or from the entry of another key that agrees with this one in as many first bits as there are
/// steps.
///
/// It is false where the steps' length is no multiple of 32, and where there are more than 256.
pub fn check_absent(key: &[u8; 32], bottom: &Bottom, steps: &[u8], root: &[u8; 32]) -> bool
    ensures test { result ≡ is_off key.now bottom.now steps.now root.now }
    ensures meaning { IsTrue result ↔ OffBytes key.now bottom.now steps.now root.now }
{
    has_none(key, bottom, steps, root)
}

// `check_present` by its meaning.
fn has_value(key: &[u8; 32], value: &[u8; 32], steps: &[u8], root: &[u8; 32]) -> bool
    ensures { IsTrue result ↔ OnBytes key.now value.now steps.now root.now }
{
    let (digests, rest) = steps.as_chunks::<32>();
    rest.is_empty() && leads_to(key, entry_digest(key, value), digests, root)
}

// `check_absent` by its meaning.
fn has_none(key: &[u8; 32], bottom: &Bottom, steps: &[u8], root: &[u8; 32]) -> bool
    ensures { IsTrue result ↔ OffBytes key.now bottom.now steps.now root.now }
{
    let (digests, rest) = steps.as_chunks::<32>();
    rest.is_empty()
        && leads_to(key, foot_digest(bottom), digests, root)
        && speaks_of(bottom, key, digests.len())
}

// Whether at most 256 steps lead from a digest to the root.
fn leads_to(key: &[u8; 32], foot: [u8; 32], steps: &[[u8; 32]], root: &[u8; 32]) -> bool
    ensures { IsTrue result
        ↔ ((length steps.now ≤ 256) × (path_value key.now foot steps.now ≡ root.now)) }
{
    steps.len() <= 256 && led_up(key, foot, steps) == *root
}

// The digest that a value leads up to.
fn led_up(key: &[u8; 32], value: [u8; 32], steps: &[[u8; 32]]) -> [u8; 32]
    requires { length steps.now ≤ 256 }
    ensures { result ≡ path_value key.now value steps.now }
{
    match steps {
        [] => value,
        [step, above @ ..] => {
            let joined = if key_bit(key, above.len()) == 0 {
                node_digest(&value, step)
            } else {
                node_digest(step, &value)
            };
            led_up(key, joined, above)
        }
    }
}

// The digest of what stands at the foot of a path that shows absence.
fn foot_digest(bottom: &Bottom) -> [u8; 32]
    ensures { result ≡ sha256 (bottom_string bottom.now) }
{
    match bottom {
        Bottom::Empty => empty_digest(),
        Bottom::Other { key, value } => entry_digest(key, value),
    }
}

// Whether a bottom can show the absence of a key under this many steps.
fn speaks_of(bottom: &Bottom, key: &[u8; 32], count: usize) -> bool
    requires { count ≤ 256 }
    ensures { IsTrue result ↔ SpeaksOf bottom.now key.now count }
{
    match bottom {
        Bottom::Empty => true,
        Bottom::Other { key: other, .. } => other != key && agree(other, key, count),
    }
}

// Whether two keys agree in their first bits.
fn agree(one: &[u8; 32], other: &[u8; 32], count: usize) -> bool
    requires { count ≤ 256 }
    ensures { IsTrue result ↔ Agree count one.now other.now }
{
    for depth in 0..count {
        if key_bit(one, depth) != key_bit(other, depth) {
            return false;
        }
    }
    true
}
