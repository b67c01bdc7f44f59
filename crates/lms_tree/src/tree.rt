ghost use Rattle.std.specs.Prelude.{◌≡◌};
ghost use Rattle.lms_tree.specs.Tree.{inner_node, leaf_node, parent_of};

use lm_ots::domain_hasher;
use sha2::Digest;

// D_LEAF and D_INTR of RFC 8554, section 7.1.
const D_LEAF: u16 = 0x8282;

const D_INTR: u16 = 0x8383;

/// The value of a leaf's node, whose one-time key is `key`.
pub(crate) fn leaf_node(id: &[u8; 16], node: u32, key: &[u8; 32]) -> [u8; 32]
    ensures { result ≡ leaf_node id.now node key.now }
{
    let mut hasher = domain_hasher(id, node, D_LEAF);
    hasher.update(key);
    hasher.finalize()
}

/// The value of an inner node, of its children's.
pub(crate) fn inner_node(id: &[u8; 16], node: u32, left: &[u8; 32], right: &[u8; 32]) -> [u8; 32]
    ensures { result ≡ inner_node id.now node left.now right.now }
{
    let mut hasher = domain_hasher(id, node, D_INTR);
    hasher.update(left);
    hasher.update(right);
    hasher.finalize()
}

/// The value of a node's parent, of the node's and its sibling's.
pub(crate) fn parent_of(id: &[u8; 16], node: u32, value: &[u8; 32], sibling: &[u8; 32]) -> [u8; 32]
    ensures { result ≡ parent_of id.now node value.now sibling.now }
{
    if node % 2 == 1 {
        inner_node(id, node / 2, sibling, value)
    } else {
        inner_node(id, node / 2, value, sibling)
    }
}
