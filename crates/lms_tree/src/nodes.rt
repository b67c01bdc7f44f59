ghost use Rattle.std.specs.Prelude.{◌≡◌, ◌+◌, ◌*◌, ◌<◌, ◌≤◌, ℕ, [], length, slice_index_or, IfOk};
ghost use Rattle.lms_tree.specs.Key.{node_at};
ghost use Rattle.lms_tree.specs.LmsKind.{leaves_of};
ghost use Rattle.lms_tree.specs.Nodes.{HoldsFrom};

use crate::parts::Parts;
use crate::tree::{inner_node, leaf_node};
use lm_ots::four_ots_publics;
use std::alloc::{AllocError, Global};

/// The nodes of a key's tree, node r at place r.
pub(crate) fn make_nodes(alloc: Global, parts: &Parts) -> Result<Vec<[u8; 32]>, AllocError>
    ensures len { IfOk result (λ nodes. length nodes.items ≡ 2 * leaves_of parts.now.lms) }
    ensures nodes { IfOk result (λ nodes. HoldsFrom parts.now 1 nodes.items) }
{
    let mut nodes = vec![in alloc; [0u8; 32]; 2 * parts.lms().leaves() as usize]?;
    fill_leaves(parts, &mut nodes);
    fill_inner(parts, &mut nodes);
    Ok(nodes)
}

// Fills in the leaves, which are the second half of the nodes.
fn fill_leaves(parts: &Parts, nodes: &mut [[u8; 32]])
    requires { length nodes.old ≡ 2 * leaves_of parts.now.lms }
    ensures { HoldsFrom parts.now (leaves_of parts.now.lms) nodes.new }
{
    // (the leaves of each type are a multiple of four)
    for group in 0..parts.lms().leaves() / 4 {
        fill_four(parts, 4 * group, nodes);
    }
}

// Fills in four leaves, from `first` on.
fn fill_four(parts: &Parts, first: u32, nodes: &mut [[u8; 32]])
    requires len { length nodes.old ≡ 2 * leaves_of parts.now.lms }
    requires within { first + 4 ≤ leaves_of parts.now.lms }
    ensures before { (r : ℕ) → r < leaves_of parts.now.lms + first
        → slice_index_or nodes.new r [] ≡ slice_index_or nodes.old r [] }
    ensures four { (k : ℕ) → k < 4
        → slice_index_or nodes.new (leaves_of parts.now.lms + first + k) []
        ≡ node_at parts.now 0 (leaves_of parts.now.lms + first + k) }
{
    let node = parts.lms().leaves() + first;
    let keys = four_ots_publics(&parts.secret(first));
    for k in 0..4 {
        let place = node + k;
        nodes[place as usize] = leaf_node(parts.id(), place, &keys[k as usize]);
    }
}

// Fills in the inner nodes, from the last to the root.
fn fill_inner(parts: &Parts, nodes: &mut [[u8; 32]])
    requires len { length nodes.old ≡ 2 * leaves_of parts.now.lms }
    requires leaves { HoldsFrom parts.now (leaves_of parts.now.lms) nodes.old }
    ensures { HoldsFrom parts.now 1 nodes.new }
{
    let leaves = parts.lms().leaves();
    for done in 1..leaves {
        let node = leaves - done;
        let left = nodes[2 * node as usize];
        let right = nodes[2 * node as usize + 1];
        nodes[node as usize] = inner_node(parts.id(), node, &left, &right);
    }
}
