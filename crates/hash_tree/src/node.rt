ghost use Rattle.std.specs.Prelude.{◌≡◌, ℕ, ◌+◌, ◌-◌, ◌++◌, ◌<◌, ◌≤◌, length, IfOk, IsTrue, OnErr, OnOk};
ghost use Rattle.std.specs.FinMap.{contains_key, get, insert, remove};
ghost use Rattle.hash_tree.specs.Entries.{Entries, bit, half};
ghost use Rattle.hash_tree.specs.Root.{subtree_digest};
ghost use Rattle.hash_tree.specs.Strings as strings;
ghost use Rattle.hash_tree.specs.Path.{bottom_below, steps_below};
ghost use Rattle.hash_tree.specs.Kept.{AgreesWith, AreHalves, AreTwo, HasHalves, IsKept, IsLeft, IsStored, Keeps, digest_of, lone_of, map_both, map_of, two_of};

use crate::bottom::Bottom;
use crate::steps::Steps;
use crate::{empty_digest, key_bit, node_digest};
use std::alloc::{AllocError, Global};
use std::sync::ledger::Ledger;

// A tree over the entries whose keys agree in the bits before a depth.
#[cycle(node)]
#[derive(Drop)]
pub(crate) enum Node {
    Empty,
    Leaf(Stored),
    Branch(Box<Branch>),
}

// An entry with its digest.
#[derive(Clone, Copy)]
pub(crate) struct Stored {
    pub(crate) key: [u8; 32],
    pub(crate) value: [u8; 32],
    pub(crate) digest: [u8; 32],
}

// Several entries: their digest, and the trees of their halves.
#[cycle(node)]
#[derive(Drop)]
pub(crate) struct Branch {
    digest: [u8; 32],
    left: Node,
    right: Node,
}

impl Node {
    // The digest of the entries.
    pub(crate) fn digest(&self) -> [u8; 32]
        ensures { result ≡ digest_of self.now }
    {
        match self {
            Node::Empty => empty_digest(),
            Node::Leaf(leaf) => leaf.digest,
            Node::Branch(branch) => branch.digest,
        }
    }

    // The value of a key.
    pub(crate) fn get(&self, key: &[u8; 32], depth: usize) -> Option<[u8; 32]>
        requires kept { IsKept depth self.now }
        ensures { result ≡ get (map_of self.now) key.now }
    {
        match self {
            Node::Empty => None,
            Node::Leaf(leaf) => {
                if leaf.key == *key {
                    Some(leaf.value)
                } else {
                    None
                }
            }
            Node::Branch(branch) => {
                if key_bit(key, depth) == 0 {
                    branch.left.get(key, depth + 1)
                } else {
                    branch.right.get(key, depth + 1)
                }
            }
        }
    }

    // Adds the steps of a key's path, the deepest first, and gives what stands at its foot.
    pub(crate) fn walk(
        &self,
        steps: &mut Vec<[u8; 32]>,
        key: &[u8; 32],
        depth: usize,
    ) -> Result<Bottom, AllocError>
        requires kept { IsKept depth self.now }
        ensures bottom { IfOk result (λ bottom.
            bottom ≡ bottom_below (256 - depth) key.now (map_of self.now)) }
        ensures steps { OnOk result
            (steps.new.items ≡ steps.old.items
            ++ steps_below (256 - depth) key.now (map_of self.now)) }
    {
        match self {
            Node::Empty => Ok(Bottom::Empty),
            Node::Leaf(entry) => Ok(Bottom::Other {
                key: entry.key,
                value: entry.value,
            }),
            Node::Branch(branch) => {
                let (same, other) = branch.sides(key, depth);
                let bottom = same.walk(steps, key, depth + 1)?;
                steps.push(other.digest())?;
                Ok(bottom)
            }
        }
    }

    // The same tree in memory of its own.
    pub(crate) fn copy(&self, alloc: Global) -> Result<Node, AllocError>
        ensures { IfOk result (λ node.
            (depth : ℕ) (m : Entries) → Keeps depth self.now m → Keeps depth node m) }
    {
        match self {
            Node::Empty => Ok(Node::Empty),
            Node::Leaf(entry) => Ok(Node::Leaf(*entry)),
            Node::Branch(branch) => {
                let left = branch.left.copy(alloc)?;
                let right = branch.right.copy(alloc)?;
                let digest = branch.digest;
                Ok(Node::Branch(Box::new(
                    alloc,
                    Branch {
                        digest,
                        left,
                        right,
                    },
                )?))
            }
        }
    }

    // Takes an entry in, in place of the one with its key.
    #[cycle(put)]
    pub(crate) fn put<L: Ledger>(
        &mut self,
        alloc: Global,
        entry: &Stored,
        depth: usize,
        steps: &mut Steps<L>,
    ) -> Result<(), AllocError>
        requires kept { IsKept depth self.old }
        requires agrees { AgreesWith depth entry.now.key (map_of self.old) }
        requires stored { IsStored entry.now }
        requires in_key { depth ≤ 256 }
        ensures kept { OnOk result
            (Keeps depth self.new (insert (map_of self.old) entry.now.key entry.now.value)) }
        ensures same { OnErr result (self.new ≡ self.old) }
        ensures cost { OnOk result
            (steps.new ≡ steps.old
            + length (steps_below (256 - depth) entry.now.key
            (insert (map_of self.old) entry.now.key entry.now.value))) }
        ensures most { steps.new + depth ≤ steps.old + 256 }
    {
        match self {
            Node::Empty => {
                *self = Node::Leaf(*entry);
                Ok(())
            }
            Node::Leaf(other) => {
                if other.key == entry.key {
                    *self = Node::Leaf(*entry);
                } else {
                    *self = fork(alloc, entry, other, depth, steps)?;
                }
                Ok(())
            }
            Node::Branch(branch) => branch.put(alloc, entry, depth, steps),
        }
    }

    // Takes out the entry of a key that is there.
    #[cycle(take)]
    pub(crate) fn take<L: Ledger>(&mut self, key: &[u8; 32], depth: usize, steps: &mut Steps<L>)
        requires kept { IsKept depth self.old }
        requires there { IsTrue (contains_key (map_of self.old) key.now) }
        requires in_key { depth ≤ 256 }
        ensures kept { Keeps depth self.new (remove (map_of self.old) key.now) }
        ensures cost { steps.new
            ≡ steps.old + length
            (steps_below (256 - depth) key.now (remove (map_of self.old) key.now)) }
    {
        match self {
            Node::Empty => unreachable!(),
            Node::Leaf(_) => *self = Node::Empty,
            Node::Branch(branch) => {
                if let Some(entry) = branch.take(key, depth, steps) {
                    *self = Node::Leaf(entry);
                }
            }
        }
    }
}

impl Branch {
    // The trees of the halves: that with the key's bit at the depth, and the other.
    fn sides(&self, key: &[u8; 32], depth: usize) -> (&Node, &Node)
        requires { AreHalves depth self.now.left self.now.right }
        ensures same { Keeps (depth + 1) result.0.now
            (half depth (bit key.now depth) (map_both self.now.left self.now.right)) }
        ensures other { Keeps (depth + 1) result.1.now
            (half depth (1 - bit key.now depth) (map_both self.now.left self.now.right)) }
    {
        if key_bit(key, depth) == 0 {
            (&self.left, &self.right)
        } else {
            (&self.right, &self.left)
        }
    }

    // The same, of several entries.
    #[cycle(put)]
    fn put<L: Ledger>(
        &mut self,
        alloc: Global,
        entry: &Stored,
        depth: usize,
        steps: &mut Steps<L>,
    ) -> Result<(), AllocError>
        requires kept { AreHalves depth self.old.left self.old.right }
        requires agrees { AgreesWith depth entry.now.key (map_both self.old.left self.old.right) }
        requires stored { IsStored entry.now }
        ensures digest { OnOk result
            (self.new.digest ≡ subtree_digest depth
            (insert (map_both self.old.left self.old.right) entry.now.key entry.now.value)) }
        ensures kept { OnOk result
            (HasHalves depth self.new.left self.new.right
            (insert (map_both self.old.left self.old.right) entry.now.key entry.now.value)) }
        ensures same { OnErr result (self.new ≡ self.old) }
        ensures cost { OnOk result
            (steps.new ≡ steps.old
            + length (steps_below (256 - depth) entry.now.key
            (insert (map_both self.old.left self.old.right) entry.now.key
            entry.now.value))) }
        ensures most { steps.new + depth ≤ steps.old + 256 }
    {
        self.put_below(alloc, entry, depth, steps)?;
        self.digest = join(&self.left, &self.right, steps);
        Ok(())
    }

    // Takes an entry into the half that has its key's bit.
    #[cycle(put)]
    fn put_below<L: Ledger>(
        &mut self,
        alloc: Global,
        entry: &Stored,
        depth: usize,
        steps: &mut Steps<L>,
    ) -> Result<(), AllocError>
        requires kept { AreHalves depth self.old.left self.old.right }
        requires agrees { AgreesWith depth entry.now.key (map_both self.old.left self.old.right) }
        requires stored { IsStored entry.now }
        ensures kept { OnOk result
            (HasHalves depth self.new.left self.new.right
            (insert (map_both self.old.left self.old.right) entry.now.key entry.now.value)) }
        ensures same { OnErr result (self.new ≡ self.old) }
        ensures cost { OnOk result
            (steps.new + 1 ≡ steps.old
            + length (steps_below (256 - depth) entry.now.key
            (insert (map_both self.old.left self.old.right) entry.now.key
            entry.now.value))) }
        ensures most { steps.new + (depth + 1) ≤ steps.old + 256 }
    {
        if key_bit(&entry.key, depth) == 0 {
            self.left.put(alloc, entry, depth + 1, steps)
        } else {
            self.right.put(alloc, entry, depth + 1, steps)
        }
    }
}

impl Branch {
    // The same, of several entries. Where only one is left, it is returned, and does not stay here.
    #[cycle(take)]
    fn take<L: Ledger>(
        &mut self,
        key: &[u8; 32],
        depth: usize,
        steps: &mut Steps<L>,
    ) -> Option<Stored>
        requires kept { AreHalves depth self.old.left self.old.right }
        requires there { IsTrue (contains_key (map_both self.old.left self.old.right) key.now) }
        ensures kept { IsLeft depth result self.new
            (remove (map_both self.old.left self.old.right) key.now) }
        ensures cost { steps.new
            ≡ steps.old + length
            (steps_below (256 - depth) key.now
            (remove (map_both self.old.left self.old.right) key.now)) }
    {
        self.take_below(key, depth, steps);
        let lone = lone(&self.left, &self.right);
        if lone.is_none() {
            self.digest = join(&self.left, &self.right, steps);
        }
        lone
    }

    // Takes a key out of the half that has its bit.
    #[cycle(take)]
    fn take_below<L: Ledger>(&mut self, key: &[u8; 32], depth: usize, steps: &mut Steps<L>)
        requires kept { AreHalves depth self.old.left self.old.right }
        requires there { IsTrue (contains_key (map_both self.old.left self.old.right) key.now) }
        ensures left { Keeps (depth + 1) self.new.left
            (half depth 0 (remove (map_both self.old.left self.old.right) key.now)) }
        ensures right { Keeps (depth + 1) self.new.right
            (half depth 1 (remove (map_both self.old.left self.old.right) key.now)) }
        ensures cost { steps.new
            ≡ steps.old + length
            (steps_below (256 - (depth + 1)) key.now
            (half depth (bit key.now depth)
            (remove (map_both self.old.left self.old.right) key.now))) }
    {
        if key_bit(key, depth) == 0 {
            self.left.take(key, depth + 1, steps);
        } else {
            self.right.take(key, depth + 1, steps);
        }
    }
}

// The one entry in two trees, if there is only one.
fn lone(left: &Node, right: &Node) -> Option<Stored>
    ensures { result ≡ lone_of left.now right.now }
{
    match (left, right) {
        (Node::Empty, Node::Leaf(entry)) | (Node::Leaf(entry), Node::Empty) => Some(*entry),
        _ => None,
    }
}

// The digest of entries, from the trees of their halves.
fn join<L: Ledger>(left: &Node, right: &Node, steps: &mut Steps<L>) -> [u8; 32]
    ensures digest { result ≡ strings.node_digest (digest_of left.now) (digest_of right.now) }
    ensures cost { steps.new ≡ steps.old + 1 }
{
    steps.tick();
    node_digest(&left.digest(), &right.digest())
}

// The tree of two entries.
#[cycle(fork)]
fn fork<L: Ledger>(
    alloc: Global,
    one: &Stored,
    other: &Stored,
    depth: usize,
    steps: &mut Steps<L>,
) -> Result<Node, AllocError>
    requires two { AreTwo depth one.now other.now }
    ensures kept { IfOk result (λ node. Keeps depth node (two_of one.now other.now)) }
    ensures cost { OnOk result
        (steps.new ≡ steps.old
        + length (steps_below (256 - depth) one.now.key (two_of one.now other.now))) }
    ensures most { steps.new + depth ≤ steps.old + 256 }
{
    let (left, right) = parted(alloc, one, other, depth, steps)?;
    let digest = join(&left, &right, steps);
    Ok(Node::Branch(Box::new(
        alloc,
        Branch {
            digest,
            left,
            right,
        },
    )?))
}

// The trees of the halves of two entries.
#[cycle(fork)]
fn parted<L: Ledger>(
    alloc: Global,
    one: &Stored,
    other: &Stored,
    depth: usize,
    steps: &mut Steps<L>,
) -> Result<(Node, Node), AllocError>
    requires two { AreTwo depth one.now other.now }
    requires below { depth < 256 }
    ensures left { IfOk result (λ nodes.
        Keeps (depth + 1) nodes.0 (half depth 0 (two_of one.now other.now))) }
    ensures right { IfOk result (λ nodes.
        Keeps (depth + 1) nodes.1 (half depth 1 (two_of one.now other.now))) }
    ensures cost { OnOk result
        (steps.new ≡ steps.old
        + length (steps_below (256 - (depth + 1)) one.now.key
        (half depth (bit one.now.key depth) (two_of one.now other.now)))) }
    ensures most { steps.new + (depth + 1) ≤ steps.old + 256 }
{
    match (key_bit(&one.key, depth), key_bit(&other.key, depth)) {
        (0, 0) => Ok((fork(alloc, one, other, depth + 1, steps)?, Node::Empty)),
        (0, _) => Ok((Node::Leaf(*one), Node::Leaf(*other))),
        (_, 0) => Ok((Node::Leaf(*other), Node::Leaf(*one))),
        _ => Ok((Node::Empty, fork(alloc, one, other, depth + 1, steps)?)),
    }
}
