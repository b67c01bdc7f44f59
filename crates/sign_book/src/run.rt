ghost use Rattle.std.specs.Prelude.{◌≡◌, ◌<◌, ◌≤◌, ◌-◌, length};
ghost use Rattle.lms_tree.specs.Key.{signature_of};
ghost use Rattle.lms_tree.specs.LmsKind.{leaves_of};
ghost use Rattle.lms_tree.specs.Signature.{lms_signature_len_of};
ghost use Rattle.sign_book.specs.Run.{after_draw, drawn};

use ar_statement::Text;
use lms_tree::LmsKey;
use std::marker::Model;

/// Leaves of a key that were reserved, one behind the other, and are drawn in their order.
///
/// They are in no book and in no other run, and have signed nothing: whoever makes the run has seen to that.
#[derive(Debug, Drop)]
pub struct LeafRun {
    next: u32,
    end: u32,
    // How many leaves the key has.
    leaves: u32,
}

// Clauses see all parts. The leaves of the run are the key's.
impl Model for LeafRun {
    ghost use Rattle.std.specs.Prelude.{◌≤◌};
    ghost use Rattle.sign_book.specs.Run.{RunParts};

    ghost Value = { RunParts };

    ghost view = { λ run. record { next = run.next; end = run.end; leaves = run.leaves } };

    ghost invariant = { λ run. (run.next ≤ run.end) × (run.end ≤ run.leaves) };
}

/// A leaf that was drawn.
///
/// Only a run makes one. It cannot be copied or dropped: `sign_drawn` or `forgo_drawn` takes it.
pub struct DrawnLeaf {
    leaf: u32,
    // How many leaves the key has.
    leaves: u32,
}

// Clauses see both parts. The leaf is one of the key's.
impl Model for DrawnLeaf {
    ghost use Rattle.std.specs.Prelude.{◌<◌};
    ghost use Rattle.sign_book.specs.Run.{DrawnParts};

    ghost Value = { DrawnParts };

    ghost view = { λ drawn. record { leaf = drawn.leaf; leaves = drawn.leaves } };

    ghost invariant = { λ drawn. drawn.leaf < drawn.leaves };
}

impl LeafRun {
    /// The leaves from `next` on that are below `end`, of a key with this many. It takes no memory.
    pub fn new(next: u32, end: u32, leaves: u32) -> LeafRun
        requires ahead { next ≤ end }
        requires own { end ≤ leaves }
        ensures { result ≡ record { next = next; end = end; leaves = leaves } }
    {
        LeafRun { next, end, leaves }
    }

    /// Draws the next leaf. It is `None` exactly where each was drawn, and then nothing changes.
    pub fn draw(&mut self) -> Option<DrawnLeaf>
        ensures leaf { result ≡ drawn self.old }
        ensures rest { self.new ≡ after_draw self.old }
    {
        let leaf = self.next;
        if leaf == self.end {
            return None;
        }
        self.next = leaf + 1;
        let leaves = self.leaves;
        Some(DrawnLeaf { leaf, leaves })
    }

    /// How many leaves are left to draw.
    pub fn left(&self) -> u32
        ensures { result ≡ self.now.end - self.now.next }
    {
        self.end - self.next
    }
}

/// Writes the signature of a text by the leaf that was drawn into `out` (RFC 8554, section 5.4). It takes no memory.
///
/// The key is the one whose leaves the run has.
pub fn sign_drawn(key: &LmsKey, drawn: DrawnLeaf, text: &Text, out: &mut [u8])
    requires leaves { drawn.leaves ≤ leaves_of key.now.lms }
    requires room { length out.old ≡ lms_signature_len_of key.now.lms key.now.ots }
    ensures { out.new ≡ signature_of key.now drawn.leaf text.now }
{
    let DrawnLeaf { leaf, leaves: _ } = drawn;
    key.sign_at(leaf, text.as_bytes(), out);
}

/// Spends a leaf that was drawn, without signing.
pub fn forgo_drawn(drawn: DrawnLeaf) {
    let DrawnLeaf { leaf: _, leaves: _ } = drawn;
}
