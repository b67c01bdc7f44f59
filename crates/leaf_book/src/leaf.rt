ghost use Rattle.std.specs.Prelude.{◌≡◌, ◌<◌, length};
ghost use Rattle.lms_tree.specs.Key.{signature_of};
ghost use Rattle.lms_tree.specs.LmsKind.{leaves_of};
ghost use Rattle.lms_tree.specs.Signature.{lms_signature_len_of};

use lms_tree::LmsKey;
use std::marker::Model;

/// A leaf that was drawn from a book.
///
/// Only a book makes one. It cannot be copied or dropped: `sign_leaf` takes it.
pub struct Leaf {
    number: u32,
    // How many leaves the book has.
    leaves: u32,
}

// Clauses see both numbers. The leaf is one of the book's.
impl Model for Leaf {
    ghost use Rattle.std.specs.Prelude.{◌<◌};
    ghost use Rattle.leaf_book.specs.Book.{Drawn};

    ghost Value = { Drawn };

    ghost view = { λ leaf. record { number = leaf.number; leaves = leaf.leaves } };

    ghost invariant = { λ leaf. leaf.number < leaf.leaves };
}

impl Leaf {
    pub(crate) fn new(number: u32, leaves: u32) -> Leaf
        requires { number < leaves }
        ensures { result ≡ record { number = number; leaves = leaves } }
    {
        Leaf { number, leaves }
    }

    /// The number of the leaf, from 0.
    pub fn number(&self) -> u32
        ensures number { result ≡ self.now.number }
        ensures below { result < self.now.leaves }
    {
        self.number
    }
}

/// Writes the signature of `message` by a leaf (RFC 8554, section 5.4) into `out`. It takes no
/// memory.
///
/// The key is the book's own: it has as many leaves as the book, no other book gives its leaves, and
/// it has signed nothing before the book was made.
pub fn sign_leaf(key: &LmsKey, leaf: Leaf, message: &[u8], out: &mut [u8])
    requires leaves { leaf.leaves ≡ leaves_of key.now.lms }
    requires room { length out.old ≡ lms_signature_len_of key.now.lms key.now.ots }
    ensures { out.new ≡ signature_of key.now leaf.number message.now }
{
    let Leaf { number, leaves: _ } = leaf;
    key.sign_at(number, message, out);
}
