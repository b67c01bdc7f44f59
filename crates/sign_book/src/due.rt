ghost use Rattle.std.specs.Prelude.{◌≡◌, ◌<◌, ◌≤◌, length};
ghost use Rattle.lms_tree.specs.Key.{signature_of};
ghost use Rattle.lms_tree.specs.LmsKind.{leaves_of};
ghost use Rattle.lms_tree.specs.Signature.{lms_signature_len_of};

use ar_statement::Text;
use lms_tree::LmsKey;
use std::marker::Model;

/// A signature that is due: a statement with the leaf that its book gave to it.
///
/// Only a book makes one. It cannot be copied or dropped: `sign` takes it.
pub struct Due {
    leaf: u32,
    text: Text,
    // How many leaves the book has.
    leaves: u32,
}

// Clauses see all parts. The leaf is one of the book's.
impl Model for Due {
    ghost use Rattle.std.specs.Prelude.{◌<◌};
    ghost use Rattle.sign_book.specs.Due.{LeafDueParts};

    ghost Value = { LeafDueParts };

    ghost view = { λ due. record { leaf = due.leaf; text = due.text; leaves = due.leaves } };

    ghost invariant = { λ due. due.leaf < due.leaves };
}

impl Due {
    /// The signature that a book owes to a statement at a leaf.
    pub(crate) fn new(leaf: u32, text: Text, leaves: u32) -> Due
        requires { leaf < leaves }
        ensures { result ≡ record { leaf = leaf; text = text; leaves = leaves } }
    {
        Due { leaf, text, leaves }
    }
}

/// Writes the signature that is due into `out`: that of the statement's text by its leaf (RFC 8554,
/// section 5.4). It takes no memory.
///
/// The key is the one that the book was made for, and has as many leaves as the book or more. A key that another
/// book gives leaves of, or that has signed before the book was made, could sign two texts by one leaf.
pub fn sign(key: &LmsKey, due: Due, out: &mut [u8])
    requires leaves { due.leaves ≤ leaves_of key.now.lms }
    requires room { length out.old ≡ lms_signature_len_of key.now.lms key.now.ots }
    ensures { out.new ≡ signature_of key.now due.leaf due.text }
{
    let Due {
        leaf,
        text,
        leaves: _,
    } = due;
    key.sign_at(leaf, text.as_bytes(), out);
}
