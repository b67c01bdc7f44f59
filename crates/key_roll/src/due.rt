ghost use Rattle.std.specs.Prelude.{◌≡◌, ◌<◌};

use ar_statement::Text;
use std::marker::Model;

/// A signature that is due: a statement with the generation and the leaf that its book gave to it.
///
/// Only a book makes one. It cannot be copied or dropped: `KeyRing::sign` or `forgo` takes it.
pub struct RollDue {
    pub(crate) generation: u32,
    pub(crate) leaf: u32,
    pub(crate) text: Text,
    // How many leaves the book's keys have.
    pub(crate) leaves: u32,
}

// Clauses see all parts. The leaf is one of the keys'.
impl Model for RollDue {
    ghost use Rattle.std.specs.Prelude.{◌<◌};
    ghost use Rattle.key_roll.specs.Due.{DueParts};

    ghost Value = { DueParts };

    ghost view = { λ due. record {
      generation = due.generation;
      leaf = due.leaf;
      text = due.text;
      leaves = due.leaves;
    } };

    ghost invariant = { λ due. due.leaf < due.leaves };
}

impl RollDue {
    /// The signature that a book owes to a statement at a leaf of a generation.
    pub(crate) fn new(generation: u32, leaf: u32, text: Text, leaves: u32) -> RollDue
        requires { leaf < leaves }
        ensures { result ≡ record {
          generation = generation;
          leaf = leaf;
          text = text;
          leaves = leaves;
        } }
    {
        RollDue {
            generation,
            leaf,
            text,
            leaves,
        }
    }
}

/// Spends a signature that is due, without signing.
pub fn forgo(due: RollDue) {
    let RollDue {
        generation: _,
        leaf: _,
        text: _,
        leaves: _,
    } = due;
}
