//! What changes in hand keep by their type.
ghost use Rattle.std.specs.Prelude.{All};
ghost use Rattle.ar_cert.specs.Changes.{IsChange};

use ar_cert::Change;

/// Tells a proof that each change has a text.
pub(crate) fn changes_told(changes: &[Change])
    ensures { All IsChange changes.now }
{
    for change in changes {
        change.told();
    }
}
