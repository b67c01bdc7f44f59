ghost use Rattle.ar_statement.specs.Ranges.{IsKeyText};
ghost use Rattle.lms_tree.specs.PublicKey.{HasWidths, key_text};

use ar_bytes::are_bytes;
use lms_tree::LmsPublic;

/// Tells a proof that the text of a key, and its parts, have their widths and are bytes. It does nothing.
pub fn key_told(key: &LmsPublic)
    ensures text { IsKeyText (key_text key.now) }
    ensures widths { HasWidths key.now }
{
    are_bytes(&key.bytes());
    are_bytes(&key.id);
    are_bytes(&key.root);
}
