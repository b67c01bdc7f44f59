ghost use Rattle.std.specs.Prelude.{◌≡◌, ◌≤◌, ◌++◌, ◌∷◌, [], ℕ, List, Result, Err, length, IfOk, OnErr};
ghost use Rattle.ar_message.specs.declared.sent.Sent.{Sent};
ghost use Rattle.key_roll.specs.Book.{RollBook};
ghost use Rattle.key_roll.specs.Ring.{AreKeysOf, IsNext};
ghost use Rattle.keyed_core.specs.Signing.{IsSignedBy, signed};
ghost use Rattle.lms_tree.specs.Key.{public_of};
ghost use Rattle.lms_tree.specs.KeyParts.{KeyParts};
ghost use Rattle.lms_tree.specs.declared.public_key.LmsPublic.{LmsPublic};

use ar_message::Unsigned;
use lms_tree::LmsPublic;
use std::alloc::Global;

/// A party without its keys, which can be asked to go on to its next key.
pub trait Keyless: Drop {
    /// Why it refuses.
    type Refusal;

    /// What it signed, and with which keys.
    ghost book: { Self → RollBook };

    /// How many bytes each of its signatures has.
    ghost signature_len: { Self → ℕ };

    /// The most messages that it sends at once.
    ghost most_sent: { ℕ };

    /// Signed with these keys, this is its answer to the order to go on to a key, and where it stands then.
    ghost goes_on: { List KeyParts → Result Sent Self.Refusal → Self → Self → LmsPublic → Type 0 };

    /// What no such order changes is as it was.
    ghost keeps: { Self → Self → Type 0 };

    /// The refusal for want of memory. It does nothing.
    fn no_memory(&self) -> Self::Refusal
        ensures row { (keys : List KeyParts) (key : LmsPublic)
            → goes_on keys (Err result) self.now self.now key }
        ensures keeps { keeps self.now self.now };

    /// Enters the Roll of this key, with zero bytes where its signature is due. After a refusal the party is as it was.
    fn enter_roll(&mut self, alloc: Global, next: &LmsPublic) -> Result<Unsigned, Self::Refusal>
        ensures row { (keys : List KeyParts)
            → goes_on keys (signed keys result) self.old self.new next.now }
        ensures keeps { keeps self.old self.new }
        ensures few { IfOk result (λ unsigned. length unsigned.sent.messages ≤ most_sent) }
        // The keys of the book, with the next one behind them, sign it, where this is that key, and are those of the book then.
        ensures signs { (keys : List KeyParts) (key : KeyParts)
            → AreKeysOf (book self.old) (signature_len self.old) keys → IsNext keys key
            → next.now ≡ public_of key
            → IfOk result (λ unsigned.
            IsSignedBy (keys ++ key ∷ []) (book self.new) (signature_len self.new) unsigned) }
        ensures err { OnErr result (self.new ≡ self.old) };
}
