ghost use Rattle.std.specs.Prelude.{◌≡◌, ◌<◌, ◌≤◌, ◌++◌, ◌∷◌, [], length, IfOk, OnOk, OnErr};
ghost use Rattle.key_roll.specs.Ring.{AreKeysOf, IsNewest, IsNext, IsOfNext};
ghost use Rattle.lms_tree.specs.Key.{public_of};
ghost use Rattle.lms_tree.specs.KeyParts.{KeyParts};

use crate::Keyless;
use ar_message::{Sent, fill};
use key_roll::KeyRing;
use lms_tree::{LmsKey, LmsPublic};
use std::alloc::{AllocError, Global};
use std::marker::Model;

/// A party with its keys: what it sends is signed. Whoever changes a part of it shows that the keys are still those of the
/// book.
#[derive(Drop)]
pub struct Keyed<P: Keyless> {
    /// The party without its keys: what may stand under a lock.
    pub core: P,
    /// Its keys.
    pub ring: KeyRing,
}

// Clauses see where it stands and its keys. The keys are those of its book.
impl<P: Keyless> Model for Keyed<P> {
    ghost use Rattle.key_roll.specs.Ring.{AreKeysOf};
    ghost use Rattle.keyed_core.specs.Signing.{KeyedParts};

    ghost Value = { KeyedParts P };

    ghost view = { λ k. record { core = k.core; ring = k.ring } };

    ghost invariant = { λ k. AreKeysOf (P.book k.core) (P.signature_len k.core) k.ring.keys };
}

/// The next key of a ring, for which the ring then has room. The only error is want of memory.
fn make_next(ring: &mut KeyRing, alloc: Global) -> Result<LmsKey, AllocError>
    ensures next { IfOk result (λ key. IsNext ring.old.keys key) }
    ensures room { OnOk result (0 < ring.new.room) }
    ensures keys { ring.new.keys ≡ ring.old.keys }
{
    let key = ring.next(alloc)?;
    ring.reserve(alloc)?;
    Ok(key)
}

impl<P: Keyless> Keyed<P> {
    /// The party of these parts. The ring is the core's own.
    pub fn of(core: P, ring: KeyRing) -> Keyed<P>
        requires { AreKeysOf (P.book core) (P.signature_len core) ring.keys }
        ensures { result ≡ record { core = core; ring = ring } }
    {
        Keyed { core, ring }
    }

    /// What stands under a lock, and the keys, which sign outside it.
    pub fn split(self) -> (P, KeyRing)
        ensures core { result.0 ≡ self.core }
        ensures ring { result.1 ≡ self.ring }
        ensures own { AreKeysOf (P.book result.0) (P.signature_len result.0) result.1.keys }
    {
        let Keyed { core, ring } = self;
        (core, ring)
    }

    /// The public key of the generation behind the newest, to which the party can go on. It takes as long as a key does. The
    /// only error is want of memory.
    pub fn next_key(&self, alloc: Global) -> Result<LmsPublic, AllocError>
        ensures { IfOk result (λ key. IsOfNext self.now.ring.keys key) }
    {
        let key = self.ring.next(alloc)?;
        Ok(key.public())
    }

    /// The public key of the newest generation: that to which the party went on last, or its first. It takes no memory.
    pub fn newest_key(&self) -> LmsPublic
        ensures { IsNewest self.now.ring.keys result }
    {
        self.ring.newest()
    }

    /// Makes the party's next key and enters its Roll, as the party's own row says: a log and an authority take the key into
    /// their own directory, which is not seen as a party's Roll. What it sends is signed by the key before it.
    ///
    /// It takes as long as a key does. A log or an authority answers `LastGeneration` exactly where the newest generation is
    /// 999, but that `Memory` may come in place of it. After a refusal the party has the keys that it had.
    pub fn roll(&mut self, alloc: Global) -> Result<Sent, P::Refusal>
        // The answer, signed, with the one key that is the next of the ring, and where the party stands then.
        ensures row { (next : KeyParts) → IsNext self.old.ring.keys next
            → P.goes_on (self.old.ring.keys ++ next ∷ []) result self.old.core self.new.core
            (public_of next) }
        ensures keeps { P.keeps self.old.core self.new.core }
        // How many messages it sends at most.
        ensures few { IfOk result (λ sent. length sent.messages ≤ P.most_sent) }
        // Which keys it has.
        ensures ok { OnOk result ((next : KeyParts) → IsNext self.old.ring.keys next
            → self.new.ring.keys ≡ self.old.ring.keys ++ next ∷ []) }
        ensures err { OnErr result (self.new.ring.keys ≡ self.old.ring.keys) }
    {
        let Ok(key) = make_next(&mut self.ring, alloc) else {
            return Err(self.core.no_memory());
        };
        let unsigned = self.core.enter_roll(alloc, &key.public())?;
        self.ring.add_reserved(alloc, key);
        Ok(fill(&self.ring, unsigned))
    }
}
