ghost use Rattle.std.specs.Prelude.{◌≡◌, ◌<◌, ◌-◌, ◌++◌, ◌∷◌, [], ℕ, length, max, slice_get, Some, IfOk, IfErr, OnOk, OnErr, MatchResult};
ghost use Rattle.key_roll.specs.Ring.{IsNewest, IsNext, Owes, next_seed, ring_signature_len, signature_by};
ghost use Rattle.lms_tree.specs.KeyParts.{KeyParts};

use crate::RollDue;
use ar_bytes::write_u32;
use lms_tree::{KeyFault, LmsKey, LmsPublic};
use sha2::{Digest, Sha256};
use std::alloc::{AllocError, Global};
use std::marker::Model;

// What stands before the seed where the next one is hashed.
const NEXT_TAG: u8 = 0x54;

/// The keys of a party, one for each generation from 0 to the newest.
#[derive(Drop)]
pub struct KeyRing {
    keys: Vec<LmsKey>,
    // For how many more keys memory was taken.
    room: usize,
}

// Clauses see the keys and the room.
impl Model for KeyRing {
    ghost use Rattle.std.specs.Prelude.{◌+◌, ◌≤◌, vec_len, vec_capacity};
    ghost use Rattle.key_roll.specs.Ring.{IsRing, RingParts};

    ghost Value = { RingParts };

    ghost view = { λ r. record { keys = r.keys.items; room = r.room } };

    ghost invariant = { λ r. IsRing r.keys.items
        × (vec_len r.keys + r.room ≤ vec_capacity r.keys) };
}

impl KeyRing {
    /// The ring with one key, that of generation 0. Where memory is wanting the key comes back.
    pub fn new(alloc: Global, key: LmsKey) -> Result<KeyRing, (LmsKey, AllocError)>
        ensures { MatchResult result (λ ring.
            ring ≡ record { keys = key ∷ []; room = 0 }) (λ e. e.0 ≡ key) }
    {
        let mut keys = Vec::new(alloc);
        match keys.push(key) {
            Ok(()) => Ok(KeyRing { keys, room: 0 }),
            Err(refused) => Err((refused.value, AllocError)),
        }
    }

    /// Makes the next key: of the types of the newest, from the next secret. It takes as long as a key
    /// does. The only error is want of memory.
    pub fn next(&self, alloc: Global) -> Result<LmsKey, AllocError>
        ensures { IfOk result (λ key. IsNext self.now.keys key) }
    {
        let newest = &self.keys[self.keys.len() - 1];
        let public = newest.public();
        let seed = next_seed(newest.seed());
        match LmsKey::make(alloc, &seed, public.lms.number(), public.ots.number()) {
            Ok(key) => Ok(key),
            Err(KeyFault::Memory) => Err(AllocError),
            Err(KeyFault::Kind) => unreachable!(),
        }
    }

    /// The public key of the newest generation. It takes no memory.
    pub fn newest(&self) -> LmsPublic
        ensures { IsNewest self.now.keys result }
    {
        self.keys[self.keys.len() - 1].public()
    }

    /// Takes memory for one key more, where there is room for none: the next `add` then answers `Ok`. The
    /// only error is want of memory, and then the ring is as it was. The allocator is the one that the
    /// ring was made with.
    pub fn reserve(&mut self, _alloc: Global) -> Result<(), AllocError>
        ensures ok { OnOk result (self.new ≡ record self.old { room = max self.old.room 1 }) }
        ensures err { OnErr result (self.new ≡ self.old) }
    {
        self.keys.reserve(1)?;
        self.room = self.room.max(1);
        Ok(())
    }

    /// Adds the next key. Where memory is wanting it comes back, and the ring is as it was; this comes
    /// only where no room was reserved. The allocator is the one that the ring was made with.
    pub fn add(&mut self, _alloc: Global, key: LmsKey) -> Result<(), (LmsKey, AllocError)>
        requires { IsNext self.old.keys key }
        ensures ok { OnOk result (self.new.keys ≡ self.old.keys ++ key ∷ []) }
        ensures back { IfErr result (λ e. e.0 ≡ key) }
        ensures err { OnErr result (self.new ≡ self.old) }
        ensures memory { OnErr result (self.old.room ≡ 0) }
        ensures room { OnOk result (self.new.room ≡ self.old.room - 1) }
    {
        match self.keys.push(key) {
            Ok(()) => {
                self.room = self.room.saturating_sub(1);
                Ok(())
            }
            Err(refused) => Err((refused.value, AllocError)),
        }
    }

    /// Adds the next key, for which room was reserved. It takes no memory.
    pub fn add_reserved(&mut self, alloc: Global, key: LmsKey)
        requires next { IsNext self.old.keys key }
        requires room { 0 < self.old.room }
        ensures keys { self.new.keys ≡ self.old.keys ++ key ∷ [] }
        ensures room { self.new.room ≡ self.old.room - 1 }
    {
        match self.add(alloc, key) {
            Ok(()) => {}
            Err(_) => unreachable!(),
        }
    }

    /// The key of generation 0; the others are dropped. It takes no memory.
    pub fn into_first(self) -> LmsKey
        ensures { slice_get self.keys 0 ≡ Some result }
    {
        match self.keys.into_iter().next() {
            Some(key) => key,
            None => unreachable!(),
        }
    }

    /// How many bytes a signature by one of the ring's keys has, with u32 generation in front. All keys have
    /// the same types, so it is the same for each.
    pub fn signature_len(&self) -> usize
        ensures { (g : ℕ) (key : KeyParts) → slice_get self.now.keys g ≡ Some key
            → result ≡ ring_signature_len key }
    {
        4 + self.keys[0].signature_len()
    }

    /// Writes the signature that is due into `out`: u32 generation, and the signature of the statement's
    /// text by its leaf under the key of this generation. It takes no memory.
    ///
    /// The ring's keys are the book's own.
    pub fn sign(&self, due: RollDue, out: &mut [u8])
        requires { Owes self.now.keys due (length out.old) }
        ensures { (key : KeyParts) → slice_get self.now.keys due.generation ≡ Some key
            → out.new ≡ signature_by key due }
    {
        let RollDue {
            generation,
            leaf,
            text,
            leaves: _,
        } = due;
        let key = &self.keys[generation as usize];
        let (front, behind) = out.split_at_mut(4);
        write_u32(front, 0, generation);
        key.sign_at(leaf, text.as_bytes(), behind);
    }
}

/// How many bytes a signature by a ring that begins with this key has, with u32 generation in front.
pub fn ring_signature_len(key: &LmsKey) -> u16
    ensures { result ≡ ring_signature_len key.now }
{
    4 + key.signature_len() as u16
}

// The secret of the next generation: H(0x54 || SEED).
#[tactic(auto, unfolding(crate::specs::Ring::next_seed))]
fn next_seed(seed: &[u8; 32]) -> [u8; 32]
    ensures { result ≡ next_seed seed.now }
{
    let mut hasher = Sha256::new();
    hasher.update(&[NEXT_TAG]);
    hasher.update(seed);
    hasher.finalize()
}
