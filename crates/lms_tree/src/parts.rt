ghost use Rattle.std.specs.Prelude.{◌≡◌};
ghost use Rattle.lms_tree.specs.Key.{id_of, secret_of};

use crate::LmsType;
use lm_ots::{OtsSecret, OtsType};
use sha2::{Digest, Sha256};
use std::marker::Model;

// What stands before the seed where I is hashed.
const ID_TAG: u8 = 0x49;

/// The seed and the types of a key, from which all else in it comes, and the identifier I.
#[derive(Drop)]
pub(crate) struct Parts {
    seed: [u8; 32],
    lms: LmsType,
    ots: OtsType,
    id: [u8; 16],
}

impl Model for Parts {
    ghost use Rattle.std.specs.Prelude.{◌≡◌};
    ghost use Rattle.lms_tree.specs.KeyParts.{KeyParts};
    ghost use Rattle.lms_tree.specs.Key.{id_of};

    ghost Value = { KeyParts };

    ghost view = { λ parts. record { seed = parts.seed; lms = parts.lms; ots = parts.ots } };

    ghost invariant = { λ parts. parts.id ≡ id_of parts.seed };
}

impl Parts {
    pub(crate) fn new(seed: &[u8; 32], lms: LmsType, ots: OtsType) -> Parts
        ensures { result ≡ record { seed = seed.now; lms = lms; ots = ots } }
    {
        Parts {
            seed: *seed,
            lms,
            ots,
            id: id_of(seed),
        }
    }

    pub(crate) fn seed(&self) -> &[u8; 32]
        ensures { result.now ≡ self.now.seed }
    {
        &self.seed
    }

    pub(crate) fn lms(&self) -> LmsType
        ensures { result ≡ self.now.lms }
    {
        self.lms
    }

    pub(crate) fn ots(&self) -> OtsType
        ensures { result ≡ self.now.ots }
    {
        self.ots
    }

    pub(crate) fn id(&self) -> &[u8; 16]
        ensures { result.now ≡ id_of self.now.seed }
    {
        &self.id
    }

    /// The one-time private key of a leaf.
    pub(crate) fn secret(&self, leaf: u32) -> OtsSecret
        ensures { result ≡ secret_of self.now leaf }
    {
        OtsSecret {
            id: self.id,
            leaf,
            kind: self.ots,
            seed: self.seed,
        }
    }
}

// I: the first 16 bytes of H(0x49 || SEED).
#[tactic(auto, unfolding(crate::specs::Key::id_of))]
fn id_of(seed: &[u8; 32]) -> [u8; 16]
    ensures { result ≡ id_of seed.now }
{
    let mut hasher = Sha256::new();
    hasher.update(&[ID_TAG]);
    hasher.update(seed);
    let mut id = [0u8; 16];
    id.copy_from_slice(&hasher.finalize()[..16]);
    id
}
