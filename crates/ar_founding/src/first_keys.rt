//! The keys with which logs and authorities begin.

ghost use Rattle.std.specs.Prelude.{◌≡◌, [], IfOk, OnOk};
ghost use Rattle.lms_tree.specs.PublicKey.{key_text};
ghost use Rattle.report_text.specs.declared.happening.Happening.TheVariants.{Made};
ghost use Rattle.sha2.specs.Sha256.{sha256};
ghost use Rattle.ar_founding.specs.FirstKeys.{first_of, with_first, keys_made, key_for, keys_for};

use crate::setup::Setup;
use ar_statement::{Party, Role};
use key_roll::KeyRing;
use lms_tree::{KeyFault, LmsKey, LmsPublic};
use party_keys::party_seed;
use report_text::Happening;
use sha2::{Digest, Sha256};
use std::alloc::{AllocError, Global};
use std::marker::Model;

/// The first keys of the parties of a role by number, each in a ring of its own, and their public keys.
#[derive(Drop)]
pub struct FirstKeys {
    /// The rings.
    pub rings: Vec<KeyRing>,
    /// The public keys.
    pub(crate) publics: Vec<LmsPublic>,
}

// Clauses see the rings and the public keys.
impl Model for FirstKeys {
    ghost use Rattle.ar_founding.specs.FirstKeys.{FirstKeys as Parts};

    ghost Value = { Parts };

    ghost view = { λ f. record { rings = f.rings.items; publics = f.publics.items } };
}

impl FirstKeys {
    /// No keys. It takes no memory.
    pub fn none(alloc: Global) -> FirstKeys
        ensures { result ≡ first_of [] }
    {
        FirstKeys {
            rings: Vec::new(alloc),
            publics: Vec::new(alloc),
        }
    }

    /// Adds the key of the next party. The only error is want of memory.
    fn add(&mut self, alloc: Global, key: LmsKey) -> Result<(), AllocError>
        ensures { OnOk result (self.new ≡ with_first self.old key) }
    {
        self.publics.push(key.public())?;
        match KeyRing::new(alloc, key) {
            Ok(ring) => {
                self.rings.push(ring)?;
                Ok(())
            }
            Err((_key, error)) => Err(error),
        }
    }
}

/// The first key of a party by what the setup says. It takes as long as a key does. The only error is want of memory.
pub fn make_key(alloc: Global, setup: &Setup, role: Role, number: u16) -> Result<LmsKey, AllocError>
    ensures { IfOk result (λ key. key ≡ key_for setup.now role number) }
{
    let seed = party_seed(&setup.secret, role, number);
    match LmsKey::make(alloc, &seed, setup.lms.number(), setup.ots.number()) {
        Ok(key) => Ok(key),
        Err(KeyFault::Memory) => Err(AllocError),
        Err(KeyFault::Kind) => unreachable!(),
    }
}

/// That the key of a party is made.
pub fn key_made(party: Party, key: &LmsPublic) -> Happening
    ensures { result ≡ Made party (sha256 (key_text key.now)) }
{
    let mut hasher = Sha256::new();
    hasher.update(&key.bytes());
    Happening::Made {
        party,
        digest: hasher.finalize(),
    }
}

/// The first keys of so many parties of a role, and what is told of them. The only error is want of memory.
pub fn make_first_keys(
    alloc: Global,
    setup: &Setup,
    role: Role,
    count: u16,
) -> Result<(FirstKeys, Vec<Happening>), AllocError>
    ensures keys { IfOk result (λ made. made.0 ≡ first_of (keys_for setup.now role count)) }
    ensures said { IfOk result (λ made. made.1.items ≡ keys_made setup.now role count) }
{
    let mut keys = FirstKeys::none(alloc);
    let mut said = Vec::new(alloc);
    for number in 0..count {
        let key = make_key(alloc, setup, role, number)?;
        said.push(key_made(role.party(number), &key.public()))?;
        keys.add(alloc, key)?;
    }
    Ok((keys, said))
}
