ghost use Rattle.std.specs.Prelude.{◌≡◌, ◌<◌, ◌≤◌, ◌+◌, ◌-◌, ◌++◌, ◌∷◌, [], length, take, replicate, slice_get, slice_set, ℕ, OnOk, OnErr, Ok};
ghost use Rattle.std.specs.Option.{option_copied};
ghost use Rattle.std.specs.Prelude.{alloc_error};
ghost use Rattle.ar_base.specs.Gives.{GivesUnless};
ghost use Rattle.party_keys.specs.Directory.{HaveKeys, first_keys, keys_at};
ghost use Rattle.party_keys.specs.Learning.{with_next_at};

use lms_tree::LmsPublic;
use std::alloc::{AllocError, Global};
use std::marker::Model;

/// The keys of a party behind that of generation 0.
#[derive(Debug, Drop)]
struct Later {
    keys: Vec<LmsPublic>,
}

// Clauses see the keys.
impl Model for Later {
    ghost use Rattle.std.specs.Prelude.{List};
    ghost use Rattle.lms_tree.specs.declared.public_key.LmsPublic.{LmsPublic};

    ghost Value = { List LmsPublic };

    ghost view = { λ l. l.keys.items };
}

impl Later {
    /// No keys. It takes no memory.
    fn new(alloc: Global) -> Later
        ensures { result ≡ [] }
    {
        Later {
            keys: Vec::new(alloc),
        }
    }

    /// The same keys once more.
    fn copy(&self, alloc: Global) -> Result<Later, AllocError>
        ensures { GivesUnless alloc_error (λ copy. copy) result (Ok self.now) }
    {
        Ok(Later {
            keys: Vec::from_slice(alloc, &self.keys)?,
        })
    }

    /// Puts a key behind the first so many, or behind all where there are fewer, and drops the others.
    fn put(&mut self, place: usize, key: LmsPublic) -> Result<(), AllocError>
        ensures ok { OnOk result (self.new ≡ take place self.old ++ key ∷ []) }
        ensures err { OnErr result (self.new ≡ self.old) }
    {
        if place < self.keys.len() {
            self.keys[place] = key;
            self.keys.truncate(place + 1);
        } else {
            self.keys.push(key)?;
        }
        Ok(())
    }
}

/// The keys of the parties of one role, by number and generation.
///
/// The first keys lie in the vector that they came in, so that a directory is made without memory. A list of
/// later keys is made where a party has one.
#[derive(Debug, Drop)]
pub(crate) struct RoleKeys {
    first: Vec<LmsPublic>,
    later: Vec<Later>,
}

// Clauses see a list of keys for each party.
impl Model for RoleKeys {
    ghost use Rattle.std.specs.Prelude.{List};
    ghost use Rattle.lms_tree.specs.declared.public_key.LmsPublic.{LmsPublic};

    ghost Value = { List (List LmsPublic) };

    ghost use Rattle.party_keys.specs.Directory.{HaveKeys};
    ghost use Rattle.party_keys.specs.Kept.{joined};

    ghost view = { λ k. joined k.first.items k.later.items };

    ghost invariant = { λ k. HaveKeys (joined k.first.items k.later.items) };
}

/// The key at a place.
fn key_in(keys: &[LmsPublic], place: usize) -> Option<&LmsPublic>
    ensures { option_copied result ≡ slice_get keys.now place }
{
    keys.get(place)
}

/// The later keys of the party with a number, none where no list is kept for it.
fn keys_in(later: &[Later], number: usize) -> &[LmsPublic]
    ensures { result.now ≡ keys_at later.now number }
{
    match later.get(number) {
        Some(list) => &list.keys,
        None => &[],
    }
}

/// Puts a key behind the first so many later keys of the party with a number, and drops the others.
fn put_at(
    later: &mut Vec<Later>,
    number: usize,
    place: usize,
    key: LmsPublic,
) -> Result<(), AllocError>
    requires { number < length later.old.items }
    ensures ok { OnOk result
        (later.new.items ≡ slice_set later.old.items number
        (take place (keys_at later.old.items number) ++ key ∷ [])) }
    ensures err { OnErr result (later.new.items ≡ later.old.items) }
{
    later[number].put(place, key)
}

/// Makes empty lists of later keys, until there are so many.
#[tactic(auto, using(crate::proofs::Joined::reaching))]
fn reach(alloc: Global, later: &mut Vec<Later>, count: usize) -> Result<(), AllocError>
    ensures grown { (more : ℕ) × (later.new.items ≡ later.old.items ++ replicate more []) }
    ensures reached { OnOk result (count ≤ length later.new.items) }
{
    for _ in later.len()..count {
        later.push(Later::new(alloc))?;
    }
    Ok(())
}

impl RoleKeys {
    /// The keys with which the parties begin. It takes no memory.
    #[tactic(auto, using(crate::proofs::Joined::made))]
    pub(crate) fn new(first: Vec<LmsPublic>) -> RoleKeys
        ensures { result ≡ first_keys first.items }
    {
        let later = Vec::new(*first.allocator());
        RoleKeys { first, later }
    }

    /// How many parties there are.
    #[tactic(auto, using(crate::proofs::Joined::lengths))]
    pub(crate) fn len(&self) -> usize
        ensures value { result ≡ length self.now }
        ensures keys { HaveKeys self.now }
    {
        self.first.len()
    }

    /// The key of a generation of the party with this number.
    #[tactic(auto, using(crate::proofs::Joined::looked_up))]
    pub(crate) fn get(&self, number: usize, generation: usize) -> Option<&LmsPublic>
        ensures { option_copied result ≡ slice_get (keys_at self.now number) generation }
    {
        let first = key_in(&self.first, number)?;
        if generation == 0 {
            return Some(first);
        }
        key_in(keys_in(&self.later, number), generation - 1)
    }

    /// Makes a key the next behind a generation of the party with this number, and the newest.
    #[tactic(auto, using(crate::proofs::Joined::grown))]
    pub(crate) fn put(
        &mut self,
        alloc: Global,
        number: u16,
        generation: usize,
        key: LmsPublic,
    ) -> Result<(), AllocError>
        ensures ok { OnOk result (self.new ≡ with_next_at self.old number generation key) }
        ensures err { OnErr result (self.new ≡ self.old) }
    {
        let place = number as usize;
        reach(alloc, &mut self.later, place + 1)?;
        put_at(&mut self.later, place, generation, key)
    }

    /// The same keys once more.
    #[tactic(auto, using(crate::proofs::Joined::copied))]
    pub(crate) fn copy(&self, alloc: Global) -> Result<RoleKeys, AllocError>
        ensures { GivesUnless alloc_error (λ copy. copy) result (Ok self.now) }
    {
        let mut later = Vec::new(alloc);
        for keys in &self.later {
            later.push(keys.copy(alloc)?)?;
        }
        Ok(RoleKeys {
            first: Vec::from_slice(alloc, &self.first)?,
            later,
        })
    }
}
