//! The lines `owner`, `teach`, `forget` and `retire`.

ghost use Rattle.std.specs.Prelude.{◌≡◌, ◌++◌, ◌∷◌, [], IfOk, OnOk, OnErr, Some};
ghost use Rattle.owner_core.specs.Rows.{first_owner};
ghost use Rattle.ar_founding.specs.FirstKeys.{key_made};
ghost use Rattle.ar_statement.specs.Claims.{owner_party};
ghost use Rattle.lms_tree.specs.LmsKind.{leaves_of};
ghost use Rattle.ar_world.specs.Records.{HasParties};
ghost use Rattle.ar_world.specs.Owning.{lesson_line, owner_key, owner_line, retire_line};
ghost use Rattle.ar_world.specs.Step.{StepsBy};

use crate::world::World;
use ar_base::Items;
use ar_founding::{Setup, key_made, make_key};
use ar_names::NameView;
use ar_nodes::finding::has_owner;
use ar_nodes::sending::one_told;
use ar_nodes::teaching::{instructed, is_checking, known_key, retired};
use ar_nodes::{Lesson, WorldFault};
use ar_statement::Role;
use lms_tree::LmsKey;
use owner_check::OwnerCheck;
use owner_core::Owner;
use party_keys::Directory;
use report_text::Happening;
use std::alloc::{AllocError, Global};

/// The key of an owner. It takes as long as a key does. The only error is want of memory.
fn owner_key(alloc: Global, secret: &[u8; 32], number: u16) -> Result<LmsKey, AllocError>
    ensures { IfOk result (λ key. key ≡ owner_key secret.now number) }
{
    let mut setup = Setup::plain();
    setup.tell_secret(*secret);
    make_key(alloc, &setup, Role::Owner, number)
}

/// An owner that has done nothing yet, and knows the first keys. The only error is want of memory.
fn new_owner(
    alloc: Global,
    secret: &[u8; 32],
    genesis: &Directory,
    number: u16,
) -> Result<Owner, AllocError>
    ensures { IfOk result (λ owner. owner
        ≡ first_owner number genesis.now (owner_key secret.now number)
        (leaves_of (owner_key secret.now number).lms)) }
{
    let key = owner_key(alloc, secret, number)?;
    Owner::new(alloc, number, genesis.copy(alloc)?, key)
}

/// Puts a new owner behind the others.
fn add_owner(
    alloc: Global,
    owners: &mut Vec<Owner>,
    secret: &[u8; 32],
    genesis: &Directory,
    number: u16,
) -> Result<Items<Happening>, AllocError>
    ensures owners { OnOk result (owners.new.items
        ≡ owners.old.items
        ++ first_owner number genesis.now (owner_key secret.now number)
        (leaves_of (owner_key secret.now number).lms) ∷ []) }
    ensures said { IfOk result (λ said.
        said ≡ key_made (owner_party number) (owner_key secret.now number) ∷ []) }
    ensures err { OnErr result (owners.new.items ≡ owners.old.items) }
{
    owners.reserve(1)?;
    let owner = new_owner(alloc, secret, genesis, number)?;
    let said = one_told(alloc, key_made(Role::Owner.party(number), &owner.public()))?;
    owners.push_reserved(owner);
    Ok(said)
}

impl<C: OwnerCheck> World<C> {
    /// The line `owner`: an owner is there, with its key.
    pub(crate) fn owner_line(
        &mut self,
        alloc: Global,
        owner: u16,
    ) -> Result<Items<Happening>, WorldFault>
        requires { HasParties self.old }
        ensures { StepsBy result self.old self.new (owner_line self.old owner) }
    {
        if has_owner(&self.owners, owner) {
            return Err(WorldFault::Absent(1));
        }
        let Some(known) = &self.directories else {
            unreachable!()
        };
        let secret = &self.setup.secret;
        let said = add_owner(alloc, &mut self.owners, secret, &known.genesis, owner)?;
        Ok(said)
    }

    /// The lines `teach` and `forget`: the check of an authority learns that a name is an owner's, or forgets it.
    #[tactic(auto, using(crate::proofs::Retold::lesson_refusals))]
    pub(crate) fn lesson_line(
        &mut self,
        alloc: Global,
        lesson: Lesson,
        authority: u16,
        name: &NameView<'_>,
        owner: u16,
    ) -> Result<Items<Happening>, WorldFault>
        ensures { StepsBy result self.old self.new
            (lesson_line self.old lesson authority name.now owner) }
    {
        if !is_checking(&self.authorities, authority) {
            return Err(WorldFault::Absent(1));
        }
        let Some(key) = known_key(&self.owners, owner) else {
            return Err(WorldFault::Absent(3));
        };
        instructed(alloc, &mut self.authorities, authority, lesson, name, &key)
    }

    /// The line `retire`: an authority drops its check.
    #[tactic(auto, using(crate::proofs::Retold::retire_refused))]
    pub(crate) fn retire_line(
        &mut self,
        alloc: Global,
        authority: u16,
    ) -> Result<Items<Happening>, WorldFault>
        ensures { StepsBy result self.old self.new (retire_line self.old authority) }
    {
        if !is_checking(&self.authorities, authority) {
            return Err(WorldFault::Absent(1));
        }
        retired(alloc, &mut self.authorities, authority)
    }
}
