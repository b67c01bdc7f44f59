//! What the checks of authorities know of owners.

ghost use Rattle.std.specs.Prelude.{◌≡◌, ◌∷◌, [], true, find, is_some, length, slice_set, option_and_then, IfOk, IfErr, IfSome, OnOk, OnErr, None, Some};
ghost use Rattle.std.specs.Option.{option_map};
ghost use Rattle.owner_check.specs.Answers.{forgotten, learnt};
ghost use Rattle.report_text.specs.declared.happening.Happening.TheVariants.{Retired};
ghost use Rattle.ar_nodes.specs.Finding.{checking_in, is_owner, with_check};
ghost use Rattle.ar_nodes.specs.Owners.{known_key};
ghost use Rattle.ar_nodes.specs.Teaching.{lesson_said, retelling, retold, told_behind};
ghost use Rattle.ar_nodes.specs.declared.fault.WorldFault.TheVariants.{Memory};

use crate::fault::WorldFault;
use crate::finding::{honest, owner_place};
use crate::lesson::Lesson;
use crate::parties::HonestAuthority;
use crate::sending::one_told;
use ar_base::Items;
use ar_names::NameView;
use owner_check::OwnerCheck;
use owner_core::Owner;
use report_text::Happening;
use std::alloc::{AllocError, Global};

/// The key by which checks know the owner with a number.
#[tactic(auto, using(crate::proofs::Found::found_owners))]
pub fn known_key(owners: &[Owner], number: u16) -> Option<[u8; 56]>
    ensures { result ≡ option_map known_key (find (is_owner number) owners.now) }
{
    let place = owner_place(owners, number)?;
    let owner = &owners[place];
    Some(owner.public().bytes())
}

/// Whether there is an honest authority with this number that has not retired.
pub fn is_checking<C: OwnerCheck>(authorities: &[Option<HonestAuthority<C>>], number: u16) -> bool
    ensures { result ≡ is_some (checking_in authorities.now number) }
{
    match honest(authorities, number) {
        Some(node) => !node.authority.core.retired(),
        None => false,
    }
}

/// The check of an authority learns that the name has the key. After an error it is as before.
#[tactic(auto, using(crate::proofs::Retold::retellings))]
fn teach<C: OwnerCheck>(
    alloc: Global,
    node: &mut HonestAuthority<C>,
    name: &[u8],
    key: &[u8; 56],
) -> Result<(), AllocError>
    requires { is_some node.old.check ≡ true }
    ensures ok { OnOk result
        (node.new ≡ record node.old {
          check = option_map
              (retelling (learnt name.now key.now)) node.old.check;
        }) }
    ensures err { OnErr result (node.new ≡ node.old) }
{
    let authority = &mut node.authority;
    authority.core.teach(alloc, name, key)
}

/// The check of an authority forgets that the name has the key.
#[tactic(auto, using(crate::proofs::Retold::retellings))]
fn forget<C: OwnerCheck>(node: &mut HonestAuthority<C>, name: &[u8], key: &[u8; 56])
    requires { is_some node.old.check ≡ true }
    ensures { node.new ≡ record node.old {
      check = option_map
          (retelling (forgotten name.now key.now)) node.old.check;
    } }
{
    let authority = &mut node.authority;
    authority.core.forget(name, key);
}

/// The check of an authority takes a lesson on the name and the key. After an error it is as before.
fn instruct<C: OwnerCheck>(
    alloc: Global,
    node: &mut HonestAuthority<C>,
    lesson: Lesson,
    name: &[u8],
    key: &[u8; 56],
) -> Result<(), AllocError>
    requires { is_some node.old.check ≡ true }
    ensures ok { OnOk result
        (node.new ≡ record node.old {
          check = option_map
              (retelling (told_behind lesson name.now key.now)) node.old.check;
        }) }
    ensures err { OnErr result (node.new ≡ node.old) }
{
    match lesson {
        Lesson::Learn => teach(alloc, node, name, key),
        Lesson::Forget => {
            forget(node, name, key);
            Ok(())
        }
    }
}

/// An authority drops its check.
fn retire<C: OwnerCheck>(node: &mut HonestAuthority<C>)
    ensures { node.new ≡ record node.old { check = None } }
{
    let authority = &mut node.authority;
    authority.core.retire();
}

/// The check of an authority that is there takes a lesson on the name and the key. After an error it is as before.
fn instruct_there<C: OwnerCheck>(
    alloc: Global,
    slot: &mut Option<HonestAuthority<C>>,
    lesson: Lesson,
    name: &[u8],
    key: &[u8; 56],
) -> Result<(), AllocError>
    requires { is_some (option_and_then with_check slot.old) ≡ true }
    ensures ok { OnOk result (IfSome (option_and_then with_check slot.old) (λ found.
        slot.new ≡ Some (retold (told_behind lesson name.now key.now) found))) }
    ensures err { OnErr result (slot.new ≡ slot.old) }
{
    match slot {
        Some(node) => instruct(alloc, node, lesson, name, key),
        None => unreachable!(),
    }
}

/// An authority that is there drops its check.
fn retire_there<C: OwnerCheck>(slot: &mut Option<HonestAuthority<C>>)
    requires { is_some (option_and_then with_check slot.old) ≡ true }
    ensures { IfSome (option_and_then with_check slot.old) (λ found.
        slot.new ≡ Some (record found.0 { check = None })) }
{
    match slot {
        Some(node) => retire(node),
        None => unreachable!(),
    }
}

/// The check of the authority with a number takes a lesson on the name and the key. After an error it is as before.
#[tactic(auto, using(crate::proofs::Retold::checking_within))]
fn instruct_at<C: OwnerCheck>(
    alloc: Global,
    authorities: &mut [Option<HonestAuthority<C>>],
    number: u16,
    lesson: Lesson,
    name: &[u8],
    key: &[u8; 56],
) -> Result<(), AllocError>
    requires { is_some (checking_in authorities.old number) ≡ true }
    ensures ok { OnOk result (IfSome (checking_in authorities.old number) (λ found. authorities.new
        ≡ slice_set authorities.old number
        (Some (retold (told_behind lesson name.now key.now) found)))) }
    ensures err { OnErr result (authorities.new ≡ authorities.old) }
    ensures len { length authorities.new ≡ length authorities.old }
{
    instruct_there(alloc, &mut authorities[number as usize], lesson, name, key)
}

/// The authority with a number drops its check.
#[tactic(auto, using(crate::proofs::Retold::checking_within))]
fn retire_at<C: OwnerCheck>(authorities: &mut [Option<HonestAuthority<C>>], number: u16)
    requires { is_some (checking_in authorities.old number) ≡ true }
    ensures set { IfSome (checking_in authorities.old number) (λ found. authorities.new
        ≡ slice_set authorities.old number (Some (record found.0 { check = None }))) }
    ensures len { length authorities.new ≡ length authorities.old }
{
    retire_there(&mut authorities[number as usize]);
}

/// What is printed of a lesson.
fn lesson_said(lesson: Lesson, authority: u16) -> Happening
    ensures { result ≡ lesson_said lesson authority }
{
    match lesson {
        Lesson::Learn => Happening::Taught { authority },
        Lesson::Forget => Happening::Forgot { authority },
    }
}

/// The check of the authority with a number takes a lesson on the name and the key, and this is told.
pub fn instructed<C: OwnerCheck>(
    alloc: Global,
    authorities: &mut [Option<HonestAuthority<C>>],
    number: u16,
    lesson: Lesson,
    name: &NameView<'_>,
    key: &[u8; 56],
) -> Result<Items<Happening>, WorldFault>
    requires { is_some (checking_in authorities.old number) ≡ true }
    ensures ok { IfOk result (λ said.
        (said ≡ lesson_said lesson number ∷ [])
        × IfSome (checking_in authorities.old number) (λ found. authorities.new
        ≡ slice_set authorities.old number
        (Some (retold (told_behind lesson name.now key.now) found)))) }
    ensures err { IfErr result (λ fault. (fault ≡ Memory) × (authorities.new ≡ authorities.old)) }
    ensures len { length authorities.new ≡ length authorities.old }
{
    let said = one_told(alloc, lesson_said(lesson, number))?;
    instruct_at(alloc, authorities, number, lesson, name.text(), key)?;
    Ok(said)
}

/// The authority with a number drops its check, and this is told.
pub fn retired<C: OwnerCheck>(
    alloc: Global,
    authorities: &mut [Option<HonestAuthority<C>>],
    number: u16,
) -> Result<Items<Happening>, WorldFault>
    requires { is_some (checking_in authorities.old number) ≡ true }
    ensures ok { IfOk result (λ said.
        (said ≡ Retired number ∷ [])
        × IfSome (checking_in authorities.old number) (λ found. authorities.new
        ≡ slice_set authorities.old number (Some (record found.0 { check = None })))) }
    ensures err { IfErr result (λ fault. (fault ≡ Memory) × (authorities.new ≡ authorities.old)) }
    ensures len { length authorities.new ≡ length authorities.old }
{
    let said = one_told(alloc, Happening::Retired { authority: number })?;
    retire_at(authorities, number);
    Ok(said)
}
