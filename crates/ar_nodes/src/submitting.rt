//! What owners make of drafts, and what is told of it.

ghost use Rattle.std.specs.Prelude.{◌≡◌, ◌≢◌, ◌<◌, ◌∷◌, [], vec_capacity, IfOk, IfErr, Ok, Err, Some, None};
ghost use Rattle.owner_core.specs.declared.refusal.OwnerRefusal.TheVariants as refusals;
ghost use Rattle.report_text.specs.declared.happening.Happening.TheVariants.{Step};
ghost use Rattle.ar_nodes.specs.Acting.{ActsBy, owner_objected, owner_submitted};
ghost use Rattle.ar_nodes.specs.Codes.{owner_code};
ghost use Rattle.ar_nodes.specs.declared.fault.WorldFault.TheVariants.{Memory};

use crate::codes::owner_code;
use crate::fault::WorldFault;
use crate::owners;
use crate::pool::Pool;
use crate::replying::tell_reply;
use crate::sending::{push_told, refuses, reserve};
use ar_base::Items;
use ar_cert::Cert;
use ar_statement::{Party, Role};
use owner_core::{Owner, OwnerRefusal};
use report_text::{Happening, What};
use std::alloc::Global;

/// That an owner refused is told, unless memory was wanting.
pub fn say_refused(
    said: Vec<Happening>,
    owner: Party,
    what: What,
    refusal: OwnerRefusal,
) -> Result<Items<Happening>, WorldFault>
    requires none { said.items ≡ [] }
    requires one { 0 < vec_capacity said }
    ensures ok { IfOk result (λ told.
        (told ≡ Step owner what (Some (owner_code refusal)) ∷ [])
        × (refusal ≢ refusals.Memory)) }
    ensures err { IfErr result (λ fault. (fault ≡ Memory) × (refusal ≡ refusals.Memory)) }
{
    let mut said = said;
    match refusal {
        OwnerRefusal::Memory => Err(WorldFault::Memory),
        _ => {
            refuses(&mut said, owner, what, owner_code(refusal));
            Ok(Items::from_vec(said))
        }
    }
}

/// That an owner did something is told.
pub fn took(said: Vec<Happening>, owner: Party, what: What) -> Items<Happening>
    requires none { said.items ≡ [] }
    requires one { 0 < vec_capacity said }
    ensures { result ≡ Step owner what None ∷ [] }
{
    let mut said = said;
    let step = Happening::Step {
        party: owner,
        what,
        refused: None,
    };
    push_told(&mut said, step);
    Items::from_vec(said)
}

/// An owner objects to a certificate, and this is told.
pub fn objected(
    alloc: Global,
    owner: &mut Owner,
    pool: &mut Pool,
    number: u16,
    draft: u64,
    cert: &Cert,
) -> Result<Items<Happening>, WorldFault>
    ensures { ActsBy result owner.old owner.new pool.old.messages pool.new.messages
        (owner_objected pool.old.messages number draft cert.now owner.old) }
{
    let said = reserve(alloc, pool, 1)?;
    let reply = owners::object(alloc, owner, cert)?;
    let party = Role::Owner.party(number);
    Ok(tell_reply(alloc, pool, said, party, What::Object(draft), reply))
}

/// An owner submits its draft with this certificate, and this is told.
pub fn submitted(
    alloc: Global,
    owner: &Owner,
    pool: &mut Pool,
    number: u16,
    draft: u64,
    cert: &Cert,
) -> Result<Items<Happening>, WorldFault>
    ensures { ActsBy result owner.now owner.now pool.old.messages pool.new.messages
        (owner_submitted pool.old.messages number draft cert.now owner.now) }
{
    let said = reserve(alloc, pool, 1)?;
    let reply = owners::submit(alloc, owner, cert)?;
    let party = Role::Owner.party(number);
    Ok(tell_reply(alloc, pool, said, party, What::Submit(draft), reply))
}
