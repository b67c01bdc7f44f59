//! What dishonest parties sign, and bytes that are put into the pool.

ghost use Rattle.std.specs.Prelude.{◌≡◌, ◌+◌, ◌<◌, ◌++◌, ◌∷◌, [], IfErr, IfOk, OnErr, OnOk, None, Ok, Some, false, length, nat_lt, position, true};
ghost use Rattle.std.specs.Int.{w32};
ghost use Rattle.ar_bytes.specs.RoundTrip.{number_text};
ghost use Rattle.lms_tree.specs.Key.{signature_of};
ghost use Rattle.lms_tree.specs.Signature.{lms_signature_len_of};
ghost use Rattle.report_text.specs.declared.happening.Happening.TheVariants.{SignRefused};
ghost use Rattle.report_text.specs.declared.happening.Target.TheVariants.{Nobody};
ghost use Rattle.ar_nodes.specs.Finding.{is_forger};
ghost use Rattle.ar_nodes.specs.Forging.{forged};
ghost use Rattle.lms_tree.specs.LmsKind.{leaves_of};
ghost use Rattle.ar_nodes.specs.Pool.{entries_from, raw};
ghost use Rattle.ar_nodes.specs.declared.fault.WorldFault.TheVariants.{Memory};

use crate::fault::WorldFault;
use crate::parties::Forger;
use crate::pool::{Pool, Pooled};
use crate::sending::{enter, push_told, reserve};
use ar_base::Items;
use ar_bytes::{are_bytes, write_u32};
use ar_statement::Party;
use lms_tree::LmsKey;
use report_text::{Happening, Kind, Target};
use std::alloc::{AllocError, Global};

/// The place of the dishonest party.
pub fn forger_place(forgers: &[Forger], party: Party) -> Option<usize>
    ensures { result ≡ position (is_forger party) forgers.now }
{
    forgers
        .iter()
        .position(|forger| party.is_same(&forger.party))
}

/// Writes the generation 0, and the signature of a text by a leaf of a key.
fn write_forged(key: &LmsKey, leaf: u32, text: &[u8], out: &mut [u8])
    requires leaf { leaf < leaves_of key.now.lms }
    requires room { length out.old ≡ 4 + lms_signature_len_of key.now.lms key.now.ots }
    ensures { out.new ≡ number_text w32 0 ++ signature_of key.now leaf text.now }
{
    let (front, behind) = out.split_at_mut(4);
    write_u32(front, 0, 0);
    key.sign_at(leaf, text, behind);
}

/// The signature of a text by a dishonest party's next leaf.
fn forged(alloc: Global, forger: &Forger, text: &[u8]) -> Result<Vec<u8>, AllocError>
    requires { forger.now.next < leaves_of forger.now.key.lms }
    ensures { IfOk result (λ bytes. bytes.items ≡ forged forger.now text.now) }
{
    let mut bytes = vec![in alloc; 0u8; 4 + forger.key.signature_len()]?;
    write_forged(&forger.key, forger.next, text, &mut bytes);
    Ok(bytes)
}

/// Bytes that a script composed, before they are delivered to anyone.
#[tactic(auto, using(crate::proofs::Bytes::byte_laws))]
fn raw(alloc: Global, from: Option<Party>, to: Target, bytes: Vec<u8>) -> Pooled
    ensures { result ≡ raw from to bytes.items }
{
    are_bytes(&bytes);
    Pooled {
        kind: Kind::Raw,
        from,
        to,
        bytes,
        delivered: Vec::new(alloc),
    }
}

/// Bytes enter the pool, and this is told.
pub fn put(
    alloc: Global,
    pool: &mut Pool,
    to: Target,
    bytes: Vec<u8>,
) -> Result<Vec<Happening>, AllocError>
    ensures pool { OnOk result (pool.new.messages ≡ pool.old.messages ++ raw None to bytes.items
        ∷ []) }
    ensures said { IfOk result (λ said.
        said.items ≡ entries_from (length pool.old.messages + 1)
        (raw None to bytes.items ∷ [])) }
    ensures err { OnErr result (pool.new.messages ≡ pool.old.messages) }
{
    let mut said = reserve(alloc, pool, 1)?;
    enter(pool, &mut said, raw(alloc, None, to, bytes));
    Ok(said)
}

/// Whether a dishonest party has a leaf left.
fn has_leaf(forger: &Forger) -> bool
    ensures { result ≡ nat_lt forger.now.next (leaves_of forger.now.key.lms) }
{
    forger.next < forger.key.leaves()
}

/// A dishonest party has one leaf less.
#[tactic(auto, using(crate::proofs::Forgers::leaf_laws))]
fn take_leaf(forger: &mut Forger)
    requires { forger.old.next < leaves_of forger.old.key.lms }
    ensures { forger.new ≡ record forger.old { next = forger.old.next + 1 } }
{
    forger.next += 1;
}

/// A dishonest party signs a text by its next leaf, and the signature enters the pool, addressed to nobody; this is told.
fn sign_next(
    alloc: Global,
    pool: &mut Pool,
    forger: &mut Forger,
    text: &[u8],
) -> Result<Vec<Happening>, AllocError>
    requires { forger.old.next < leaves_of forger.old.key.lms }
    ensures forger { OnOk result (forger.new ≡ record forger.old { next = forger.old.next + 1 }) }
    ensures pool { OnOk result
        (pool.new.messages ≡ pool.old.messages
        ++ raw (Some forger.old.party) Nobody (forged forger.old text.now) ∷ []) }
    ensures said { IfOk result (λ said.
        said.items ≡ entries_from (length pool.old.messages + 1)
        (raw (Some forger.old.party) Nobody (forged forger.old text.now) ∷ [])) }
    ensures err { OnErr result ((forger.new ≡ forger.old)
        × (pool.new.messages ≡ pool.old.messages)) }
{
    let mut said = reserve(alloc, pool, 1)?;
    let bytes = forged(alloc, forger, text)?;
    enter(
        pool,
        &mut said,
        raw(alloc, Some(forger.party), Target::Nobody, bytes),
    );
    take_leaf(forger);
    Ok(said)
}

/// That a dishonest party has no leaf to sign by.
fn sign_refused(alloc: Global, party: Party) -> Result<Vec<Happening>, AllocError>
    ensures { IfOk result (λ said. said.items ≡ SignRefused party ∷ []) }
{
    let mut said = Vec::with_capacity(alloc, 1)?;
    push_told(&mut said, Happening::SignRefused { party });
    Ok(said)
}

/// A dishonest party signs a text, where a leaf is left, and this is told.
pub fn sign_by_forger(
    alloc: Global,
    pool: &mut Pool,
    forger: &mut Forger,
    text: &[u8],
) -> Result<Items<Happening>, WorldFault>
    ensures left { nat_lt forger.old.next (leaves_of forger.old.key.lms) ≡ true
        → IfOk result (λ said. (forger.new ≡ record forger.old { next = forger.old.next + 1 })
        × (pool.new.messages
        ≡ pool.old.messages ++ raw (Some forger.old.party) Nobody
        (forged forger.old text.now) ∷ [])
        × (said ≡ entries_from (length pool.old.messages + 1)
        (raw (Some forger.old.party) Nobody (forged forger.old text.now) ∷ []))) }
    ensures none { nat_lt forger.old.next (leaves_of forger.old.key.lms) ≡ false
        → IfOk result (λ said. (forger.new ≡ forger.old)
        × (pool.new.messages ≡ pool.old.messages) × (said ≡ SignRefused forger.old.party ∷ [])) }
    ensures err { IfErr result (λ fault.
        (fault ≡ Memory) × (forger.new ≡ forger.old)
        × (pool.new.messages ≡ pool.old.messages)) }
{
    if !has_leaf(forger) {
        let said = sign_refused(alloc, forger.party)?;
        return Ok(Items::from_vec(said));
    }
    let said = sign_next(alloc, pool, forger, text)?;
    Ok(Items::from_vec(said))
}
