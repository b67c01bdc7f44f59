//! The calls that are measured. Each stands in a function that is never inlined, so that its name is
//! seen by whoever counts.
ghost use Rattle.std.specs.Prelude.{◌≡◌, ◌<◌, length};
ghost use Rattle.ar_base.specs.Gives.{GivesUnless};
ghost use Rattle.hash_tree.specs.Entries.{entries_of, HasAscendingKeys};
ghost use Rattle.hash_tree.specs.Root as tree;
ghost use Rattle.lms_tree.specs.Key as signing;
ghost use Rattle.lms_tree.specs.LmsKind.{leaves_of};
ghost use Rattle.lms_tree.specs.Signature.{lms_signature_len_of};
ghost use Rattle.lms_tree.specs.declared.key.KeyFault.TheVariants.{Memory};

use crate::table::table;
use hash_tree::{Steps, Trie, root_of};
use lms_tree::{KeyFault, LmsKey};
use std::alloc::{AllocError, Global};
use std::io::{self, ErrorKind};
use std::marker::Brand;
use std::sync::ledger::{Blank, Ledger};

const SEED: [u8; 32] = [
    0, 1, 2, 3, 4, 5, 6, 7, 8, 9, 10, 11, 12, 13, 14, 15, 16, 17, 18, 19, 20, 21, 22, 23, 24, 25,
    26, 27, 28, 29, 30, 31,
];

const MESSAGE: [u8; 3] = *b"abc";

const LEAF: u32 = 0;

/// The key of two types and the seed.
pub(crate) fn key_of(alloc: Global, lms: u32, ots: u32) -> io::Result<LmsKey> {
    match make_key(alloc, &SEED, lms, ots) {
        Ok(key) => Ok(key),
        Err(KeyFault::Kind) => Err(ErrorKind::InvalidInput.into()),
        Err(KeyFault::Memory) => Err(ErrorKind::OutOfMemory.into()),
    }
}

/// A key's signature of the message at the leaf.
pub(crate) fn signature_of(alloc: Global, key: &LmsKey) -> io::Result<Vec<u8>> {
    let mut signature = vec![in alloc; 0u8; key.signature_len()]?;
    sign(key, LEAF, &MESSAGE, &mut signature);
    Ok(signature)
}

/// The root of a table.
pub(crate) fn root_of_table(alloc: Global, count: u32) -> io::Result<[u8; 32]> {
    match table(alloc, count)? {
        Some(entries) => Ok(root(&entries)),
        None => Err(ErrorKind::InvalidInput.into()),
    }
}

/// The root of the kept tree of a table, whose entries are set one by one, and then the first of them
/// once more with another value if that is asked for.
pub(crate) fn root_kept(alloc: Global, count: u32, changed: bool) -> io::Result<[u8; 32]> {
    match table(alloc, count)? {
        Some(entries) => Ok(keep::<Brand>(alloc, &entries, changed, Blank::new(1))?),
        None => Err(ErrorKind::InvalidInput.into()),
    }
}

fn keep<L: Ledger>(
    alloc: Global,
    entries: &[([u8; 32], [u8; 32])],
    changed: bool,
    blank: Blank,
) -> Result<[u8; 32], AllocError>
    requires name { blank.name ≡ L.name }
    requires parts { blank.parts ≡ L.parts }
    requires some { 0 < L.parts }
{
    let mut steps = Steps::<L>::new(blank);
    let mut trie = Trie::new();
    fill(alloc, &mut trie, entries, &mut steps)?;
    if changed && let [(key, _), ..] = entries {
        change(alloc, &mut trie, key, &mut steps)?;
    }
    Ok(trie.root())
}

#[inline(never)]
fn fill<L: Ledger>(
    alloc: Global,
    trie: &mut Trie,
    entries: &[([u8; 32], [u8; 32])],
    steps: &mut Steps<L>,
) -> Result<(), AllocError> {
    for (key, value) in entries {
        trie.set(alloc, *key, *value, steps)?;
    }
    Ok(())
}

#[inline(never)]
fn change<L: Ledger>(
    alloc: Global,
    trie: &mut Trie,
    key: &[u8; 32],
    steps: &mut Steps<L>,
) -> Result<(), AllocError> {
    trie.set(alloc, *key, [0; 32], steps)
}

#[inline(never)]
fn make_key(alloc: Global, seed: &[u8; 32], lms: u32, ots: u32) -> Result<LmsKey, KeyFault>
    ensures { GivesUnless Memory (λ key. key) result (signing.made seed.now lms ots) }
{
    LmsKey::make(alloc, seed, lms, ots)
}

#[inline(never)]
fn sign(key: &LmsKey, leaf: u32, message: &[u8], out: &mut [u8])
    requires leaf { leaf < leaves_of key.now.lms }
    requires room { length out.old ≡ lms_signature_len_of key.now.lms key.now.ots }
    ensures { out.new ≡ signing.signature_of key.now leaf message.now }
{
    key.sign_at(leaf, message, out);
}

#[inline(never)]
fn root(entries: &[([u8; 32], [u8; 32])]) -> [u8; 32]
    requires { HasAscendingKeys entries.now }
    ensures { result ≡ tree.root (entries_of entries.now) }
{
    root_of(entries)
}
