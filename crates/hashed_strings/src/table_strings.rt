//! The strings that are hashed for a table, which are told of its names.

ghost use Rattle.std.specs.Prelude.{◌≡◌, ◌++◌, ◌∷◌, [], IfOk, OnOk, flat_map, map};
ghost use Rattle.std.specs.FinMap.{get};
ghost use Rattle.std.specs.Int.{to_be_bytes, w64};
ghost use Rattle.std.specs.Option.{option_map};
ghost use Rattle.ar_cert.specs.Certificate.{certificate_string, digest_of};
ghost use Rattle.domain_table.specs.Tables.{certificates_of, newest};
ghost use Rattle.domain_table.specs.Tree.{chain_strings, newest_strings};
ghost use Rattle.hash_tree.specs.Strings.{pending_key_string, pending_string};
ghost use Rattle.hashed_strings.specs.Named.{name_strings, strings_of_chain, strings_of_pending, strings_told};

use crate::tree_strings::{put_string, put_text, put_tree};
use ar_base::Items;
use ar_cert::{Cert, Change};
use domain_table::Table;
use std::alloc::{AllocError, Global};

/// Puts the string of a certificate's digest behind the others. The only error is want of memory.
fn put_cert(alloc: Global, strings: &mut Vec<Items<u8>>, cert: &Cert) -> Result<(), AllocError>
    ensures { OnOk result (strings.new.items ≡ strings.old.items ++ certificate_string cert.now
        ∷ []) }
{
    let mut string = Vec::new(alloc);
    string.push(0x10)?;
    cert.write(alloc, &mut string)?;
    strings.push(Items::from_vec(string))?;
    Ok(())
}

/// Puts those of the certificates of changes behind the others. The only error is want of memory.
fn put_certs(
    alloc: Global,
    strings: &mut Vec<Items<u8>>,
    changes: &[Change],
) -> Result<(), AllocError>
    ensures { OnOk result
        (strings.new.items ≡ strings.old.items
        ++ map certificate_string (certificates_of changes.now)) }
{
    if let [change, rest @ ..] = changes {
        put_cert(alloc, strings, &change.cert)?;
        put_certs(alloc, strings, rest)?;
    }
    Ok(())
}

/// Puts a string of a number and a digest behind the others. The only error is want of memory.
pub(crate) fn put_numbered(
    alloc: Global,
    strings: &mut Vec<Items<u8>>,
    kind: u8,
    number: u64,
    digest: &[u8; 32],
) -> Result<(), AllocError>
    ensures { OnOk result
        (strings.new.items ≡ strings.old.items ++ (kind ∷ to_be_bytes w64 number ++ digest.now)
        ∷ []) }
{
    put_string(alloc, strings, kind, &number.to_be_bytes(), digest)
}

/// Puts the string of a name's value behind the others. The only error is want of memory.
fn put_newest(
    alloc: Global,
    strings: &mut Vec<Items<u8>>,
    last: Option<&Cert>,
) -> Result<(), AllocError>
    ensures { OnOk result
        (strings.new.items ≡ strings.old.items
        ++ newest_strings (option_map (λ cert. cert.now) last.entry)) }
{
    match last {
        Some(cert) => put_numbered(alloc, strings, 0x03, cert.serial, &cert.digest()),
        None => Ok(()),
    }
}

/// Puts the strings of a name and its chain behind the others. The only error is want of memory.
fn put_chain(
    alloc: Global,
    strings: &mut Vec<Items<u8>>,
    name: &[u8],
    last: Option<&Cert>,
    chain: &[Change],
) -> Result<(), AllocError>
    requires { option_map (λ cert. cert.now) last ≡ newest chain.now }
    ensures { OnOk result
        (strings.new.items ≡ strings.old.items ++ chain_strings name.now chain.now) }
{
    put_text(alloc, strings, 0x11, name)?;
    put_newest(alloc, strings, last)?;
    put_certs(alloc, strings, chain)
}

/// Puts the strings of a name, and of the certificate that waits for it, behind the others. The only error is want of memory.
fn put_pending(
    alloc: Global,
    strings: &mut Vec<Items<u8>>,
    name: &[u8],
    cert: &Cert,
    since: u64,
) -> Result<(), AllocError>
    ensures { OnOk result (strings.new.items ≡ strings.old.items
        ++ pending_key_string name.now
        ∷ (pending_string since (digest_of cert.now) ∷ (certificate_string cert.now ∷ []))) }
{
    put_text(alloc, strings, 0x12, name)?;
    put_numbered(alloc, strings, 0x04, since, &cert.digest())?;
    put_cert(alloc, strings, cert)
}

// ---- a name

/// Puts the strings of a name's chain behind the others, if it has one. The only error is want of memory.
fn put_chain_of(
    alloc: Global,
    strings: &mut Vec<Items<u8>>,
    table: &Table,
    name: &[u8],
) -> Result<(), AllocError>
    ensures { OnOk result
        (strings.new.items ≡ strings.old.items
        ++ strings_of_chain name.now (get table.now.chains name.now)) }
{
    match table.get(name) {
        Some(chain) => put_chain(alloc, strings, name, table.newest(name), chain),
        None => Ok(()),
    }
}

/// Puts the strings of what waits for a name behind the others, if something does. The only error is want of memory.
fn put_pending_of(
    alloc: Global,
    strings: &mut Vec<Items<u8>>,
    table: &Table,
    name: &[u8],
) -> Result<(), AllocError>
    ensures { OnOk result
        (strings.new.items ≡ strings.old.items
        ++ strings_of_pending name.now (get table.now.waiting name.now)) }
{
    match table.pending(name) {
        Some((change, since)) => put_pending(alloc, strings, name, &change.cert, since),
        None => Ok(()),
    }
}

/// Puts the strings of each of these names behind the others. The only error is want of memory.
fn put_names(
    alloc: Global,
    strings: &mut Vec<Items<u8>>,
    table: &Table,
    names: &[Items<u8>],
) -> Result<(), AllocError>
    ensures { OnOk result
        (strings.new.items ≡ strings.old.items ++ flat_map (name_strings table.now) names.now) }
{
    if let [name, rest @ ..] = names {
        put_chain_of(alloc, strings, table, name.as_slice())?;
        put_pending_of(alloc, strings, table, name.as_slice())?;
        put_names(alloc, strings, table, rest)?;
    }
    Ok(())
}

// ---- a table

/// The strings of a table's tree, and of these names in it. The only error is want of memory.
pub(crate) fn strings_told(
    alloc: Global,
    table: &Table,
    names: &[Items<u8>],
) -> Result<Vec<Items<u8>>, AllocError>
    ensures { IfOk result (λ strings. strings.items ≡ strings_told table.now names.now) }
{
    let mut strings = Vec::new(alloc);
    let entries = table.entries(alloc)?;
    put_tree(alloc, &mut strings, &entries, 0)?;
    put_names(alloc, &mut strings, table, names)?;
    Ok(strings)
}
