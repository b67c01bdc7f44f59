//! The strings that the integrity tree hashes for a set of entries.

ghost use Rattle.std.specs.Prelude.{◌≡◌, ◌≤◌, ◌-◌, ◌++◌, ◌∷◌, [], OnOk, length};
ghost use Rattle.hash_tree.specs.Entries.{AgreeAmong, HasAscendingKeys, entries_of};
ghost use Rattle.hash_tree.specs.Root.{strings_below};

use ar_base::Items;
use hash_tree::{halves, subtree_digest};
use std::alloc::{AllocError, Global};

/// Puts a string behind the others: a byte, and two texts. The only error is want of memory.
pub(crate) fn put_string(
    alloc: Global,
    strings: &mut Vec<Items<u8>>,
    kind: u8,
    first: &[u8],
    second: &[u8],
) -> Result<(), AllocError>
    ensures { OnOk result (strings.new.items ≡ strings.old.items ++ (kind ∷ first.now ++ second.now)
        ∷ []) }
{
    let mut string = Vec::new(alloc);
    string.push(kind)?;
    string.extend_from_slice(first)?;
    string.extend_from_slice(second)?;
    strings.push(Items::from_vec(string))?;
    Ok(())
}

/// Puts a string behind the others: a byte, and a text. The only error is want of memory.
pub(crate) fn put_text(
    alloc: Global,
    strings: &mut Vec<Items<u8>>,
    kind: u8,
    text: &[u8],
) -> Result<(), AllocError>
    ensures { OnOk result (strings.new.items ≡ strings.old.items ++ (kind ∷ text.now) ∷ []) }
{
    put_string(alloc, strings, kind, text, &[])
}

/// Puts the strings of entries behind the others, whose keys agree in all bits before the depth. The only error is want of memory.
#[cycle(tree)]
pub(crate) fn put_tree(
    alloc: Global,
    strings: &mut Vec<Items<u8>>,
    entries: &[([u8; 32], [u8; 32])],
    depth: usize,
) -> Result<(), AllocError>
    requires ascending { HasAscendingKeys entries.now }
    requires agreed { AgreeAmong depth (entries_of entries.now) }
    requires in_key { depth ≤ 256 }
    ensures { OnOk result
        (strings.new.items ≡ strings.old.items
        ++ strings_below (256 - depth) (entries_of entries.now)) }
{
    match entries {
        [] => put_text(alloc, strings, 0x00, &[]),
        [(key, value)] => put_string(alloc, strings, 0x01, key, value),
        _ => put_node(alloc, strings, entries, depth),
    }
}

/// The same of two entries or more.
#[cycle(tree)]
fn put_node(
    alloc: Global,
    strings: &mut Vec<Items<u8>>,
    entries: &[([u8; 32], [u8; 32])],
    depth: usize,
) -> Result<(), AllocError>
    requires ascending { HasAscendingKeys entries.now }
    requires agreed { AgreeAmong depth (entries_of entries.now) }
    requires several { 2 ≤ length entries.now }
    requires in_key { depth ≤ 256 }
    ensures { OnOk result
        (strings.new.items ≡ strings.old.items
        ++ strings_below (256 - depth) (entries_of entries.now)) }
{
    let (left, right) = halves(entries, depth);
    let digests = (
        subtree_digest(left, depth + 1),
        subtree_digest(right, depth + 1),
    );
    put_string(alloc, strings, 0x02, &digests.0, &digests.1)?;
    put_tree(alloc, strings, left, depth + 1)?;
    put_tree(alloc, strings, right, depth + 1)
}
