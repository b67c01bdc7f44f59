ghost use Rattle.std.specs.Prelude.{◌≡◌, ◌-◌, ◌++◌, ◌<◌, ◌≤◌, None, IfOk, IsSome, length};
ghost use Rattle.std.specs.FinMap.{get};
ghost use Rattle.hash_tree.specs.Entries.{entries_of, HasAscendingKeys, AgreeAmong, bit, of_side};
ghost use Rattle.hash_tree.specs.Path.{bottom_below, bottom_of, steps_below, steps_of};

use crate::Path;
use ar_base::Items;
use hash_tree::{Bottom, halves, key_bit, subtree_digest};
use std::alloc::{AllocError, Global};

/// The path of a key that is among the entries.
/// The only error is want of memory.
pub fn make_present(
    alloc: Global,
    entries: &[([u8; 32], [u8; 32])],
    key: &[u8; 32],
) -> Result<Path, AllocError>
    requires ascending { HasAscendingKeys entries.now }
    requires present { IsSome (get (entries_of entries.now) key.now) }
    ensures { IfOk result (λ path. path.steps ≡ steps_of key.now (entries_of entries.now)) }
{
    let mut steps = Vec::new(alloc);
    walk(&mut steps, entries, key, 0)?;
    Ok(Path {
        steps: Items::from_vec(steps),
    })
}

/// The path of a key that is not among the entries, and what lies at its foot.
/// The only error is want of memory.
pub fn make_absent(
    alloc: Global,
    entries: &[([u8; 32], [u8; 32])],
    key: &[u8; 32],
) -> Result<(Bottom, Path), AllocError>
    requires ascending { HasAscendingKeys entries.now }
    requires absent { get (entries_of entries.now) key.now ≡ None }
    ensures bottom { IfOk result (λ made. made.0 ≡ bottom_of key.now (entries_of entries.now)) }
    ensures steps { IfOk result (λ made. made.1.steps ≡ steps_of key.now (entries_of entries.now)) }
{
    let mut steps = Vec::new(alloc);
    let bottom = walk(&mut steps, entries, key, 0)?;
    Ok((
        bottom,
        Path {
            steps: Items::from_vec(steps),
        },
    ))
}

// Adds the steps of a key's path below a depth, the deepest first, and gives what lies at its foot.
fn walk(
    steps: &mut Vec<[u8; 32]>,
    entries: &[([u8; 32], [u8; 32])],
    key: &[u8; 32],
    depth: usize,
) -> Result<Bottom, AllocError>
    requires ascending { HasAscendingKeys entries.now }
    requires agreed { AgreeAmong depth (entries_of entries.now) }
    requires in_key { depth ≤ 256 }
    ensures bottom { IfOk result (λ bottom.
        bottom ≡ bottom_below (256 - depth) key.now (entries_of entries.now)) }
    ensures steps { IfOk result (λ _.
        steps.new.items ≡ steps.old.items
        ++ steps_below (256 - depth) key.now (entries_of entries.now)) }
{
    match entries {
        [] => Ok(Bottom::Empty),
        [(key, value)] => Ok(Bottom::Other {
            key: *key,
            value: *value,
        }),
        _ => {
            let (same, other) = parted(entries, key, depth);
            let bottom = walk(steps, same, key, depth + 1)?;
            steps.push(subtree_digest(other, depth + 1))?;
            Ok(bottom)
        }
    }
}

// Two or more entries by whether they agree with a key in the bit at the depth: those that do, and
// the others.
fn parted<'a>(
    entries: &'a [([u8; 32], [u8; 32])],
    key: &[u8; 32],
    depth: usize,
) -> (&'a [([u8; 32], [u8; 32])], &'a [([u8; 32], [u8; 32])])
    requires ascending { HasAscendingKeys entries.now }
    requires agreed { AgreeAmong depth (entries_of entries.now) }
    requires several { 2 ≤ length entries.now }
    requires in_key { depth ≤ 256 }
    ensures in_key { depth < 256 }
    ensures same { result.0.now ≡ of_side depth (bit key.now depth) entries.now }
    ensures other { result.1.now ≡ of_side depth (1 - bit key.now depth) entries.now }
{
    let (left, right) = halves(entries, depth);
    if key_bit(key, depth) == 0 {
        (left, right)
    } else {
        (right, left)
    }
}
