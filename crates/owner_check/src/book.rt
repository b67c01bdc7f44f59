ghost use Rattle.std.specs.Prelude.{◌≡◌, OnOk, OnErr, IfOk};
ghost use Rattle.owner_check.specs.Answers.{with_answer};
ghost use Rattle.owner_check.specs.Book.{has_pair, is_of, pair_of, with_pair, without_pair};

use crate::{CheckAnswer, Outcome, Pair};
use ar_base::Items;
use std::alloc::{AllocError, Global};

/// A pair of its own.
pub(crate) fn make_pair(alloc: Global, name: &[u8], key: &[u8; 56]) -> Result<Pair, AllocError>
    ensures ok { IfOk result (λ pair. pair ≡ pair_of name.now key.now) }
{
    Ok(Pair {
        name: Items::from_vec(name.to_vec(alloc)?),
        key: *key,
    })
}

/// Whether a pair is of this name and this key.
pub(crate) fn is_of(pair: &Pair, name: &[u8], key: &[u8; 56]) -> bool
    ensures { result ≡ is_of name.now key.now pair.now }
{
    pair.name.as_slice() == name && pair.key == *key
}

/// Whether the book has the name with the key.
pub(crate) fn has(book: &[Pair], name: &[u8], key: &[u8; 56]) -> bool
    ensures { result ≡ has_pair book.now name.now key.now }
{
    book.iter().any(|pair| is_of(pair, name, key))
}

/// Puts the name with the key into the book, unless it is there.
pub(crate) fn enter(
    alloc: Global,
    book: &mut Vec<Pair>,
    name: &[u8],
    key: &[u8; 56],
) -> Result<(), AllocError>
    ensures ok { OnOk result (book.new.items ≡ with_pair book.old.items name.now key.now) }
    ensures err { OnErr result (book.new.items ≡ book.old.items) }
{
    if has(book, name, key) {
        return Ok(());
    }
    let pair = make_pair(alloc, name, key)?;
    book.push(pair)?;
    Ok(())
}

/// Takes the name with the key out of the book.
pub(crate) fn strike(book: &mut Vec<Pair>, name: &[u8], key: &[u8; 56])
    ensures { book.new.items ≡ without_pair book.old.items name.now key.now }
{
    book.retain(|pair| !is_of(pair, name, key));
}

/// Keeps what an ask of the name and the key came to, behind the other answers.
pub(crate) fn keep(
    alloc: Global,
    answers: &mut Vec<CheckAnswer>,
    name: &[u8],
    key: &[u8; 56],
    outcome: Outcome,
) -> Result<(), AllocError>
    ensures ok { OnOk result
        (answers.new.items ≡ with_answer answers.old.items name.now key.now outcome) }
    ensures err { OnErr result (answers.new.items ≡ answers.old.items) }
{
    let pair = make_pair(alloc, name, key)?;
    answers.push(CheckAnswer { pair, outcome })?;
    Ok(())
}
