use crate::changes::{chain, one_comes_again};
use crate::shown::{Shown, confirmation, directory, link};
use ar_cert::Change;
use ar_names::Name;
use cert_policy::PolicyRefusal;
use client_memory::{AddFault, PinBook, Pinned};
use party_keys::Directory;
use std::alloc::Global;
use std::test::Fail;

/// The answer in epoch 6, to a confirmation that may be 4 epochs old, with these links.
fn judged(
    alloc: Global,
    directory: &Directory,
    book: &mut PinBook,
    shown: Shown,
    links: &[Change],
) -> Result<Pinned, Fail> {
    let bytes = confirmation(alloc, shown)?;
    let name: &[u8] = match shown {
        Shown::Other => b"b.example",
        _ => b"a.example",
    };
    Ok(book.judge(alloc, directory, name, &bytes, links, 6, 4)?)
}

/// What a client trusts, and the change that leads from the first certificate of a.example to its second one.
#[derive(Debug, Drop)]
struct Trust {
    directory: Directory,
    link: [Change; 1],
}

/// What it is in each test.
fn given(alloc: Global) -> Result<Trust, Fail> {
    let link = [link(alloc)?];
    let directory = directory(alloc)?;
    Ok(Trust { directory, link })
}

/// The answers to the first certificate of a.example, to that of b.example, and to the second one of a.example with
/// its link.
fn answers(alloc: Global, given: &Trust, book: &mut PinBook) -> Result<[Pinned; 3], Fail> {
    let directory = &given.directory;
    let first = judged(alloc, directory, book, Shown::First, &[])?;
    let other = judged(alloc, directory, book, Shown::Other, &[])?;
    let second = judged(alloc, directory, book, Shown::Second, &given.link)?;
    Ok([first, other, second])
}

/// The answers to the second certificate of a.example, to that of b.example, and to the first one of a.example, each without
/// a link.
fn answers_later(alloc: Global, given: &Trust, book: &mut PinBook) -> Result<[Pinned; 3], Fail> {
    let directory = &given.directory;
    let second = judged(alloc, directory, book, Shown::Second, &[])?;
    let other = judged(alloc, directory, book, Shown::Other, &[])?;
    let first = judged(alloc, directory, book, Shown::First, &[])?;
    Ok([second, other, first])
}

/// Adds changes of a name. The answer is that of the book.
fn added(
    alloc: Global,
    book: &mut PinBook,
    name: &[u8],
    changes: Vec<Change>,
) -> Result<Result<(), AddFault>, Fail> {
    match Name::read(alloc, name) {
        Ok(name) => Ok(book.add(alloc, name, changes)),
        Err(_) => Err("no name".into()),
    }
}

/// The texts of what is kept of a name, one behind the other, and how many they are.
fn stored(alloc: Global, book: &PinBook, name: &[u8]) -> Result<(usize, Vec<u8>), Fail> {
    let mut text = Vec::new(alloc);
    let Some(changes) = book.chain(name) else {
        return Ok((0, text));
    };
    for change in changes {
        change.write(alloc, &mut text)?;
    }
    Ok((changes.len(), text))
}

/// What a client answers with a new book, before it has the link and with it.
fn answered_by(alloc: Global, given: &Trust, book: &mut PinBook) -> Result<[Pinned; 7], Fail> {
    let first = judged(alloc, &given.directory, book, Shown::First, &[])?;
    let [second, other, again] = answers_later(alloc, given, book)?;
    let [same, still, moved] = answers(alloc, given, book)?;
    Ok([first, second, other, again, same, still, moved])
}

/// The same, of a client of its own.
fn answered(alloc: Global) -> Result<[Pinned; 7], Fail> {
    let given = given(alloc)?;
    let mut book = PinBook::new(alloc);
    answered_by(alloc, &given, &mut book)
}

#[test]
fn a_client_answers_by_what_it_keeps(rt: HostRuntime) -> Result<(), Fail> {
    let found = answered(rt.alloc())?;
    let expected = [
        Pinned::First,
        Pinned::NoLinks,
        Pinned::First,
        Pinned::Same,
        Pinned::Same,
        Pinned::Same,
        Pinned::Moved(1),
    ];
    assert_eq!(rt; found, expected);
    Ok(())
}

/// The answers with a book that keeps so many changes of another name already.
fn answers_behind(
    alloc: Global,
    given: &Trust,
    book: &mut PinBook,
    kept: u64,
) -> Result<[Pinned; 3], Fail> {
    let changes = chain(alloc, kept)?;
    match added(alloc, book, b"c.example", changes)? {
        Ok(()) => answers(alloc, given, book),
        Err(_) => Err("not added".into()),
    }
}

/// The same, of a client of its own.
fn answered_behind(alloc: Global, kept: u64) -> Result<[Pinned; 3], Fail> {
    let given = given(alloc)?;
    let mut book = PinBook::new(alloc);
    answers_behind(alloc, &given, &mut book, kept)
}

#[test]
fn no_more_than_4096_changes_are_kept(rt: HostRuntime) -> Result<(), Fail> {
    for (kept, expected) in [
        (4095, [Pinned::First, Pinned::Full, Pinned::Full]),
        (4094, [Pinned::First, Pinned::First, Pinned::Full]),
        (4093, [Pinned::First, Pinned::First, Pinned::Moved(1)]),
    ] {
        let found = answered_behind(rt.alloc(), kept)?;
        assert_eq!(rt; found, expected, "{kept}");
    }
    Ok(())
}

/// How many changes are kept of each name, and what is answered behind them.
#[derive(Clone, Copy, Debug, PartialEq, Eq)]
struct Seen {
    kept: [usize; 2],
    answers: [Pinned; 3],
}

/// How many changes are kept of a.example and of b.example.
fn kept(alloc: Global, book: &PinBook) -> Result<[usize; 2], Fail> {
    let first = stored(alloc, book, b"a.example")?.0;
    let other = stored(alloc, book, b"b.example")?.0;
    Ok([first, other])
}

/// What is seen of a book from which a name is taken out that was pinned.
fn forgotten_by(
    alloc: Global,
    given: &Trust,
    book: &mut PinBook,
    name: &[u8],
) -> Result<Seen, Fail> {
    answers(alloc, given, book)?;
    book.forget(name);
    let kept = kept(alloc, book)?;
    let answers = answers(alloc, given, book)?;
    Ok(Seen { kept, answers })
}

/// The same, of a client of its own.
fn forgotten(alloc: Global, name: &[u8]) -> Result<Seen, Fail> {
    let given = given(alloc)?;
    let mut book = PinBook::new(alloc);
    forgotten_by(alloc, &given, &mut book, name)
}

#[test]
fn one_name_is_forgotten(rt: HostRuntime) -> Result<(), Fail> {
    let (first, same) = (Pinned::First, Pinned::Same);
    for (name, kept, answers) in [
        (b"a.example", [0, 1], [first, same, Pinned::Moved(1)]),
        (b"b.example", [2, 0], [Pinned::NoLinks, first, same]),
        (b"c.example", [2, 1], [Pinned::NoLinks, same, same]),
    ] {
        let found = forgotten(rt.alloc(), name)?;
        assert_eq!(rt; found, Seen { kept, answers });
    }
    Ok(())
}

/// The change that is read from what is written of another one.
fn stored_again(alloc: Global, change: &Change) -> Result<Change, Fail> {
    let mut text = Vec::new(alloc);
    change.write(alloc, &mut text)?;
    match Change::read(alloc, &text) {
        Ok(change) => Ok(change),
        Err(_) => Err("no change".into()),
    }
}

/// What is read from all that is stored of a name.
fn stored_chain(alloc: Global, book: &PinBook, name: &[u8]) -> Result<Vec<Change>, Fail> {
    let mut changes = Vec::new(alloc);
    for change in book.chain(name).unwrap_or(&[]) {
        changes.push(stored_again(alloc, change)?)?;
    }
    Ok(changes)
}

/// Adds what is stored of a name in another book.
fn load(alloc: Global, from: &PinBook, to: &mut PinBook, name: &[u8]) -> Result<(), Fail> {
    let changes = stored_chain(alloc, from, name)?;
    match added(alloc, to, name, changes)? {
        Ok(()) => Ok(()),
        Err(_) => Err("not added".into()),
    }
}

/// Whether two books keep the same of a name, text by text.
fn is_same(alloc: Global, one: &PinBook, other: &PinBook, name: &[u8]) -> Result<bool, Fail> {
    Ok(stored(alloc, one, name)? == stored(alloc, other, name)?)
}

/// Whether a book that is loaded from another one keeps the same, and what it answers then.
fn loaded_by(
    alloc: Global,
    given: &Trust,
    book: &mut PinBook,
    again: &mut PinBook,
) -> Result<(bool, [Pinned; 3]), Fail> {
    answers(alloc, given, book)?;
    load(alloc, book, again, b"b.example")?;
    load(alloc, book, again, b"a.example")?;
    let first = is_same(alloc, book, again, b"a.example")?;
    let other = is_same(alloc, book, again, b"b.example")?;
    Ok((first && other, answers_later(alloc, given, again)?))
}

/// The same, of clients of their own.
fn loaded(alloc: Global) -> Result<(bool, [Pinned; 3]), Fail> {
    let given = given(alloc)?;
    let mut book = PinBook::new(alloc);
    let mut again = PinBook::new(alloc);
    loaded_by(alloc, &given, &mut book, &mut again)
}

#[test]
fn what_was_stored_is_loaded_again(rt: HostRuntime) -> Result<(), Fail> {
    let found = loaded(rt.alloc())?;
    assert_eq!(rt;
        found,
        (true, [Pinned::Same, Pinned::Same, Pinned::NoLinks])
    );
    Ok(())
}

/// The answers to changes of c.example and of d.example, of which a book takes those of the fourth call.
fn added_by(alloc: Global, book: &mut PinBook) -> Result<[Result<(), AddFault>; 6], Fail> {
    Ok([
        added(alloc, book, b"c.example", one_comes_again(alloc)?)?,
        added(alloc, book, b"c.example", chain(alloc, 4097)?)?,
        added(alloc, book, b"c.example", chain(alloc, 0)?)?,
        added(alloc, book, b"c.example", chain(alloc, 4096)?)?,
        added(alloc, book, b"c.example", chain(alloc, 4097)?)?,
        added(alloc, book, b"d.example", chain(alloc, 1)?)?,
    ])
}

/// The same, of a book of its own.
fn all_added(alloc: Global) -> Result<[Result<(), AddFault>; 6], Fail> {
    let mut book = PinBook::new(alloc);
    added_by(alloc, &mut book)
}

#[test]
fn what_is_no_chain_is_not_added(rt: HostRuntime) -> Result<(), Fail> {
    let found = all_added(rt.alloc())?;
    let expected = [
        Err(AddFault::Link(1, PolicyRefusal::Serial)),
        Err(AddFault::Full),
        Err(AddFault::Empty),
        Ok(()),
        Err(AddFault::Pinned),
        Err(AddFault::Full),
    ];
    assert_eq!(rt; found, expected);
    Ok(())
}
