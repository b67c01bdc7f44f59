ghost use Rattle.std.specs.Prelude.{◌≡◌, []};
ghost use Rattle.ar_base.specs.Gives.{GivesUnless};
ghost use Rattle.arpki_c.specs.Stored.{book_stored, book_with, changes_in, name_among, next_change};
ghost use Rattle.arpki_c.specs.declared.pins.PinFault.TheVariants.{Memory};

use ar_bytes::Fields;
use ar_cert::{CertFault, Change};
use ar_names::Name;
use client_memory::{AddFault, PinBook};
use std::alloc::{AllocError, AllocFailed, Global};

/// How many changes may be stored of a name, or be given as links.
const MOST_CHANGES: usize = 4096;

/// What is wrong with what a caller stored of a name, or with links.
#[derive(Clone, Copy, PartialEq, Eq)]
pub(crate) enum PinFault {
    /// The stored bytes are not the texts of at most 4,096 changes.
    Form,
    /// They are of another name.
    Name,
    /// One of the changes does not follow the one before it.
    Chain,
    /// The bytes of the links are not the texts of at most 4,096 changes.
    Links,
    /// Memory ran out.
    Memory,
}

impl From<AllocError> for PinFault {
    ghost from_gives = { λ _ e. e ≡ Memory };

    fn from(_error: AllocError) -> PinFault {
        PinFault::Memory
    }
}

impl<T: Drop> From<AllocFailed<T>> for PinFault {
    ghost from_gives = { λ _ e. e ≡ Memory };

    fn from(_error: AllocFailed<T>) -> PinFault {
        PinFault::Memory
    }
}

/// The change that stands next, or this fault where none does.
#[tactic(auto, unfolding(crate::specs::Stored::next_change))]
fn next_change(alloc: Global, fields: &mut Fields, fault: PinFault) -> Result<Change, PinFault>
    ensures { GivesUnless Memory (λ change.
        (change, fields.new)) result (next_change fault fields.old) }
{
    match Change::take(alloc, fields) {
        Ok(change) => Ok(change),
        Err(CertFault::Form(_)) => Err(fault),
        Err(CertFault::Memory) => Err(PinFault::Memory),
    }
}

/// The changes whose texts are these bytes, one behind the other, or this fault where they are not those of at most 4,096.
#[tactic(auto, using(crate::proofs::Runs::change_runs))]
pub(crate) fn changes_of(
    alloc: Global,
    bytes: &[u8],
    fault: PinFault,
) -> Result<Vec<Change>, PinFault>
    ensures { GivesUnless Memory (λ changes. changes.items) result (changes_in fault bytes.now) }
{
    let mut fields = Fields::new(bytes);
    let mut changes = Vec::new(alloc);
    for _ in 0..MOST_CHANGES {
        if fields.at_end() {
            return Ok(changes);
        }
        let next = next_change(alloc, &mut fields, fault)?;
        changes.push(next)?;
    }
    if fields.at_end() {
        Ok(changes)
    } else {
        Err(fault)
    }
}

/// The name of these changes, where it is the one that is asked for.
fn name_among(alloc: Global, name: &[u8], chain: &[Change]) -> Result<Name, PinFault>
    ensures { GivesUnless Memory (λ own. own) result (name_among name.now chain.now) }
{
    let [first, ..] = chain else {
        return Err(PinFault::Form);
    };
    if first.cert.name.text() != name {
        return Err(PinFault::Name);
    }
    Ok(first.cert.name.view().to_name(alloc)?)
}

/// A book with nothing but these changes of a name.
fn book_with(alloc: Global, name: Name, chain: Vec<Change>) -> Result<PinBook, PinFault>
    ensures { GivesUnless Memory (λ book. book) result (book_with name chain.items) }
{
    let mut book = PinBook::new(alloc);
    match book.add(alloc, name, chain) {
        Ok(()) => Ok(book),
        Err(AddFault::Memory) => Err(PinFault::Memory),
        Err(_) => Err(PinFault::Chain),
    }
}

/// The book of who stored these bytes of a name.
#[tactic(auto, unfolding(crate::specs::Stored::book_stored))]
pub(crate) fn book_of(alloc: Global, name: &[u8], pin: &[u8]) -> Result<PinBook, PinFault>
    ensures { GivesUnless Memory (λ book. book) result (book_stored name.now pin.now) }
{
    if pin.is_empty() {
        return Ok(PinBook::new(alloc));
    }
    let chain = changes_of(alloc, pin, PinFault::Form)?;
    let own = name_among(alloc, name, &chain)?;
    book_with(alloc, own, chain)
}
