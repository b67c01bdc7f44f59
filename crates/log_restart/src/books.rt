//! What is told of the statements that a log signed.

ghost use Rattle.std.specs.Prelude.{◌≡◌, ◌<◌, ◌+◌, ◌++◌, length, take, IfOk, OnOk};
ghost use Rattle.log_restart.specs.Books.{book_digest, book_text, entries_from, entry_text};

use ar_bytes::{put_bytes, put_u32};
use key_roll::RollBook;
use sha2::{Digest, Sha256};
use std::alloc::{AllocError, Global};

/// Puts a statement behind others. The only error is want of memory.
fn put_entry(
    alloc: Global,
    out: &mut Vec<u8>,
    generation: u32,
    leaf: u32,
    text: &[u8],
) -> Result<(), AllocError>
    ensures { OnOk result (out.new.items ≡ out.old.items ++ entry_text generation leaf text.now) }
{
    put_u32(alloc, out, generation)?;
    put_u32(alloc, out, leaf)?;
    // A text has at most 330 bytes, so the two lowest bytes of its length are all of it.
    let len = (text.len() as u64).to_be_bytes();
    put_bytes(alloc, out, &len[6..])?;
    put_bytes(alloc, out, text)
}

/// Puts the statement at this place of a book behind those before it. The only error is want of memory.
fn put_at(alloc: Global, out: &mut Vec<u8>, book: &RollBook, place: usize) -> Result<(), AllocError>
    requires within { place < length book.now.book.list }
    requires before { out.old.items ≡ entries_from book.now.book 0 (take place book.now.book.list) }
    ensures { OnOk result
        (out.new.items ≡ entries_from book.now.book 0 (take (place + 1) book.now.book.list)) }
{
    let entry = book.list()[place];
    let leaf = book.leaf_at(place);
    put_entry(alloc, out, entry.generation, leaf, entry.text.as_bytes())
}

/// The generation, the leaf and the text of each statement of a book. The only error is want of memory.
fn book_text(alloc: Global, book: &RollBook) -> Result<Vec<u8>, AllocError>
    ensures { IfOk result (λ text. text.items ≡ book_text book.now.book) }
{
    let mut out = Vec::new(alloc);
    for place in 0..book.list().len() {
        put_at(alloc, &mut out, book, place)?;
    }
    Ok(out)
}

/// The digest of the statements of a book. The only error is want of memory.
pub(crate) fn book_digest(alloc: Global, book: &RollBook) -> Result<[u8; 32], AllocError>
    ensures { IfOk result (λ digest. digest ≡ book_digest book.now.book) }
{
    let text = book_text(alloc, book)?;
    let mut hasher = Sha256::new();
    hasher.update(&text);
    Ok(hasher.finalize())
}
