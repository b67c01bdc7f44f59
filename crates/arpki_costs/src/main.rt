//! A program to measure by: it makes one call of the libraries, whose cost `tools/performance` counts,
//! and prints what the call gave, in hex.
//!
//! | words | the call | what is printed |
//! |---|---|---|
//! | `key LMS OTS` | `LmsKey::make`, of these types | the public key |
//! | `sign LMS OTS` | `LmsKey::sign_at`, by such a key | the signature |
//! | `root COUNT` | `root_of`, over a table of so many entries | the root |
//! | `fill COUNT` | `Trie::set`, of each entry of such a table | the root |
//! | `change COUNT` | `Trie::set` once more in the filled tree, of the first entry with a value of zeros | the root |
//! | `judge COUNT` | `Table::judge`, of an update of name 9 of so many | the root, as it was |
//! | `apply COUNT` | `Table::apply`, of this update | the root then |
//! | `message LENGTH` | `Message::read`, `Message::write` and a copy, of a message | the SHA-256 of what was written |
//!
//! The seed of a key is the bytes 0 to 31, and what it signs is the message `abc`, at leaf 0. Entry n
//! of a table has as its key the value of a domain with the serial n and a certificate digest of zeros,
//! and as its value that of the serial n and a certificate digest of ones (`value_digest`). The message is
//! a Decision of 64 changes and 16 votes, whose signatures have so many bytes.
//!
//! There are no definitions here: what a call gives is in the contract that it has in its own crate.
#![tactic(auto)]

use std::alloc::Global;
use std::{env, io};

mod call;
mod message;
mod names;
mod request;
mod table;

use call::{key_of, root_kept, root_of_table, signature_of};
use message::digest_of_message;
use names::{root_applied, root_judged};
use request::{Request, request_of};

/// What the call gave, in hex.
fn answer(alloc: Global, request: Request) -> io::Result<String> {
    match request {
        Request::Key { lms, ots } => public_key(alloc, lms, ots),
        Request::Sign { lms, ots } => signature(alloc, lms, ots),
        Request::Root { count } => in_hex(alloc, &root_of_table(alloc, count)?),
        Request::Fill { count } => in_hex(alloc, &root_kept(alloc, count, false)?),
        Request::Change { count } => in_hex(alloc, &root_kept(alloc, count, true)?),
        Request::Judge { count } => in_hex(alloc, &root_judged(alloc, count)?),
        Request::Apply { count } => in_hex(alloc, &root_applied(alloc, count)?),
        Request::Message { len } => in_hex(alloc, &digest_of_message(alloc, len)?),
    }
}

fn public_key(alloc: Global, lms: u32, ots: u32) -> io::Result<String> {
    let key = key_of(alloc, lms, ots)?;
    in_hex(alloc, &key.public().bytes())
}

fn signature(alloc: Global, lms: u32, ots: u32) -> io::Result<String> {
    let key = key_of(alloc, lms, ots)?;
    in_hex(alloc, &signature_of(alloc, &key)?)
}

fn in_hex(alloc: Global, bytes: &[u8]) -> io::Result<String> {
    Ok(hex::encode(alloc, bytes)?)
}

fn main(rt: HostRuntime) -> io::Result<()> {
    let words: Vec<String> = env::args(&rt)?.skip(1).collect(rt.alloc())?;
    let text = answer(rt.alloc(), request_of(&words)?)?;
    println!(rt; "{text}")
}
