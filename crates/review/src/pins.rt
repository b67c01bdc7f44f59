//! The lines that are written of a client that remembers.
ghost use Rattle.std.specs.Prelude.{◌≡◌, ◌++◌, codes, IfOk};
ghost use Rattle.std.specs.Fmt.{decimal};
ghost use Rattle.review.specs.Follows.{fault_text, pinned_line};

use crate::texts::line_of;
use ar_text::Part;
use client_memory::{LinkFault, Pinned};
use std::alloc::{AllocError, Global};

/// A word with its space, and a number behind it.
fn numbered(alloc: Global, word: &[u8], number: u64) -> Result<Vec<u8>, AllocError>
    ensures { IfOk result (λ line. line.items ≡ word.now ++ (decimal number ++ codes "\n")) }
{
    line_of(
        alloc,
        &[Part::Bytes(word), Part::Number(number), Part::Bytes(b"\n")],
    )
}

/// `link <i> ..`: the place of the first change that is no link, and why it is none.
fn link_line(alloc: Global, place: usize, why: LinkFault) -> Result<Vec<u8>, AllocError>
    ensures { IfOk result (λ line.
        line.items ≡ codes "link " ++ (decimal place ++ fault_text why)) }
{
    let (letter, number): (&[u8], u64) = match why {
        LinkFault::Endorsement(authority) => (b" e ", u64::from(authority)),
        LinkFault::Policy(refusal) => (b" p ", u64::from(refusal.number())),
    };
    line_of(
        alloc,
        &[
            Part::Bytes(b"link "),
            Part::Number(place as u64),
            Part::Bytes(letter),
            Part::Number(number),
            Part::Bytes(b"\n"),
        ],
    )
}

/// The line of an answer. The only error is want of memory.
pub fn pinned_line(alloc: Global, answer: Pinned) -> Result<Vec<u8>, AllocError>
    ensures { IfOk result (λ line. line.items ≡ pinned_line answer) }
{
    match answer {
        Pinned::Refused(check) => numbered(alloc, b"refused ", u64::from(check)),
        Pinned::Gone => b"gone\n".to_vec(alloc),
        Pinned::Absent => b"absent\n".to_vec(alloc),
        Pinned::Same => b"same\n".to_vec(alloc),
        Pinned::Long => b"long\n".to_vec(alloc),
        Pinned::Full => b"full\n".to_vec(alloc),
        Pinned::First => b"first\n".to_vec(alloc),
        Pinned::NoLinks => b"nolinks\n".to_vec(alloc),
        Pinned::Link(place, why) => link_line(alloc, place, why),
        Pinned::WrongEnd => b"wrongend\n".to_vec(alloc),
        Pinned::Moved(count) => numbered(alloc, b"moved ", count as u64),
    }
}
