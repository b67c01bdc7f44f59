ghost use Rattle.std.specs.Prelude.{◌≡◌, ◌+◌, ◌≤◌, ◌++◌, length, vec_len, vec_capacity, IsOk, OnOk, OnErr};
ghost use Rattle.ar_base.specs.Appending.{Appends};
ghost use Rattle.report_text.specs.Lines.{check_text, digest_text, dishonest_text, draft_text, ended_text, ending_text, entry_text, learning_text, line_of, made_text, message_text, order_text, outcome_text, route_text, step_line};

use crate::happening::{Code, Happening, Kind, Said, Target, Unlearnt, What};
use crate::said::say;
use crate::words::{
    kind_word, put, put_code, put_numbered, put_party, put_party_then, put_sender, put_taken,
    put_target, put_what,
};
use ar_statement::{Party, Role};
use ar_text::{Part, append};
use std::alloc::{AllocError, Global};

/// Appends a space, a digest, and the end of the line.
fn put_digest(alloc: Global, out: &mut Vec<u8>, digest: &[u8; 32]) -> Result<(), AllocError>
    ensures { Appends (digest_text digest.now) out.old out.new result }
{
    let parts = [Part::Bytes(b" "), Part::Digest(digest), Part::Bytes(b"\n")];
    append(alloc, out, &parts)
}

/// Appends whether a step succeeds.
fn put_outcome(alloc: Global, out: &mut Vec<u8>, refused: Option<Code>) -> Result<(), AllocError>
    ensures { Appends (outcome_text refused) out.old out.new result }
{
    match refused {
        None => put(alloc, out, b" ok\n"),
        Some(code) => {
            put(alloc, out, b" refused ")?;
            put_code(alloc, out, code)?;
            put(alloc, out, b"\n")
        }
    }
}

/// Appends how an epoch ends.
fn put_ending(alloc: Global, out: &mut Vec<u8>, root: Option<[u8; 32]>) -> Result<(), AllocError>
    ensures { Appends (ending_text root) out.old out.new result }
{
    match root {
        Some(root) => {
            let parts = [
                Part::Bytes(b" decided "),
                Part::Digest(&root),
                Part::Bytes(b"\n"),
            ];
            append(alloc, out, &parts)
        }
        None => put(alloc, out, b" skipped\n"),
    }
}

/// Appends whether a message is learnt.
fn put_learning(
    alloc: Global,
    out: &mut Vec<u8>,
    refused: Option<Unlearnt>,
) -> Result<(), AllocError>
    ensures { Appends (learning_text refused) out.old out.new result }
{
    match refused {
        None => put(alloc, out, b" ok\n"),
        Some(Unlearnt::Form) => put(alloc, out, b" refused form\n"),
        Some(Unlearnt::Unknown) => put(alloc, out, b" refused unknown\n"),
        Some(Unlearnt::Bad(condition)) => {
            let parts = [
                Part::Bytes(b" refused bad "),
                Part::Number(u64::from(condition)),
                Part::Bytes(b"\n"),
            ];
            append(alloc, out, &parts)
        }
        Some(Unlearnt::Other) => put(alloc, out, b" refused other\n"),
    }
}

/// Appends the line of what an authority's check does.
fn put_check(
    alloc: Global,
    out: &mut Vec<u8>,
    authority: u16,
    done: &[u8],
) -> Result<(), AllocError>
    ensures { Appends (check_text authority done.now) out.old out.new result }
{
    put_party_then(alloc, out, Role::Authority.party(authority), done)
}

/// Appends the line of a step.
fn put_step(
    alloc: Global,
    out: &mut Vec<u8>,
    party: Party,
    what: What,
    refused: Option<Code>,
) -> Result<(), AllocError>
    ensures { Appends (step_line party what refused) out.old out.new result }
{
    put_party(alloc, out, party)?;
    put(alloc, out, b" ")?;
    put_what(alloc, out, what)?;
    put_outcome(alloc, out, refused)
}

/// A message that enters the pool.
#[derive(Drop)]
struct Entry<'a> {
    message: u64,
    kind: Kind,
    from: Option<Party>,
    to: Target,
    length: u64,
    digest: &'a [u8; 32],
}

/// Appends which message enters the pool.
fn put_message(alloc: Global, out: &mut Vec<u8>, message: u64, kind: Kind) -> Result<(), AllocError>
    ensures { Appends (message_text message kind) out.old out.new result }
{
    put_numbered(alloc, out, b"message ", message)?;
    put(alloc, out, b" ")?;
    put(alloc, out, kind_word(kind))
}

/// Appends who sent a message and to whom it goes.
fn put_route(
    alloc: Global,
    out: &mut Vec<u8>,
    from: Option<Party>,
    to: Target,
) -> Result<(), AllocError>
    ensures { Appends (route_text from to) out.old out.new result }
{
    put(alloc, out, b" from ")?;
    put_sender(alloc, out, from)?;
    put(alloc, out, b" to ")?;
    put_target(alloc, out, to)
}

/// Appends the line of a message that enters the pool.
fn put_entry(alloc: Global, out: &mut Vec<u8>, entry: &Entry) -> Result<(), AllocError>
    ensures { Appends (entry_text entry.now.message entry.now.kind entry.now.from entry.now.to
        entry.now.length entry.now.digest.now) out.old out.new result }
{
    put_message(alloc, out, entry.message, entry.kind)?;
    put_route(alloc, out, entry.from, entry.to)?;
    put_numbered(alloc, out, b" ", entry.length)?;
    put_digest(alloc, out, entry.digest)
}

/// Appends the line of a key that is made.
fn put_made(
    alloc: Global,
    out: &mut Vec<u8>,
    party: Party,
    digest: &[u8; 32],
) -> Result<(), AllocError>
    ensures { Appends (made_text party digest.now) out.old out.new result }
{
    put(alloc, out, b"party ")?;
    put_party(alloc, out, party)?;
    put_digest(alloc, out, digest)
}

/// Appends the line of a party that is dishonest.
fn put_dishonest(alloc: Global, out: &mut Vec<u8>, party: Party) -> Result<(), AllocError>
    ensures { Appends (dishonest_text party) out.old out.new result }
{
    put(alloc, out, b"dishonest ")?;
    put_party_then(alloc, out, party, b"\n")
}

/// Appends the line of a draft.
fn put_draft(
    alloc: Global,
    out: &mut Vec<u8>,
    draft: u64,
    digest: &[u8; 32],
) -> Result<(), AllocError>
    ensures { Appends (draft_text draft digest.now) out.old out.new result }
{
    put_numbered(alloc, out, b"draft ", draft)?;
    put_digest(alloc, out, digest)
}

/// Appends the line of an epoch that ends.
fn put_ended(
    alloc: Global,
    out: &mut Vec<u8>,
    log: u16,
    epoch: u64,
    root: Option<[u8; 32]>,
) -> Result<(), AllocError>
    ensures { Appends (ended_text log epoch root) out.old out.new result }
{
    put_party(alloc, out, Role::LogServer.party(log))?;
    put_numbered(alloc, out, b" ended ", epoch)?;
    put_ending(alloc, out, root)
}

/// Appends the line of a message that a directory takes.
fn put_learnt(
    alloc: Global,
    out: &mut Vec<u8>,
    message: u64,
    refused: Option<Unlearnt>,
) -> Result<(), AllocError>
    ensures { Appends (line_of (Happening.Learnt message refused)) out.old out.new result }
{
    put_numbered(alloc, out, b"learn ", message)?;
    put_learning(alloc, out, refused)
}

/// Appends the line of a party that has no leaf left.
fn put_sign_refused(alloc: Global, out: &mut Vec<u8>, party: Party) -> Result<(), AllocError>
    ensures { Appends (line_of (Happening.SignRefused party)) out.old out.new result }
{
    put_party_then(alloc, out, party, b" sign refused\n")
}

/// Appends the line of a judgement.
fn put_judged(alloc: Global, out: &mut Vec<u8>, message: u64, said: &Said) -> Result<(), AllocError>
    ensures { Appends (line_of (Happening.Judged message said.now)) out.old out.new result }
{
    put_numbered(alloc, out, b"judge ", message)?;
    put(alloc, out, b" ")?;
    say(alloc, said, out)?;
    put(alloc, out, b"\n")
}

/// Appends the line of what a party took.
fn put_order(
    alloc: Global,
    out: &mut Vec<u8>,
    party: Party,
    taken: &[u64],
) -> Result<(), AllocError>
    ensures { Appends (order_text party taken.now) out.old out.new result }
{
    put(alloc, out, b"order ")?;
    put_party(alloc, out, party)?;
    put_taken(alloc, out, taken)?;
    put(alloc, out, b"\n")
}

/// Appends the line of a happening. After an error some of it may stand in `out`.
fn put_happening(alloc: Global, out: &mut Vec<u8>, happening: &Happening) -> Result<(), AllocError>
    ensures { Appends (line_of happening.now) out.old out.new result }
{
    match happening {
        Happening::Made { party, digest } => put_made(alloc, out, *party, digest),
        Happening::Dishonest { party } => put_dishonest(alloc, out, *party),
        Happening::Taught { authority } => put_check(alloc, out, *authority, b" taught\n"),
        Happening::Forgot { authority } => put_check(alloc, out, *authority, b" forgot\n"),
        Happening::Retired { authority } => put_check(alloc, out, *authority, b" retired\n"),
        Happening::Draft { draft, digest } => put_draft(alloc, out, *draft, digest),
        Happening::Step {
            party,
            what,
            refused,
        } => put_step(alloc, out, *party, *what, *refused),
        Happening::Ended { log, epoch, root } => put_ended(alloc, out, *log, *epoch, *root),
        Happening::Learnt { message, refused } => put_learnt(alloc, out, *message, *refused),
        Happening::Entered {
            message,
            kind,
            from,
            to,
            length,
            digest,
        } => {
            let entry = Entry {
                message: *message,
                kind: *kind,
                from: *from,
                to: *to,
                length: *length,
                digest,
            };
            put_entry(alloc, out, &entry)
        }
        Happening::SignRefused { party } => put_sign_refused(alloc, out, *party),
        Happening::Judged { message, said } => put_judged(alloc, out, *message, said),
        Happening::Order { party, taken } => put_order(alloc, out, *party, taken.as_slice()),
    }
}

/// Appends the line of a happening, and its newline.
///
/// The one error is want of memory. It leaves the bytes of `out` as they were, and does not come where
/// `out` has room for the line.
pub fn print(alloc: Global, happening: &Happening, out: &mut Vec<u8>) -> Result<(), AllocError>
    ensures ok { OnOk result (out.new.items ≡ out.old.items ++ line_of happening.now) }
    ensures err { OnErr result (out.new.items ≡ out.old.items) }
    ensures room { vec_len out.old + length (line_of happening.now) ≤ vec_capacity out.old
        → IsOk result }
{
    let start = out.len();
    let result = put_happening(alloc, out, happening);
    if result.is_err() {
        out.truncate(start);
    }
    result
}
