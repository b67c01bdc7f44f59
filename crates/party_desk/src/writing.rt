//! Lines that are written of replies. The one error of each call is want of memory.

ghost use Rattle.std.specs.Prelude.{◌++◌, codes};
ghost use Rattle.std.specs.Fmt.{decimal};
ghost use Rattle.std.specs.List.{flat_map};
ghost use Rattle.ar_lines.specs.Refusals.{reason_text};
ghost use Rattle.hex.specs.Hex.{encode_lower};
ghost use Rattle.report_text.specs.Lines.{line_of};
ghost use Rattle.party_desk.specs.Telling.{Puts, address_text, check_text, draft_step, ended_line, handed_line, leaves_line, letter_line, refused_so, sent_lines, stapled_line, step_told, unread_line, unread_text};

use crate::unread::Cause;
use ar_lines::{Reason, letter_of};
use ar_message::{Address, Outgoing, Sent};
use ar_statement::Party;
use ar_text::{Part, append};
use report_text::{Code, Happening, What, print};
use std::alloc::{AllocError, Global};

/// Puts some bytes behind the others.
pub(crate) fn put(alloc: Global, out: &mut Vec<u8>, bytes: &[u8]) -> Result<(), AllocError>
    ensures { Puts bytes.now out.old out.new result }
{
    append(alloc, out, &[Part::Bytes(bytes)])
}

/// Puts the hex of some bytes behind the others, a space before it and the end of the line behind it.
fn put_hex(alloc: Global, out: &mut Vec<u8>, bytes: &[u8]) -> Result<(), AllocError>
    ensures { Puts (codes " " ++ (encode_lower bytes.now ++ codes "\n")) out.old out.new result }
{
    let digits = hex::encode(alloc, bytes)?;
    append(
        alloc,
        out,
        &[
            Part::Bytes(b" "),
            Part::Bytes(digits.as_bytes()),
            Part::Bytes(b"\n"),
        ],
    )
}

/// Puts the line of a happening behind the others.
pub(crate) fn put_line(
    alloc: Global,
    out: &mut Vec<u8>,
    happening: &Happening,
) -> Result<(), AllocError>
    ensures { Puts (line_of happening.now) out.old out.new result }
{
    print(alloc, happening, out)
}

// ---- what is sent

/// Puts to whom a message goes behind the others.
fn put_address(alloc: Global, out: &mut Vec<u8>, to: Address) -> Result<(), AllocError>
    ensures { Puts (address_text to) out.old out.new result }
{
    match to {
        Address::Logs => put(alloc, out, b"logs"),
        Address::One(party) => {
            let letter = [letter_of(party.role)];
            let number = u64::from(party.number);
            append(alloc, out, &[Part::Bytes(&letter), Part::Number(number)])
        }
    }
}

/// Puts the line of a message that is sent behind the others: `send <party> <hex>`.
fn put_outgoing(alloc: Global, out: &mut Vec<u8>, outgoing: &Outgoing) -> Result<(), AllocError>
    ensures { Puts (letter_line outgoing.now) out.old out.new result }
{
    put(alloc, out, b"send ")?;
    put_address(alloc, out, outgoing.to())?;
    put_hex(alloc, out, outgoing.bytes())
}

/// Puts the lines of these messages behind the others.
fn put_each(alloc: Global, out: &mut Vec<u8>, messages: &[Outgoing]) -> Result<(), AllocError>
    ensures { Puts (flat_map letter_line messages.now) out.old out.new result }
{
    for outgoing in messages {
        put_outgoing(alloc, out, outgoing)?;
    }
    Ok(())
}

/// Puts the lines of what is sent behind the others.
pub(crate) fn put_messages(alloc: Global, out: &mut Vec<u8>, sent: &Sent) -> Result<(), AllocError>
    ensures { Puts (sent_lines sent.now) out.old out.new result }
{
    put_each(alloc, out, sent.messages.as_slice())
}

/// Puts the line of a handover behind the others: `handed <digest> <hex>`.
pub(crate) fn put_handed(
    alloc: Global,
    out: &mut Vec<u8>,
    digest: &[u8; 32],
    signature: &[u8],
) -> Result<(), AllocError>
    ensures { Puts (handed_line digest.now signature.now) out.old out.new result }
{
    append(alloc, out, &[Part::Bytes(b"handed "), Part::Digest(digest)])?;
    put_hex(alloc, out, signature)
}

/// Puts the hex of a digest behind the others.
fn put_digest(alloc: Global, out: &mut Vec<u8>, digest: &[u8; 32]) -> Result<(), AllocError>
    ensures { Puts (encode_lower digest.now) out.old out.new result }
{
    append(alloc, out, &[Part::Digest(digest)])
}

/// Puts the line of a staple behind the others: `stapled <digest> <epoch> <64 hex> <hex>`.
pub(crate) fn put_stapled(
    alloc: Global,
    out: &mut Vec<u8>,
    digest: &[u8; 32],
    epoch: u64,
    channel: &[u8; 32],
    signature: &[u8],
) -> Result<(), AllocError>
    ensures { Puts (stapled_line digest.now epoch channel.now signature.now)
        out.old out.new result }
{
    put(alloc, out, b"stapled ")?;
    put_digest(alloc, out, digest)?;
    put_numbered(alloc, out, b" ", epoch)?;
    put(alloc, out, b" ")?;
    put_digest(alloc, out, channel)?;
    put_hex(alloc, out, signature)
}

// ---- what is told of a step

/// Puts the line of a step behind the others: `None` where it succeeds.
pub(crate) fn put_step(
    alloc: Global,
    out: &mut Vec<u8>,
    party: Party,
    what: What,
    refused: Option<Code>,
) -> Result<(), AllocError>
    ensures { Puts (step_told party what refused) out.old out.new result }
{
    let step = Happening::Step {
        party,
        what,
        refused,
    };
    put_line(alloc, out, &step)
}

/// Puts the line of the epoch that ended at the log with this number behind the others, where one did.
pub(crate) fn put_ended(
    alloc: Global,
    out: &mut Vec<u8>,
    log: u16,
    sent: &Sent,
) -> Result<(), AllocError>
    ensures { Puts (ended_line log sent.now.ended) out.old out.new result }
{
    match sent.ended {
        Some((epoch, root)) => put_line(alloc, out, &Happening::Ended { log, epoch, root }),
        None => Ok(()),
    }
}

/// Puts the front of the line of a step of a draft behind the others: `<D> <word> <draft>`.
pub(crate) fn put_draft_step(
    alloc: Global,
    out: &mut Vec<u8>,
    party: Party,
    word: &[u8],
    draft: u64,
) -> Result<(), AllocError>
    ensures { Puts (draft_step party word.now draft) out.old out.new result }
{
    put_address(alloc, out, Address::One(party))?;
    append(alloc, out, &[Part::Bytes(b" "), Part::Bytes(word)])?;
    put_numbered(alloc, out, b" ", draft)
}

/// Puts the line of the leaves that are left behind the others: `<D> leaves <free> of <all> kept <kept>`.
pub(crate) fn put_leaves(
    alloc: Global,
    out: &mut Vec<u8>,
    party: Party,
    free: u64,
    leaves: u64,
    kept: u64,
) -> Result<(), AllocError>
    ensures { Puts (leaves_line party free leaves kept) out.old out.new result }
{
    put_address(alloc, out, Address::One(party))?;
    put_numbered(alloc, out, b" leaves ", free)?;
    put_numbered(alloc, out, b" of ", leaves)?;
    put_numbered(alloc, out, b" kept ", kept)?;
    put(alloc, out, b"\n")
}

/// Puts the number of a check behind the others, where there is one.
fn put_check(alloc: Global, out: &mut Vec<u8>, check: Option<u8>) -> Result<(), AllocError>
    ensures { Puts (check_text check) out.old out.new result }
{
    match check {
        Some(check) => put_numbered(alloc, out, b" ", u64::from(check)),
        None => Ok(()),
    }
}

/// Puts the end of the line of a step that an owner refused behind the others: ` refused O<number>`, and the number of a check.
pub(crate) fn put_refused_so(
    alloc: Global,
    out: &mut Vec<u8>,
    number: u8,
    check: Option<u8>,
) -> Result<(), AllocError>
    ensures { Puts (refused_so number check) out.old out.new result }
{
    put_numbered(alloc, out, b" refused O", u64::from(number))?;
    put_check(alloc, out, check)?;
    put(alloc, out, b"\n")
}

// ---- lines that are refused

/// Puts a reason behind the others.
fn put_reason(alloc: Global, out: &mut Vec<u8>, reason: Reason) -> Result<(), AllocError>
    ensures { Puts (reason_text reason) out.old out.new result }
{
    let text = format!(in alloc; "{reason}")?;
    put(alloc, out, text.as_bytes())
}

/// Puts a text and a number behind the others.
fn put_numbered(
    alloc: Global,
    out: &mut Vec<u8>,
    text: &[u8],
    number: u64,
) -> Result<(), AllocError>
    ensures { Puts (text.now ++ decimal number) out.old out.new result }
{
    append(alloc, out, &[Part::Bytes(text), Part::Number(number)])
}

/// Puts why a line is refused behind the others.
fn put_cause(alloc: Global, out: &mut Vec<u8>, cause: Cause) -> Result<(), AllocError>
    ensures { Puts (unread_text cause) out.old out.new result }
{
    match cause {
        Cause::Form(reason) => put_reason(alloc, out, reason),
        Cause::Order => put(alloc, out, b"order"),
        Cause::Absent(word) => put_numbered(alloc, out, b"none ", word as u64),
        Cause::Limit => put(alloc, out, b"limit"),
    }
}

/// Puts the line that tells why the line with this number is refused behind the others: `line <n>: <reason>`.
/// The one error is want of memory.
pub fn put_line_refused(
    alloc: Global,
    out: &mut Vec<u8>,
    number: u64,
    cause: Cause,
) -> Result<(), AllocError>
    ensures { Puts (unread_line number cause) out.old out.new result }
{
    put_numbered(alloc, out, b"line ", number)?;
    put(alloc, out, b": ")?;
    put_cause(alloc, out, cause)?;
    put(alloc, out, b"\n")
}
