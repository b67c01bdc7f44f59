//! The words of lines.
ghost use Rattle.std.specs.Prelude.{◌≡◌, ◌++◌, decimal};
ghost use Rattle.ar_base.specs.Appending.{Appends};
ghost use Rattle.ar_lines.specs.Parties.{party_word};
ghost use Rattle.report_text.specs.Lines.{code_text, kind_text, rule_letter, sender_text, taken_text, target_text, value_text, values_text, what_text};

use crate::happening::{Code, CodeValue, Kind, Target, Values, What};
use ar_lines::letter_of;
use ar_statement::{Party, Role};
use ar_text::{Part, append};
use std::alloc::{AllocError, Global};

/// The letter of whose rule it is.
fn rule_letter(role: Role) -> &'static [u8]
    ensures { result.now ≡ rule_letter role }
{
    match role {
        Role::LogServer => b"L",
        Role::Authority => b"A",
        Role::Owner => b"O",
        Role::Client => b"C",
    }
}

/// The word of a kind of messages.
pub(crate) fn kind_word(kind: Kind) -> &'static [u8]
    ensures { result.now ≡ kind_text kind }
{
    match kind {
        Kind::Raw => b"Raw",
        Kind::EndorseAsk => b"EndorseAsk",
        Kind::Endorsed => b"Endorsed",
        Kind::Submit => b"Submit",
        Kind::Propose => b"Propose",
        Kind::Ballot => b"Ballot",
        Kind::StatusNote => b"StatusNote",
        Kind::Decision => b"Decision",
        Kind::SkipNote => b"SkipNote",
        Kind::ConfirmAsk => b"ConfirmAsk",
        Kind::LogConfirmed => b"LogConfirmed",
        Kind::HalfConfirmed => b"HalfConfirmed",
        Kind::Confirmation => b"Confirmation",
        Kind::RollNote => b"RollNote",
    }
}

/// Appends a text as it is.
pub(crate) fn put(alloc: Global, out: &mut Vec<u8>, text: &[u8]) -> Result<(), AllocError>
    ensures { Appends text.now out.old out.new result }
{
    append(alloc, out, &[Part::Bytes(text)])
}

/// Appends a word and a number directly behind it.
pub(crate) fn put_numbered(
    alloc: Global,
    out: &mut Vec<u8>,
    word: &[u8],
    number: u64,
) -> Result<(), AllocError>
    ensures { Appends (word.now ++ decimal number) out.old out.new result }
{
    append(alloc, out, &[Part::Bytes(word), Part::Number(number)])
}

/// Appends a party.
pub(crate) fn put_party(alloc: Global, out: &mut Vec<u8>, party: Party) -> Result<(), AllocError>
    ensures { Appends (party_word party) out.old out.new result }
{
    put_numbered(
        alloc,
        out,
        &[letter_of(party.role)],
        u64::from(party.number),
    )
}

/// Appends a party, and a text behind it.
pub(crate) fn put_party_then(
    alloc: Global,
    out: &mut Vec<u8>,
    party: Party,
    text: &[u8],
) -> Result<(), AllocError>
    ensures { Appends (party_word party ++ text.now) out.old out.new result }
{
    put_party(alloc, out, party)?;
    put(alloc, out, text)
}

/// Appends who sent a message.
pub(crate) fn put_sender(
    alloc: Global,
    out: &mut Vec<u8>,
    sender: Option<Party>,
) -> Result<(), AllocError>
    ensures { Appends (sender_text sender) out.old out.new result }
{
    match sender {
        Some(party) => put_party(alloc, out, party),
        None => put(alloc, out, b"none"),
    }
}

/// Appends to whom a message goes.
pub(crate) fn put_target(alloc: Global, out: &mut Vec<u8>, target: Target) -> Result<(), AllocError>
    ensures { Appends (target_text target) out.old out.new result }
{
    match target {
        Target::Nobody => put(alloc, out, b"none"),
        Target::Logs => put(alloc, out, b"logs"),
        Target::One(party) => put_party(alloc, out, party),
    }
}

/// Appends what a party does.
pub(crate) fn put_what(alloc: Global, out: &mut Vec<u8>, what: What) -> Result<(), AllocError>
    ensures { Appends (what_text what) out.old out.new result }
{
    match what {
        What::Take(message) => put_numbered(alloc, out, b"take ", message),
        What::Propose => put(alloc, out, b"propose"),
        What::Pass => put(alloc, out, b"pass"),
        What::Roll => put(alloc, out, b"roll"),
        What::Submit(draft) => put_numbered(alloc, out, b"submit ", draft),
        What::Handover(draft) => put_numbered(alloc, out, b"handover ", draft),
        What::Object(draft) => put_numbered(alloc, out, b"object ", draft),
    }
}

/// Appends a value of a code behind a space.
fn put_value(alloc: Global, out: &mut Vec<u8>, value: CodeValue) -> Result<(), AllocError>
    ensures { Appends (value_text value) out.old out.new result }
{
    match value {
        CodeValue::Number(number) => put_numbered(alloc, out, b" ", number),
        CodeValue::Party(party) => {
            put(alloc, out, b" ")?;
            put_party(alloc, out, party)
        }
        CodeValue::Digest(digest) => {
            append(alloc, out, &[Part::Bytes(b" "), Part::Digest(&digest)])
        }
        CodeValue::Full => put(alloc, out, b" full"),
        CodeValue::NoRoot => put(alloc, out, b" none"),
    }
}

/// Appends the values of a code.
fn put_values(alloc: Global, out: &mut Vec<u8>, values: Values) -> Result<(), AllocError>
    ensures { Appends (values_text values) out.old out.new result }
{
    match values {
        Values::Nothing => put(alloc, out, b""),
        Values::One(value) => put_value(alloc, out, value),
        Values::Two(first, second) => {
            put_value(alloc, out, first)?;
            put_value(alloc, out, second)
        }
    }
}

/// Appends a code.
pub(crate) fn put_code(alloc: Global, out: &mut Vec<u8>, code: Code) -> Result<(), AllocError>
    ensures { Appends (code_text code) out.old out.new result }
{
    put_numbered(alloc, out, rule_letter(code.role), u64::from(code.number))?;
    put_values(alloc, out, code.values)
}

/// Appends the numbers of deliveries, each behind a space.
pub(crate) fn put_taken(alloc: Global, out: &mut Vec<u8>, taken: &[u64]) -> Result<(), AllocError>
    ensures { Appends (taken_text taken.now) out.old out.new result }
{
    for message in taken {
        put_numbered(alloc, out, b" ", *message)?;
    }
    Ok(())
}
