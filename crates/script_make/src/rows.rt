ghost use Rattle.std.specs.Prelude.{◌≡◌, ◌+◌, ◌*◌, ◌<◌, ◌≤◌, ◌^◌, flat_map};
ghost use Rattle.std.specs.List.{range_with_len};
ghost use Rattle.ar_base.specs.Appending.{Appends};
ghost use Rattle.script_make.specs.Numbers.{batch};
ghost use Rattle.script_make.specs.Rows.{handover_text, keyed_text, question_on_none_text, question_text, registration_text, row_text, teaching_text, trusted_by, trusted_text, update_text};

use ar_text::{Part, append};
use std::alloc::{AllocError, Global};

/// What stands in a script for each number of a span.
#[derive(Clone, Copy, Debug)]
pub(crate) enum Row {
    /// The owner with this number.
    Owner,
    /// The authorities that the domain trusts learn of its name.
    Teach,
    /// The domain is registered.
    Register,
    /// The draft with this number, counted from the one behind `before`, is submitted.
    Submit { before: u32 },
    /// The domain with the fourfold number is updated.
    Update,
    /// The owner hands the draft of that update over, where the domain is keyed. So many are the domains.
    Handover { domains: u32 },
    /// A client asks for the domain and judges, where `last` is the last epoch.
    Ask { last: u32 },
    /// A client asks for a name that is not there.
    AskAbsent { last: u32 },
}

/// Numbers that follow one another.
#[derive(Clone, Copy, Debug)]
pub(crate) struct Span {
    /// The least of them.
    pub first: u32,
    /// How many they are.
    pub count: u32,
}

/// Batch k, from 0, of so many numbers from 0 on, each batch but the last of 64.
pub(crate) fn batch_of(count: u32, k: u32) -> Span
    requires { 64 * k < 2 ^ 32 }
    ensures numbers { range_with_len result.first result.count ≡ batch count k }
    ensures fits { 64 * k ≤ count → result.first + result.count ≤ count }
{
    let first = 64 * k;
    Span {
        first,
        count: count.saturating_sub(first).min(64),
    }
}

/// The authorities that the domain trusts.
fn trusted(domain: u64) -> &'static [u64]
    requires { domain < 2 ^ 32 }
    ensures { result.now ≡ trusted_by domain }
{
    match (domain + 3) % 4 {
        0 => &[1, 2, 3],
        1 => &[0, 2, 3],
        2 => &[0, 1, 3],
        _ => &[0, 1, 2],
    }
}

/// Their numbers, written with commas.
fn trusted_list(domain: u64) -> &'static [u8]
    requires { domain < 2 ^ 32 }
    ensures { result.now ≡ trusted_text domain }
{
    match (domain + 3) % 4 {
        0 => b"1,2,3",
        1 => b"0,2,3",
        2 => b"0,1,3",
        _ => b"0,1,2",
    }
}

/// The word that says whether a domain is bound to its key.
fn keyed_word(domain: u64) -> &'static [u8]
    ensures { result.now ≡ keyed_text domain }
{
    if domain % 8 == 0 { b"keyed" } else { b"free" }
}

/// The lines by which the trusted authorities learn of a domain.
fn put_teachings(alloc: Global, out: &mut Vec<u8>, domain: u64) -> Result<(), AllocError>
    requires { domain < 2 ^ 32 }
    ensures { Appends (flat_map (teaching_text domain) (trusted_by domain)) out.old out.new result }
{
    for authority in trusted(domain) {
        let line = [
            Part::Bytes(b"teach A"),
            Part::Number(*authority),
            Part::Bytes(b" d"),
            Part::Number(domain),
            Part::Bytes(b".example D"),
            Part::Number(domain),
            Part::Bytes(b"\n"),
        ];
        append(alloc, out, &line)?;
    }
    Ok(())
}

/// The line that registers a domain.
fn put_registration(alloc: Global, out: &mut Vec<u8>, domain: u64) -> Result<(), AllocError>
    requires { domain < 2 ^ 32 }
    ensures { Appends (registration_text domain) out.old out.new result }
{
    let keyed = keyed_word(domain);
    let trusted = trusted_list(domain);
    let line = [
        Part::Bytes(b"register D"),
        Part::Number(domain),
        Part::Bytes(b" d"),
        Part::Number(domain),
        Part::Bytes(b".example 2 "),
        Part::Bytes(keyed),
        Part::Bytes(b" 8 1000 "),
        Part::Bytes(trusted),
        Part::Bytes(b" "),
        Part::Bytes(trusted),
        Part::Bytes(b"\n"),
    ];
    append(alloc, out, &line)
}

/// The line that updates a domain, whose draft is the one behind its number.
fn put_update(alloc: Global, out: &mut Vec<u8>, domain: u64) -> Result<(), AllocError>
    requires { domain < 2 ^ 32 }
    ensures { Appends (update_text domain) out.old out.new result }
{
    let trusted = trusted_list(domain);
    let line = [
        Part::Bytes(b"update D"),
        Part::Number(domain),
        Part::Bytes(b" "),
        Part::Number(domain + 1),
        Part::Bytes(b" 2 free"),
        Part::Bytes(b" 8 1000 "),
        Part::Bytes(trusted),
        Part::Bytes(b" "),
        Part::Bytes(trusted),
        Part::Bytes(b"\n"),
    ];
    append(alloc, out, &line)
}

/// The line by which a draft is handed over, for a domain that is keyed.
fn put_handover(alloc: Global, out: &mut Vec<u8>, domain: u64, draft: u64) -> Result<(), AllocError>
    ensures { Appends (handover_text domain draft) out.old out.new result }
{
    if domain % 8 != 0 {
        return append(alloc, out, &[]);
    }
    let line = [
        Part::Bytes(b"handover D"),
        Part::Number(domain),
        Part::Bytes(b" "),
        Part::Number(draft),
        Part::Bytes(b"\n"),
    ];
    append(alloc, out, &line)
}

/// The lines in which a client asks for a domain and judges the answer.
fn put_question(alloc: Global, out: &mut Vec<u8>, domain: u64, last: u64) -> Result<(), AllocError>
    requires { domain < 2 ^ 32 }
    ensures { Appends (question_text last domain) out.old out.new result }
{
    let lines = [
        Part::Bytes(b"ask L"),
        Part::Number(domain % 5),
        Part::Bytes(b" d"),
        Part::Number(domain),
        Part::Bytes(b".example A"),
        Part::Number(domain % 4),
        Part::Bytes(b" A"),
        Part::Number((domain + 1) % 4),
        Part::Bytes(b" C0\nflush\njudge last d"),
        Part::Number(domain),
        Part::Bytes(b".example "),
        Part::Number(last),
        Part::Bytes(b" 4\n"),
    ];
    append(alloc, out, &lines)
}

/// The same of a name that is not there.
fn put_question_on_none(
    alloc: Global,
    out: &mut Vec<u8>,
    k: u64,
    last: u64,
) -> Result<(), AllocError>
    ensures { Appends (question_on_none_text last k) out.old out.new result }
{
    let lines = [
        Part::Bytes(b"ask L"),
        Part::Number(k % 5),
        Part::Bytes(b" none"),
        Part::Number(k),
        Part::Bytes(b".example A0 A1 C0\nflush\njudge last none"),
        Part::Number(k),
        Part::Bytes(b".example "),
        Part::Number(last),
        Part::Bytes(b" 4\n"),
    ];
    append(alloc, out, &lines)
}

/// The lines of a row for one number.
fn put_row(alloc: Global, out: &mut Vec<u8>, row: Row, i: u32) -> Result<(), AllocError>
    requires { i < 2 ^ 30 }
    ensures { Appends (row_text row i) out.old out.new result }
{
    let i = u64::from(i);
    match row {
        Row::Owner => {
            let line = [Part::Bytes(b"owner D"), Part::Number(i), Part::Bytes(b"\n")];
            append(alloc, out, &line)
        }
        Row::Teach => put_teachings(alloc, out, i),
        Row::Register => put_registration(alloc, out, i),
        Row::Submit { before } => {
            let line = [
                Part::Bytes(b"submit "),
                Part::Number(u64::from(before) + 1 + i),
                Part::Bytes(b"\n"),
            ];
            append(alloc, out, &line)
        }
        Row::Update => put_update(alloc, out, 4 * i),
        Row::Handover { domains } => { put_handover(alloc, out, 4 * i, u64::from(domains) + 1 + i) }
        Row::Ask { last } => put_question(alloc, out, i, u64::from(last)),
        Row::AskAbsent { last } => put_question_on_none(alloc, out, i, u64::from(last)),
    }
}

/// The lines of a row for each number of a span.
pub(crate) fn put_rows(
    alloc: Global,
    out: &mut Vec<u8>,
    row: Row,
    span: Span,
) -> Result<(), AllocError>
    requires { span.first + span.count ≤ 1000 }
    ensures { Appends (flat_map (row_text row)
        (range_with_len span.first span.count)) out.old out.new result }
{
    for i in span.first..span.first + span.count {
        put_row(alloc, out, row, i)?;
    }
    Ok(())
}
