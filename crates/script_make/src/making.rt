ghost use Rattle.std.specs.Prelude.{◌≡◌, ◌+◌, ◌≤◌, ◌<◌, ◌++◌, flat_map, length, vec_len, vec_capacity, IsOk, OnOk, OnErr};
ghost use Rattle.std.specs.List.{range_with_len};
ghost use Rattle.ar_base.specs.Appending.{Appends};
ghost use Rattle.script_make.specs.Numbers.{batches_of};
ghost use Rattle.script_make.specs.Script.{ending, last_script_epoch, questions, registration, script, setup, update, updates_of};

use crate::rows::{Row, Span, batch_of, put_rows};
use ar_text::{Part, append};
use std::alloc::{AllocError, Global};

/// How many batches there are of so many numbers.
fn batches_of(count: u32) -> u32
    requires { count ≤ 400 }
    ensures { result ≡ batches_of count }
{
    (count + 63) / 64
}

/// How many of so many domains are updated.
fn updates_of(domains: u32) -> u32
    requires { domains ≤ 400 }
    ensures value { result ≡ updates_of domains }
    ensures fits { result ≤ 400 }
{
    domains.div_ceil(4)
}

/// The last epoch of the script for so many domains, at most 400: each batch of registrations ends one, and each batch of
/// updates.
pub fn last_script_epoch(domains: u32) -> u32
    requires { domains ≤ 400 }
    ensures { result ≡ last_script_epoch domains }
{
    batches_of(domains) + batches_of(updates_of(domains))
}

/// The lines that end epoch e.
fn put_ending(alloc: Global, out: &mut Vec<u8>, epoch: u32) -> Result<(), AllocError>
    ensures { Appends (ending epoch) out.old out.new result }
{
    let lines = [
        Part::Bytes(b"flush\npropose L"),
        Part::Number(u64::from(epoch % 5)),
        Part::Bytes(b"\nflush\n"),
    ];
    append(alloc, out, &lines)
}

/// The lines of the setup, the owners, and what the authorities learn.
fn put_setup(alloc: Global, out: &mut Vec<u8>, domains: u32) -> Result<(), AllocError>
    requires { domains ≤ 400 }
    ensures { Appends (setup domains) out.old out.new result }
{
    let all = Span {
        first: 0,
        count: domains,
    };
    append(
        alloc,
        out,
        &[Part::Bytes(b"keys 6 3\nlogs 5 4\nauthorities 4\n")],
    )?;
    put_rows(alloc, out, Row::Owner, all)?;
    put_rows(alloc, out, Row::Teach, all)
}

/// The lines that register batch k of the domains.
fn put_registration(
    alloc: Global,
    out: &mut Vec<u8>,
    domains: u32,
    k: u32,
) -> Result<(), AllocError>
    requires { (domains ≤ 400) × (k < batches_of domains) }
    ensures { Appends (registration domains k) out.old out.new result }
{
    let batch = batch_of(domains, k);
    put_rows(alloc, out, Row::Register, batch)?;
    append(alloc, out, &[Part::Bytes(b"flush\n")])?;
    put_rows(alloc, out, Row::Submit { before: 0 }, batch)?;
    put_ending(alloc, out, k + 1)
}

/// The lines that update batch k of every fourth domain.
fn put_update(alloc: Global, out: &mut Vec<u8>, domains: u32, k: u32) -> Result<(), AllocError>
    requires { (domains ≤ 400) × (k < batches_of (updates_of domains)) }
    ensures { Appends (update domains k) out.old out.new result }
{
    let batch = batch_of(updates_of(domains), k);
    put_rows(alloc, out, Row::Update, batch)?;
    append(alloc, out, &[Part::Bytes(b"flush\n")])?;
    put_rows(alloc, out, Row::Handover { domains }, batch)?;
    put_rows(alloc, out, Row::Submit { before: domains }, batch)?;
    put_ending(alloc, out, batches_of(domains) + k + 1)
}

/// All batches of registrations.
fn put_registrations(alloc: Global, out: &mut Vec<u8>, domains: u32) -> Result<(), AllocError>
    requires { domains ≤ 400 }
    ensures { Appends (flat_map (registration domains)
        (range_with_len 0 (batches_of domains))) out.old out.new result }
{
    for k in 0..batches_of(domains) {
        put_registration(alloc, out, domains, k)?;
    }
    Ok(())
}

/// All batches of updates.
fn put_updates(alloc: Global, out: &mut Vec<u8>, domains: u32) -> Result<(), AllocError>
    requires { domains ≤ 400 }
    ensures { Appends (flat_map (update domains)
        (range_with_len 0 (batches_of (updates_of domains)))) out.old out.new result }
{
    for k in 0..batches_of(updates_of(domains)) {
        put_update(alloc, out, domains, k)?;
    }
    Ok(())
}

/// The lines in which clients ask.
fn put_questions(alloc: Global, out: &mut Vec<u8>, domains: u32) -> Result<(), AllocError>
    requires { domains ≤ 400 }
    ensures { Appends (questions domains) out.old out.new result }
{
    let last = last_script_epoch(domains);
    let all = Span {
        first: 0,
        count: domains,
    };
    let absent = Span {
        first: 0,
        count: (domains + 9) / 10,
    };
    put_rows(alloc, out, Row::Ask { last }, all)?;
    put_rows(alloc, out, Row::AskAbsent { last }, absent)
}

/// The whole script. After an error some of it may stand in `out`.
fn put_script(alloc: Global, out: &mut Vec<u8>, domains: u32) -> Result<(), AllocError>
    requires { domains ≤ 400 }
    ensures { Appends (script domains) out.old out.new result }
{
    put_setup(alloc, out, domains)?;
    put_registrations(alloc, out, domains)?;
    put_updates(alloc, out, domains)?;
    put_questions(alloc, out, domains)
}

/// Appends the script for so many domains. It ends in a newline.
///
/// The one error is want of memory. It leaves the bytes of `out` as they were, and does not come where
/// `out` has room for the script.
pub fn make(alloc: Global, number: u32, out: &mut Vec<u8>) -> Result<(), AllocError>
    requires { (1 ≤ number) × (number ≤ 400) }
    ensures ok { OnOk result (out.new.items ≡ out.old.items ++ script number) }
    ensures err { OnErr result (out.new.items ≡ out.old.items) }
    ensures room { vec_len out.old + length (script number) ≤ vec_capacity out.old → IsOk result }
{
    let start = out.len();
    let result = put_script(alloc, out, number);
    if result.is_err() {
        out.truncate(start);
    }
    result
}
