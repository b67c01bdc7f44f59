ghost use Rattle.std.specs.Prelude.{◌≡◌, [], ◌+◌, ◌≤◌, IfOk, OnOk};
ghost use Rattle.ar_lines.specs.Readings.{FollowsUnless, ReadsUnless, start_of_lines};
ghost use Rattle.arpki_ask.specs.Answers.{unless_refused};
ghost use Rattle.monitor.specs.Items.{AscendByLine};
ghost use Rattle.review.specs.Answers.{audited};
ghost use Rattle.review.specs.Audits.{audit_at, line_in, most_statements, no_more_at, statement_at, statements_at};

use crate::telling::tell_report;
use ar_base::Items;
use ar_lines::{LineFault, Lines, Reason, Refusal};
use ar_run::Answer;
use arpki_ask::readers::directory;
use arpki_ask::refuse;
use monitor::{Item, audit};
use party_keys::Directory;
use std::alloc::{AllocError, Global};
use std::marker::Model;

/// The most statements of an input.
const MOST_STATEMENTS: usize = 10_000;

/// What `audit` is asked: who contradicts himself in these items, under the keys of the directory.
#[derive(Debug, Drop)]
struct Audit {
    directory: Directory,
    items: Vec<Item>,
}

// Clauses see the keys and the items, whose lines ascend.
impl Model for Audit {
    ghost use Rattle.monitor.specs.Items.{AscendByLine};
    ghost use Rattle.review.specs.Audits.{Audit as Spec};

    ghost Value = { Spec };

    ghost view = { λ a. record { keys = a.directory; items = a.items.items } };

    ghost invariant = { λ a. AscendByLine a.items.items };
}

/// The number of an item's line. An input that is not too long has no other lines than those with such numbers.
fn line_in(line: u64) -> Result<u32, Refusal>
    ensures number { result ≡ line_in line }
    ensures least { IfOk result (λ number. 1 ≤ number) }
    ensures same { IfOk result (λ number. number ≡ line) }
{
    if 1 <= line && line <= 0xffff_ffff {
        Ok(line as u32)
    } else {
        Err(Refusal::new(line, Reason::Limit))
    }
}

/// `statement <hex text> <hex sig>`: the next item.
#[tactic(auto, unfolding(crate::specs::Audits::statement_at))]
fn statement(alloc: Global, lines: &mut Lines) -> Result<Item, LineFault>
    ensures { FollowsUnless (λ item. item) result lines.new (statement_at lines.old) }
{
    let (text, signature) = lines.two_fields(b"statement")?;
    let line = text.line();
    let text = text.bytes(alloc)?;
    let signature = signature.bytes(alloc)?;
    let line = line_in(line)?;
    Ok(Item {
        line,
        text: Items::from_vec(text),
        signature: Items::from_vec(signature),
    })
}

/// No line is left; a statement too many is refused as `limit`, where nothing else is wrong with its line.
#[tactic(auto, unfolding(crate::specs::Audits::no_more_at))]
fn no_more(alloc: Global, lines: &mut Lines) -> Result<(), LineFault>
    ensures { FollowsUnless (λ end. end) result lines.new (no_more_at lines.old) }
{
    if lines.no_row().is_ok() {
        return Ok(());
    }
    let item = statement(alloc, lines)?;
    Err(LineFault::Refused(Refusal::new(u64::from(item.line), Reason::Limit)))
}

/// The items of the lines `statement`, of which there are at most 10,000, up to the end of the input.
#[tactic(auto, using(crate::proofs::StatementLines::statement_lines))]
fn statements(alloc: Global, lines: &mut Lines) -> Result<Vec<Item>, LineFault>
    ensures reads { FollowsUnless (λ items.
        items.items) result lines.new (statements_at most_statements [] lines.old) }
    ensures ascend { IfOk result (λ items. AscendByLine items.items) }
{
    let mut items = Vec::new(alloc);
    for _ in 0..MOST_STATEMENTS {
        if lines.no_row().is_ok() {
            return Ok(items);
        }
        let next = statement(alloc, lines)?;
        items.push(next)?;
    }
    no_more(alloc, lines)?;
    Ok(items)
}

/// The lines of an input.
#[tactic(auto, unfolding(crate::specs::Audits::audit_at))]
fn read(alloc: Global, input: &[u8]) -> Result<Audit, LineFault>
    ensures { ReadsUnless (λ asked. asked) result (audit_at (start_of_lines input.now)) }
{
    let mut lines = Lines::new(input);
    let directory = directory(alloc, &mut lines)?;
    let items = statements(alloc, &mut lines)?;
    Ok(Audit { directory, items })
}

/// The answer to what was asked: what is told of the report.
fn audited(alloc: Global, asked: &Audit) -> Result<Answer, AllocError>
    ensures { IfOk result (λ answer. answer ≡ audited asked.now) }
{
    let report = audit(alloc, &asked.directory, &asked.items)?;
    tell_report(alloc, asked.items.len(), &report)
}

/// The answer to an input that is not too long.
pub fn answer(alloc: Global, input: &[u8]) -> Result<Answer, AllocError>
    ensures { IfOk result (λ answer.
        answer ≡ unless_refused audited (audit_at (start_of_lines input.now))) }
{
    match read(alloc, input) {
        Ok(asked) => audited(alloc, &asked),
        Err(LineFault::Refused(refusal)) => refuse(alloc, refusal),
        Err(LineFault::Memory) => Err(AllocError),
    }
}
