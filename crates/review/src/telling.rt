//! The lines that are written of a report.
ghost use Rattle.std.specs.Prelude.{◌≡◌, [], ◌∷◌, ◌++◌, map, IfOk, OnOk};
ghost use Rattle.ar_run.specs.Answers.{bytes_of};
ghost use Rattle.review.specs.Telling.{conflict_line, ignored_line, told_of, total_line};

use ar_lines::letter_of;
use ar_run::Answer;
use ar_text::{Part, append};
use monitor::{Conflict, Ignored, Report};
use std::alloc::{AllocError, Global};

/// `ignored <line> ..`: an item that is no evidence.
fn ignored_line(alloc: Global, line: u32, why: Ignored) -> Result<Vec<u8>, AllocError>
    ensures { IfOk result (λ text. text.items ≡ ignored_line (line, why)) }
{
    let line = Part::Number(u64::from(line));
    let mut text = Vec::new(alloc);
    match why {
        Ignored::Form => append(
            alloc,
            &mut text,
            &[Part::Bytes(b"ignored "), line, Part::Bytes(b" form\n")],
        )?,
        Ignored::Unknown => append(
            alloc,
            &mut text,
            &[Part::Bytes(b"ignored "), line, Part::Bytes(b" unknown\n")],
        )?,
        Ignored::Bad(k) => append(
            alloc,
            &mut text,
            &[
                Part::Bytes(b"ignored "),
                line,
                Part::Bytes(b" bad "),
                Part::Number(u64::from(k)),
                Part::Bytes(b"\n"),
            ],
        )?,
    }
    Ok(text)
}

/// `conflict <P> <first> <second> <rule>`: two statements of a party that contradict each other.
fn conflict_line(alloc: Global, conflict: &Conflict) -> Result<Vec<u8>, AllocError>
    ensures { IfOk result (λ text. text.items ≡ conflict_line conflict.now) }
{
    let letter = [letter_of(conflict.party.role)];
    let parts = [
        Part::Bytes(b"conflict "),
        Part::Bytes(&letter),
        Part::Number(u64::from(conflict.party.number)),
        Part::Bytes(b" "),
        Part::Number(u64::from(conflict.first)),
        Part::Bytes(b" "),
        Part::Number(u64::from(conflict.second)),
        Part::Bytes(b" "),
        Part::Number(u64::from(conflict.rule)),
        Part::Bytes(b"\n"),
    ];
    let mut text = Vec::new(alloc);
    append(alloc, &mut text, &parts)?;
    Ok(text)
}

/// `audited <items> valid <v> conflicts <c>`: how many items there were, how many are evidence, and how many parties
/// contradict themselves.
fn total_line(
    alloc: Global,
    items: usize,
    valid: u32,
    conflicts: usize,
) -> Result<Vec<u8>, AllocError>
    ensures { IfOk result (λ text. text.items ≡ total_line items valid conflicts) }
{
    let parts = [
        Part::Bytes(b"audited "),
        Part::Number(items as u64),
        Part::Bytes(b" valid "),
        Part::Number(u64::from(valid)),
        Part::Bytes(b" conflicts "),
        Part::Number(conflicts as u64),
        Part::Bytes(b"\n"),
    ];
    let mut text = Vec::new(alloc);
    append(alloc, &mut text, &parts)?;
    Ok(text)
}

/// Puts the line of an item that is no evidence behind the others. The only error is want of memory.
#[tactic(auto, using(crate::proofs::Behind::one_behind))]
fn add_ignored(
    alloc: Global,
    item: &(u32, Ignored),
    lines: &mut Vec<Vec<u8>>,
) -> Result<(), AllocError>
    ensures { OnOk result (map bytes_of lines.new.items ≡ map bytes_of lines.old.items
        ++ ignored_line item.now ∷ []) }
{
    let (line, why) = *item;
    let line = ignored_line(alloc, line, why)?;
    lines.push(line)?;
    Ok(())
}

/// Puts the line of a pair behind the others. The only error is want of memory.
#[tactic(auto, using(crate::proofs::Behind::one_behind))]
fn add_conflict(
    alloc: Global,
    conflict: &Conflict,
    lines: &mut Vec<Vec<u8>>,
) -> Result<(), AllocError>
    ensures { OnOk result (map bytes_of lines.new.items ≡ map bytes_of lines.old.items
        ++ conflict_line conflict.now ∷ []) }
{
    let line = conflict_line(alloc, conflict)?;
    lines.push(line)?;
    Ok(())
}

/// Puts the line of each item that is no evidence behind the others. The only error is want of memory.
fn tell_ignored(
    alloc: Global,
    ignored: &[(u32, Ignored)],
    lines: &mut Vec<Vec<u8>>,
) -> Result<(), AllocError>
    ensures { OnOk result (map bytes_of lines.new.items ≡ map bytes_of lines.old.items
        ++ map ignored_line ignored.now) }
{
    for item in ignored {
        add_ignored(alloc, item, lines)?;
    }
    Ok(())
}

/// Puts the line of each pair behind the others. The only error is want of memory.
fn tell_conflicts(
    alloc: Global,
    conflicts: &[Conflict],
    lines: &mut Vec<Vec<u8>>,
) -> Result<(), AllocError>
    ensures { OnOk result (map bytes_of lines.new.items ≡ map bytes_of lines.old.items
        ++ map conflict_line conflicts.now) }
{
    for conflict in conflicts {
        add_conflict(alloc, conflict, lines)?;
    }
    Ok(())
}

/// The answer that tells the report on so many items. The only error is want of memory.
pub fn tell_report(alloc: Global, items: usize, report: &Report) -> Result<Answer, AllocError>
    ensures { IfOk result (λ answer. answer ≡ told_of items report.now) }
{
    let mut lines = Vec::new(alloc);
    tell_ignored(alloc, report.ignored.as_slice(), &mut lines)?;
    tell_conflicts(alloc, report.conflicts.as_slice(), &mut lines)?;
    lines.push(total_line(alloc, items, report.valid, report.conflicts.len())?)?;
    Ok(Answer::of(lines, 0))
}
