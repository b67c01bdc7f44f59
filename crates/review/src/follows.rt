ghost use Rattle.std.specs.Prelude.{◌≡◌, [], map, IfOk};
ghost use Rattle.ar_lines.specs.Readings.{FollowsUnless, ReadsUnless, spelled, start_of_lines};
ghost use Rattle.ar_run.specs.Answers.{bytes_of};
ghost use Rattle.arpki_ask.specs.Answers.{unless_refused};
ghost use Rattle.arpki_ask.specs.Inquiries.{directory_at};
ghost use Rattle.review.specs.Answers.{ended, followed};
ghost use Rattle.review.specs.Follows.{TellsUnless, answered_at, change_of_hex, group_at, groups_at, judged, link_at, links_at, most_groups, most_link_lines, room_at};

use crate::pins::pinned_line;
use ar_cert::{CertFault, Change};
use ar_lines::{LineFault, Lines, Reason, Refusal, Word};
use ar_names::Name;
use ar_run::Answer;
use arpki_ask::readers::{confirmation, directory, name, number};
use arpki_ask::refuse;
use client_memory::{PinBook, Pinned};
use party_keys::Directory;
use std::alloc::{AllocError, Global};
use std::marker::Model;

/// The most lines of an input.
const MOST_LINES: u64 = 20_000;
/// The most lines `link` of a group: one more than the client takes, so that it can answer that there are too many.
const MOST_LINK_LINES: usize = 65;
/// No input has so many groups, since a group has four lines.
const MOST_GROUPS: usize = 5_000;

/// What a client asks of a name, and what it was given for an answer.
#[derive(Debug, Drop)]
struct Group {
    name: Name,
    now: u64,
    age: u64,
    links: Vec<Change>,
    confirmation: Vec<u8>,
}

// Clauses see the fields.
impl Model for Group {
    ghost use Rattle.review.specs.Follows.{Group as Spec};

    ghost Value = { Spec };

    ghost view = { λ g. record {
      name = g.name;
      epoch = g.now;
      age = g.age;
      links = g.links.items;
      confirmation = g.confirmation.items;
    } };
}

/// The next line, where there is one, is among those that may be read.
fn room(lines: &Lines) -> Result<(), Refusal>
    ensures { result ≡ room_at lines.now }
{
    match lines.no_row() {
        Err(refusal) if refusal.line > MOST_LINES => {
            Err(Refusal::new(refusal.line, Reason::Limit))
        }
        _ => Ok(()),
    }
}

/// The change of which a word spells the text.
fn change(alloc: Global, word: &Word) -> Result<Change, LineFault>
    ensures { ReadsUnless (λ change.
        change) result (spelled word.now (change_of_hex word.now.text)) }
{
    let bytes = word.bytes(alloc)?;
    match Change::read(alloc, &bytes) {
        Ok(change) => Ok(change),
        Err(CertFault::Form(_)) => Err(LineFault::Refused(word.refusal())),
        Err(CertFault::Memory) => Err(LineFault::Memory),
    }
}

/// `link <hex of a change>`: the next change.
#[tactic(auto, unfolding(ar_lines::specs::Rows::value_at))]
fn link(alloc: Global, lines: &mut Lines) -> Result<Change, LineFault>
    ensures { FollowsUnless (λ change. change) result lines.new (link_at lines.old) }
{
    room(lines)?;
    let field = lines.field(b"link")?;
    change(alloc, &field)
}

/// The changes of the lines `link`, of which there are at most 65.
#[tactic(auto, using(crate::proofs::LinkLines::link_lines))]
fn links(alloc: Global, lines: &mut Lines) -> Result<Vec<Change>, LineFault>
    ensures { FollowsUnless (λ links.
        links.items) result lines.new (links_at most_link_lines [] lines.old) }
{
    let mut links = Vec::new(alloc);
    for _ in 0..MOST_LINK_LINES {
        if !lines.is_next(b"link") {
            return Ok(links);
        }
        let next = link(alloc, lines)?;
        links.push(next)?;
    }
    Ok(links)
}

/// The lines of the next group.
#[tactic(auto, unfolding(crate::specs::Follows::group_at))]
fn read_group(alloc: Global, lines: &mut Lines) -> Result<Group, LineFault>
    ensures { FollowsUnless (λ group. group) result lines.new (group_at lines.old) }
{
    room(lines)?;
    let name = name(alloc, lines)?;
    room(lines)?;
    let now = number(lines, b"now")?;
    room(lines)?;
    let age = number(lines, b"age")?;
    let links = links(alloc, lines)?;
    room(lines)?;
    let confirmation = confirmation(alloc, lines)?;
    Ok(Group {
        name,
        now,
        age,
        links,
        confirmation,
    })
}

/// What the client answers to a group, and keeps then. The only error is want of memory.
fn judged(
    alloc: Global,
    directory: &Directory,
    book: &mut PinBook,
    group: Group,
) -> Result<Pinned, AllocError>
    ensures { IfOk result (λ answer. judged directory.now book.old group ≡ (answer, book.new)) }
{
    let name = group.name.text();
    let (bytes, links) = (group.confirmation.as_slice(), group.links.as_slice());
    book.judge(alloc, directory, name, bytes, links, group.now, group.age)
}

/// The next group: the line of what the client answers to it, and keeps then.
#[tactic(auto, unfolding(crate::specs::Follows::answered_at))]
fn answered(
    alloc: Global,
    directory: &Directory,
    book: &mut PinBook,
    lines: &mut Lines,
) -> Result<Vec<u8>, LineFault>
    ensures { FollowsUnless (λ line.
        (line.items, book.new)) result lines.new
        (answered_at directory.now book.old lines.old) }
{
    let group = read_group(alloc, lines)?;
    let answer = judged(alloc, directory, book, group)?;
    let line = pinned_line(alloc, answer)?;
    Ok(line)
}

/// Puts the lines of the groups, up to the end of the input, behind others. Where a line is refused, those of the
/// groups in front of it are told.
#[tactic(auto, using(crate::proofs::GroupLines::group_lines))]
fn groups(
    alloc: Global,
    directory: &Directory,
    book: &mut PinBook,
    told: &mut Vec<Vec<u8>>,
    lines: &mut Lines,
) -> Result<(), LineFault>
    ensures { TellsUnless result (map bytes_of told.new.items)
        (groups_at most_groups directory.now book.old (map bytes_of told.old.items) lines.old) }
{
    for _ in 0..MOST_GROUPS {
        if lines.no_row().is_ok() {
            return Ok(());
        }
        let line = answered(alloc, directory, book, lines)?;
        told.push(line)?;
    }
    Ok(())
}

/// The answer of these lines, and behind them of a line that is refused. The only error is want of memory.
#[tactic(auto, using(crate::proofs::Behind::one_behind))]
fn refused_behind(alloc: Global, told: Vec<Vec<u8>>, refusal: Refusal) -> Result<Answer, AllocError>
    ensures { IfOk result (λ answer. answer ≡ ended (map bytes_of told.items) (Err refusal)) }
{
    let mut lines = told;
    let mut line = format!(in alloc; "{refusal}")?.into_bytes();
    line.push(b'\n')?;
    lines.push(line)?;
    Ok(Answer::of(lines, 3))
}

/// What is told of the groups, by a client that remembers nothing at first.
fn followed(alloc: Global, directory: &Directory, lines: &mut Lines) -> Result<Answer, AllocError>
    ensures { IfOk result (λ answer. answer ≡ followed (directory.now, lines.old)) }
{
    let mut book = PinBook::new(alloc);
    let mut told = Vec::new(alloc);
    match groups(alloc, directory, &mut book, &mut told, lines) {
        Ok(()) => Ok(Answer::of(told, 0)),
        Err(LineFault::Refused(refusal)) => refused_behind(alloc, told, refusal),
        Err(LineFault::Memory) => Err(AllocError),
    }
}

/// The answer to an input that is not too long.
pub fn answer(alloc: Global, input: &[u8]) -> Result<Answer, AllocError>
    ensures { IfOk result (λ answer.
        answer ≡ unless_refused followed (directory_at (start_of_lines input.now))) }
{
    let mut lines = Lines::new(input);
    match directory(alloc, &mut lines) {
        Ok(directory) => followed(alloc, &directory, &mut lines),
        Err(LineFault::Refused(refusal)) => refuse(alloc, refusal),
        Err(LineFault::Memory) => Err(AllocError),
    }
}
