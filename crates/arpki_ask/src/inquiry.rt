ghost use Rattle.std.specs.Prelude.{◌≡◌, IfOk};
ghost use Rattle.arpki_ask.specs.Answers.{found, unless_refused};
ghost use Rattle.arpki_ask.specs.Inquiries.{inquiry_at};
ghost use Rattle.ar_lines.specs.Readings.{ReadsUnless, start_of_lines};

use crate::judgements::tell_judgement;
use crate::readers::{confirmation, directory, name, number};
use crate::verdicts::refuse;
use ar_lines::{LineFault, Lines};
use ar_names::Name;
use ar_run::Answer;
use client_rule::judge;
use party_keys::Directory;
use report_text::said_of;
use std::alloc::{AllocError, Global};
use std::marker::Model;

/// What `check` is asked: what a client that trusts the directory makes of a confirmation of the name.
#[derive(Debug, Drop)]
pub struct Inquiry {
    directory: Directory,
    name: Name,
    now: u64,
    age: u64,
    confirmation: Vec<u8>,
}

// Clauses see the fields.
impl Model for Inquiry {
    ghost use Rattle.arpki_ask.specs.Inquiries.{Inquiry as Spec};

    ghost Value = { Spec };

    ghost view = { λ i. record {
      asked = record {
        keys = i.directory;
        name = i.name;
        epoch = i.now;
        age = i.age;
      };
      confirmation = i.confirmation.items;
    } };
}

/// The lines of an input.
#[tactic(auto, unfolding(crate::specs::Inquiries::inquiry_at))]
fn read(alloc: Global, input: &[u8]) -> Result<Inquiry, LineFault>
    ensures { ReadsUnless (λ inquiry. inquiry) result (inquiry_at (start_of_lines input.now)) }
{
    let mut lines = Lines::new(input);
    let directory = directory(alloc, &mut lines)?;
    let name = name(alloc, &mut lines)?;
    let now = number(&mut lines, b"now")?;
    let age = number(&mut lines, b"age")?;
    let confirmation = confirmation(alloc, &mut lines)?;
    lines.no_row()?;
    Ok(Inquiry {
        directory,
        name,
        now,
        age,
        confirmation,
    })
}

/// The answer to an inquiry: what a client judges by its rule.
fn judged(alloc: Global, inquiry: Inquiry) -> Result<Answer, AllocError>
    ensures { IfOk result (λ answer. answer ≡ found inquiry) }
{
    let Inquiry {
        directory,
        name,
        now,
        age,
        confirmation,
    } = inquiry;
    let judgement = judge(&directory, name.text(), &confirmation, now, age);
    tell_judgement(alloc, &said_of(name, &judgement))
}

/// The answer to an input that is not too long.
pub fn answer(alloc: Global, input: &[u8]) -> Result<Answer, AllocError>
    ensures { IfOk result (λ answer.
        answer ≡ unless_refused found (inquiry_at (start_of_lines input.now))) }
{
    match read(alloc, input) {
        Ok(inquiry) => judged(alloc, inquiry),
        Err(LineFault::Refused(refusal)) => refuse(alloc, refusal),
        Err(LineFault::Memory) => Err(AllocError),
    }
}
