//! What a secret's file says.

ghost use Rattle.std.specs.Prelude.{◌≡◌};
ghost use Rattle.ar_base.specs.Gives.{GivesOrWants};
ghost use Rattle.arpki_party.specs.Made.{key_taken};
ghost use Rattle.arpki_party.specs.Secrets.{secret_said, setup_of, with_line, with_lines, nothing_said};
ghost use Rattle.arpki_party.specs.declared.not_opened.NotOpened.TheVariants.{Memory};
ghost use Rattle.ar_lines.specs.Lines.{parts_of};
ghost use Rattle.script_text.specs.Rows.{read_of};

use crate::not_opened::NotOpened;
use ar_founding::{Setup, make_key};
use ar_lines::first_part;
use ar_statement::Role;
use lm_ots::OtsType;
use lms_tree::{LmsKey, type_to_make};
use script_text::{Line, SetupLine};
use std::alloc::Global;

/// What the lines of a secret's file said so far.
#[derive(Clone, Copy, Debug)]
struct Said {
    secret: Option<[u8; 32]>,
    /// The numbers of the types of keys, of LMS and of LM-OTS.
    types: Option<(u32, u32)>,
}

/// The same with one line more; `None` where that is none of a secret's file, or is said already.
fn with_line(said: Said, line: &[u8]) -> Option<Said>
    ensures { result ≡ with_line said (read_of line.now) }
{
    let Ok(line) = Line::read(line) else {
        return None;
    };
    match (line, said.secret, said.types) {
        (None, _, _) => Some(said),
        (Some(Line::Setup(SetupLine::Secret { secret })), None, types) => Some(Said {
            secret: Some(secret),
            types,
        }),
        (Some(Line::Setup(SetupLine::Keys { lms, ots })), secret, None) => Some(Said {
            secret,
            types: Some((lms, ots)),
        }),
        _ => None,
    }
}

/// What all lines of a text say.
fn said_in(text: &[u8]) -> Option<Said>
    ensures { result ≡ with_lines nothing_said (parts_of 10 text.now) }
{
    let mut said = Said {
        secret: None,
        types: None,
    };
    let mut rest = Some(text);
    while let Some(lines) = rest {
        let (line, behind) = first_part(lines, b'\n');
        said = with_line(said, line)?;
        rest = behind;
    }
    Some(said)
}

/// The setup of what was said.
fn setup_of(said: Said) -> Option<Setup>
    ensures { result ≡ setup_of said }
{
    let mut setup = Setup::plain();
    setup.tell_secret(said.secret?);
    if let Some((lms, ots)) = said.types {
        setup.tell_types(type_to_make(lms)?, OtsType::of(ots)?);
    }
    Some(setup)
}

/// What a text says; `None` where it is that of no secret's file.
fn setup_in(text: &[u8]) -> Option<Setup>
    ensures { result ≡ secret_said text.now }
{
    setup_of(said_in(text)?)
}

/// The first key of a party, by the text of its secret's file.
pub(crate) fn key_in(
    alloc: Global,
    text: &[u8],
    role: Role,
    number: u16,
) -> Result<LmsKey, NotOpened>
    ensures { GivesOrWants Memory (λ key. key) result (key_taken role number text.now) }
{
    let Some(setup) = setup_in(text) else {
        return Err(NotOpened::NoSecret);
    };
    Ok(make_key(alloc, &setup, role, number)?)
}
