//! In which order the lines of a script may come.

ghost use Rattle.std.specs.Prelude.{◌≡◌};
ghost use Rattle.ar_world.specs.Founding.{is_peopled, may_come, place_of};
ghost use Rattle.ar_world.specs.Step.{leads_to};

use crate::Phase;
use script_text::SetupLine;

/// The phase to which a line of the setup leads.
pub(crate) fn leads_to(line: &SetupLine) -> Phase
    ensures { result ≡ leads_to line.now }
{
    match line {
        SetupLine::Secret { .. } => Phase::SecretTold,
        SetupLine::Keys { .. } => Phase::KeysTold,
        SetupLine::Logs { .. } => Phase::LogsMade,
        SetupLine::Authorities { .. } => Phase::AuthoritiesMade,
        SetupLine::Dishonest { .. } => Phase::DishonestTold,
    }
}

/// Whether a line that leads to `next` may come where the last one led to `now`.
pub(crate) fn may_come(now: Phase, next: Phase) -> bool
    ensures { result ≡ may_come now next }
{
    match next {
        Phase::AuthoritiesMade => matches!(now, Phase::LogsMade),
        Phase::DishonestTold => matches!(now, Phase::AuthoritiesMade | Phase::DishonestTold),
        Phase::Running => is_peopled(now),
        _ => place_of(now) < place_of(next),
    }
}

/// Whether the logs and authorities are there.
pub(crate) fn is_peopled(now: Phase) -> bool
    ensures { result ≡ is_peopled now }
{
    place_of(Phase::AuthoritiesMade) <= place_of(now)
}

/// How far a phase is.
fn place_of(phase: Phase) -> u8
    ensures { result ≡ place_of phase }
{
    phase as u8
}
