//! The answer to an input.

ghost use Rattle.std.specs.Prelude.{ℕ, List, IfOk};
ghost use Rattle.script_play.specs.ar_nodes.Parties.{checks_told};
ghost use Rattle.ar_run.specs.Runs.{IsInput};
ghost use Rattle.run_restart.specs.Answers.{telling_played};
ghost use Rattle.run_restart.specs.Asking.{texts_in};
ghost use Rattle.run_restart.specs.Ending.{EachReplayed, EndsInput, EndsScript, IsEnded};

use crate::Restart;
use crate::behind::line_behind;
use crate::ended::Ended;
use crate::restarting::restart_in;
use crate::telling::refuse;
use ar_io::QuietSink;
use arpki_ask::refuse_long;
use owner_check::OwnerCheck;
use script_play::{Played, play};
use std::alloc::{AllocError, Global};

/// What comes of a script that was played.
#[tactic(auto, using(crate::proofs::Endings::refused_laws))]
fn restart_played<C: OwnerCheck>(
    alloc: Global,
    played: &Played<C>,
    asked: Restart,
    behind: u64,
) -> Result<Ended, AllocError>
    requires { EachReplayed played.now.world asked.log }
    ensures { IfOk result (IsEnded (telling_played asked behind played.now.world played.now.refused)
        (texts_in played.now.world asked.log) asked.calls) }
{
    match played.refused {
        Some((number, cause)) => refuse(alloc, number, cause),
        None => restart_in(alloc, &played.world, asked, behind),
    }
}

/// What comes of a script that is not too long.
#[tactic(auto, using(crate::proofs::Played::played_laws))]
fn restart_script<C: OwnerCheck>(
    alloc: Global,
    checks: Vec<C>,
    script: &[u8],
    asked: Restart,
) -> Result<Ended, AllocError>
    ensures { IfOk result
        (EndsScript (checks_told C.told C.answers checks.items) asked script.now) }
{
    let mut quiet = QuietSink::new();
    match play(alloc, checks, script, &mut quiet) {
        Ok(played) => restart_played(alloc, &played, asked, line_behind(script)),
        // No write to the sink failed.
        Err(_) => Err(AllocError),
    }
}

/// What comes of what is there of an input.
#[tactic(auto, using(crate::proofs::Played::input_laws))]
pub(crate) fn restart_read<C: OwnerCheck>(
    alloc: Global,
    checks: Vec<C>,
    input: Option<Vec<u8>>,
    asked: Restart,
) -> Result<Ended, AllocError>
    ensures { IfOk result (λ ended. (all : List ℕ) → IsInput input all
        → EndsInput (checks_told C.told C.answers checks.items) asked all ended) }
{
    match input {
        Some(script) => restart_script(alloc, checks, &script, asked),
        None => Ok(Ended {
            answer: refuse_long(alloc)?,
            disks: None,
        }),
    }
}
