//! Laws on scripts with bursts, over the definitions alone: each is the contract of a function with an empty body.
ghost use Rattle.std.specs.Prelude.{◌≡◌, ℕ, List, false};
ghost use Rattle.std.specs.List.{AllByRecursion};
ghost use Rattle.ar_lines.specs.Lines.{lines_of};
ghost use Rattle.script_play.specs.ar_nodes.Parties.{CheckParts};
ghost use Rattle.script_play.specs.ar_world.Run.{Saying, run};
ghost use Rattle.script_text.specs.Rows.{read_of};
ghost use Rattle.crowd_run.specs.Scripts.{InputWays, crowd_with, is_burst};

/// A script in which no line is read as `burst` is played, by any number of workers, as `play` plays it.
#[tactic(auto, using(crate::proofs::Plain::plain_run))]
pub fn a_script_without_bursts_is_played()
    ensures { (workers : ℕ) (checks : List CheckParts) (input : List ℕ)
        (ways : InputWays workers checks input)
        → AllByRecursion (λ text. is_burst (read_of text) ≡ false) (lines_of input)
        → (saying : Saying) × (crowd_with workers checks input ways ≡ run saying checks input) }
{}
