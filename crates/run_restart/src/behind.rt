ghost use Rattle.std.specs.Prelude.{◌≡◌};
ghost use Rattle.run_restart.specs.Answers.{line_behind};

use ar_lines::Lines;

/// The number of the line behind the last of an input.
pub(crate) fn line_behind(input: &[u8]) -> u64
    ensures { result ≡ line_behind input.now }
{
    let mut lines = Lines::new(input);
    loop {
        if let Err(refusal) = lines.line() {
            return refusal.line;
        }
    }
}
