ghost use Rattle.std.specs.Prelude.{◌≡◌};
ghost use Rattle.run_restart.specs.Asking.{restart_of};

use ar_lines::number_in;

/// What `restart` is asked: which log restarts, and where its first run ends.
#[derive(Clone, Copy, Debug, PartialEq, Eq)]
pub struct Restart {
    /// The number of the log.
    pub log: u16,
    /// How many calls of the first disk pass, behind the opening of the log.
    pub calls: u64,
}

impl Restart {
    /// What the two words behind `restart` say: a log from 0 to 15, and up to 1,000,000 calls.
    #[tactic(auto, unfolding(ar_lines::specs::Forms::number_in))]
    pub fn of(log: &[u8], calls: &[u8]) -> Option<Restart>
        ensures { result ≡ restart_of log.now calls.now }
    {
        let log = number_in(0, 15, log)?;
        let calls = number_in(0, 1_000_000, calls)?;
        Some(Restart {
            log: log as u16,
            calls,
        })
    }
}
