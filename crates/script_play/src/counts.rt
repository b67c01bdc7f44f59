ghost use Rattle.std.specs.Prelude.{◌≡◌};
ghost use Rattle.script_play.specs.Counts.{no_counts, with_happening, with_said};

use report_text::{Happening, Said};

/// How many judgements of clients a script has, by what the clients say. Each count stays at 2^64 - 1 once it is there.
#[derive(Clone, Copy, Debug, PartialEq, Eq)]
pub struct Counts {
    /// How many accept a certificate.
    pub accepted: u64,
    /// How many hold that the name has none.
    pub absent: u64,
    /// How many refuse.
    pub refused: u64,
}

impl Counts {
    /// No judgement.
    pub(crate) fn none() -> Counts
        ensures { result ≡ no_counts }
    {
        Counts {
            accepted: 0,
            absent: 0,
            refused: 0,
        }
    }

    /// Counts one judgement more.
    fn count_said(&mut self, said: &Said)
        ensures { self.new ≡ with_said self.old said.now }
    {
        match said {
            Said::Accepted { .. } => self.accepted = self.accepted.saturating_add(1),
            Said::Absent { .. } => self.absent = self.absent.saturating_add(1),
            Said::Refused(_) => self.refused = self.refused.saturating_add(1),
        }
    }

    /// Counts what happens, where it is a judgement.
    pub(crate) fn count(&mut self, happening: &Happening)
        ensures { self.new ≡ with_happening self.old happening.now }
    {
        if let Happening::Judged { said, .. } = happening {
            self.count_said(said);
        }
    }
}
