ghost use Rattle.std.specs.Prelude.{Some};
ghost use Rattle.ar_world.specs.Run.{cause_text};

use ar_lines::Reason;
use ar_nodes::WorldFault;
use std::fmt;

/// Why a line of a script is refused.
#[derive(Clone, Copy, Debug, PartialEq, Eq)]
pub enum Cause {
    /// It cannot be read.
    Unread(Reason),
    /// The world does not take it.
    Untaken(WorldFault),
}

impl fmt::Display for Cause {
    ghost output = { λ cause. Some (cause_text cause) };

    fn fmt<W: fmt::Write>(&self, f: &mut fmt::Formatter<W>) -> fmt::Result {
        match self {
            Cause::Unread(reason) => write!(f, "{reason}"),
            Cause::Untaken(WorldFault::Order) => write!(f, "order"),
            Cause::Untaken(WorldFault::Absent(word)) => write!(f, "none {word}"),
            Cause::Untaken(WorldFault::Limit) => write!(f, "limit"),
            Cause::Untaken(WorldFault::Memory) => Ok(()),
        }
    }
}
