//! A party that restarts, whichever it is: it has what it was asked in a journal before its reply leaves, and is opened again as
//! what stands there makes of it.
//!
//! `Keeper` is what a party has to show: how it does what it is asked, in which words its journal keeps that, and how it takes
//! such a text again. `KeptParty` is a party with its journal (`kept_journal`) on a disk (`kept_disk`). When it is opened it
//! gives the reply to the last text of its file too: a process that was killed may not have sent it, and sends it then.
//!
//! `specs/Taking.antt` says what texts make of a party, `specs/Recalled.antt` what a text makes of one that remembers
//! its last reply, `specs/Lives.antt` what it means that something is kept over many runs, and `specs/Parts.antt` what
//! contracts see of a party with its journal.
//!
//! Its tests: `examples/party`, `tools/fail-each-call` and `tools/network`.
#![tactic(auto)]

pub use done::Done;
pub use fault::KeptFault;
pub use keeper::Keeper;
pub use kept_journal::{KeptText, OpenFault, ReplayFault};
pub use kept_party::KeptParty;

mod done;
mod fault;
mod keeper;
mod kept_party;
pub mod laws;
mod recalling;
