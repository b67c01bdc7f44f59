//! What a line asks of a party that is a process, and what is written of its reply.
//!
//! `LineParty` is a party to which lines come: a log, an authority or an owner that is kept (`log_keeper`, `authority_keeper`,
//! `owner_keeper`). A line is a message in hex, or an order in the words of a script (`script_text`), with the party's own word; and
//! what a script says by the number of a party or draft that a process does not have stands there itself: the key of an owner in
//! `teach` and `forget`, a certificate behind `draft`, a handover behind `attach`. The lines `allow`, `disallow`, `staple` and `leaves`
//! of an owner are those of no script.
//!
//! What is written of a reply is a line `send <party> <hex>` for each message, a line `handed <digest> <hex>` for a handover, a line
//! `stapled <digest> <epoch> <64 hex> <hex>` for a staple, and then what `arpki play` prints of the step, but for its messages. The last
//! line of an answer is that of the step.
//!
//! In `specs/`, `Asking` says what a line asks of each party, `Owners` what it asks of an owner and what is written of an owner's
//! reply, and `Telling` what is written; `Written` has the lines of lessons, which `laws` says are read as they are written.
//!
//! Its tests: `examples/party` and the stored run of `arpki_party`, and `tools/network`.
#![tactic(auto)]

pub use line_party::LineParty;
pub use unread::{Cause, Unread};
pub use writing::put_line_refused;

mod authority_desk;
mod drafting;
mod forms;
pub mod laws;
mod line_party;
mod log_desk;
mod naming;
mod owner_desk;
mod reading;
mod staple_desk;
mod unread;
mod writing;
