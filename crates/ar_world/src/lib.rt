//! A world: all parties, the pool of messages, and what a line of a script makes of them.
//!
//! `World::step` takes a line, and answers what happens; `World::next_due` and `World::deliver` are the deliveries of a
//! `flush`. All memory of a step is taken before its first change, so that a line which is refused changes nothing.
//! `World::part` takes the logs and authorities out of the world, so that they can take messages side by side; `World::join`
//! puts them back, and `World::settle` makes the world what it is behind a delivery to which its party has replied already.
//!
//! The parties and the pool, with their steps, are those of `ar_nodes`, and the first logs and authorities those of
//! `ar_founding`. `specs/State.antt` has the world between two lines, as plain data.
//! Each group of lines has a file of its own, with what a line makes of the world, what is printed of it, and why it is
//! refused, in the order of the reasons: the setup (`Founding`), owners and what authorities know of them (`Owning`),
//! drafts (`Drafting`) and what becomes of them (`Submitting`), orders to logs and authorities (`Ordering`), messages
//! that clients learn (`Learning`), ask for (`Asking`) and judge (`Judging`), deliveries (`Delivering`), and what
//! dishonest parties send (`Forging`). What a party makes of an order, a draft or a delivery is told by `ar_nodes` (its
//! `Acting`), and `Sending` puts the party and the pool into their places in the world. `Step` has the step of each line,
//! and `Run` a whole script with all that is written of it. `Settling` has parties apart from their world, and what becomes
//! of it where they have replied.
//! `Records` has what the honest parties and the clients of a world hold, of which the safety theorem speaks. `Finding` says
//! what the words of a line name, `Kept` what the program keeps beside what its lines speak of, `Printed` what the printed
//! lines tell of the pool, and `Examples` has small scripts with all that is written of them.
//!
//! Its tests: `examples/play`, `examples/messages.txt` and `examples/premises.txt`.
#![tactic(auto)]

mod asking;
mod cause;
mod delivering;
mod drafted;
mod drafting;
mod finding;
mod forging;
mod founding;
mod judging;
pub mod laws;
mod learning;
mod named;
mod order;
mod ordering;
mod owning;
mod parties;
mod phase;
mod records;
mod step;
mod submitting;
mod world;

pub use ar_nodes::{LogEvent, MOST_MESSAGES, Reply, WorldFault};
pub use ar_records::{Judged, Records};
pub use cause::Cause;
pub use parties::Parties;
pub use phase::Phase;
pub use world::World;
