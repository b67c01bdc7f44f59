//! A list whose items are found without a search: where the first one stands that is what is sought.
//!
//! Beside the items stands a map from prints to places: a print is a number that what is sought shares with each item that
//! is the same, and the map has the first place of each. What has no print there is in no place. Where the item at the
//! print's place is not the same, since two prints met, the list is searched from there on. So the place is exact
//! whatever the prints are, and a digest that is a good print makes it fast: no contract speaks of hashes, and none has a
//! premise on them.
//!
//! A type says by `Printed` what is sought, when an item is the same, and what the prints are. `print_of` makes a print of a
//! text. An item is only added, and stands at its place from then on.
//!
//! `specs/Kept.antt` says what contracts see of a list, `specs/Index.antt` what the map is, `specs/Print.antt` what the
//! print of a text is.
//!
//! No crate stands on it yet, and no test runs it.
#![tactic(auto)]

pub use list::OnceList;
pub use print::print_of;
pub use printed::Printed;

mod list;
mod places;
mod print;
mod printed;
