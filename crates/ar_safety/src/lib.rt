//! What honest logs and authorities agree on, and that what clients accepted is agreed, with at most two dishonest parties,
//! whatever messages came. It is said of the parties' records, over the definitions alone.
//!
//! `specs/Theorem.antt` has the premises and what then holds, over the records of `specs/Records.antt`, the strings of
//! `specs/Hashed.antt` and the words of `specs/Agreed.antt`. `specs/Accepting.antt` has the other direction: when an honest
//! confirmation is accepted. `laws` has both.
//!
//! `specs/Held.antt` has the same records as the nodes of a run hold them. `specs/Examples.antt` and
//! `specs/RegisteredRun.antt` have small runs, in which the premises are met, or one alone is not.
//!
//! It has laws alone, and no tests; `arpki`, module `records`, shows records of a run.
#![tactic(auto)]

pub mod laws;
