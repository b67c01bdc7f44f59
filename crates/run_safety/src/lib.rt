//! The safety theorem of a run: with at most two dishonest parties, where no signature that is valid under an honest
//! party's own key stands in a message but on what that party signed, and no hashes collide, a client of a script accepts
//! only what honest parties agree on, whatever messages are made, lost, repeated, reordered or injected in it.
//!
//! `specs/Headline.antt` has what is promised of a run. `specs/Own.antt` and `specs/Unforged.antt` have its premise on
//! forged signatures, of keys and bytes, and what follows of what is known; `specs/Kept.antt` what is kept of nodes,
//! messages and the clients' directory, `specs/Lasting.antt` what lasts. `specs/Seats.antt` has what each line of a script
//! keeps, by which the records that the parties of a world hold are those of which the theorem of `ar_safety` speaks.
//! `specs/Flushes.antt` has what is promised of a `flush`: that it goes to its end; `specs/Passing.antt` the worlds through
//! which a run goes, and `specs/Confirmed.antt` what an honest authority confirms in one of them. `laws` has all of it, over
//! the definitions of `ar_world` alone. `specs/Lib.antt` and `proofs/Lib.antt` pass on the definitions and lemmas of worlds to
//! the crates above.
//!
//! It has laws alone, and no tests; `arpki`, module `records`, shows records of a run.
#![tactic(auto)]

pub mod laws;
