//! The safety theorem of a network of processes: any set of parties whose journals each replay, whatever their histories, has
//! the records of which the theorem of `ar_safety` speaks. So with at most two dishonest parties, where no signature that is
//! valid under an honest party's own key stands in a message but on what that party signed by its journal, and no hashes
//! collide, a client accepts only what honest parties agree on.
//!
//! In `specs/`, `Network` has what is told of a network, and what it holds; `Unforged` the premise on forgery, of keys and bytes,
//! and what follows of what is known; `Lasting` what a party sent in some life of its file; `Going` how a network begins and
//! goes on; `Examples` a small one. `laws` has what is promised. Nothing is asked of the order in which parties did what they
//! did, of what carries their messages, or of when they crashed and were opened again.
//!
//! It has laws alone, and no tests.
#![tactic(auto)]

pub mod laws;
