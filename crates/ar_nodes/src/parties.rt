//! The parties of a world.

use crate::event::LogEvent;
use ar_statement::Party;
use authority_core::Authority;
use lms_tree::LmsKey;
use log_core::Log;
use owner_check::OwnerCheck;
use std::marker::Model;

/// An honest log, and what it did without refusing, in order.
#[derive(Drop)]
pub struct HonestLog {
    /// The log itself, with its keys.
    pub log: Log,
    /// What it did.
    pub taken: Vec<LogEvent>,
}

// Clauses see where the log stands, its keys, and what it did. It has a key.
impl Model for HonestLog {
    ghost use Rattle.std.specs.Prelude.{◌<◌, length};
    ghost use Rattle.ar_nodes.specs.Parties.{LogNode};

    ghost Value = { LogNode };

    ghost view = { λ l. record {
      core = l.log.core;
      keys = l.log.ring.keys;
      taken = l.taken.items;
    } };

    ghost invariant = { λ l. 0 < length l.log.ring.keys };
}

/// An honest authority.
#[derive(Drop)]
pub struct HonestAuthority<C: OwnerCheck> {
    /// The authority itself, with its keys and its check, until it retires.
    pub authority: Authority<C>,
}

// Clauses see where the authority stands, its keys, and what its check tells and has answered. It has a key.
impl<C: OwnerCheck> Model for HonestAuthority<C> {
    ghost use Rattle.std.specs.Prelude.{◌<◌, length};
    ghost use Rattle.std.specs.Option.{option_map};
    ghost use Rattle.ar_nodes.specs.Parties.{AuthorityNode, check_told};

    ghost Value = { AuthorityNode };

    ghost view = { λ a. record {
      state = a.authority.core.state;
      keys = a.authority.ring.keys;
      check = option_map (check_told C.told C.answers) a.authority.core.check;
    } };

    ghost invariant = { λ a. 0 < length a.authority.ring.keys };
}

/// A dishonest log or authority.
#[derive(Drop)]
pub struct Forger {
    /// The party.
    pub party: Party,
    /// Its key of generation 0.
    pub key: LmsKey,
    /// The leaf by which it signs next.
    pub next: u32,
}

// Clauses see the party, its key and the leaf.
impl Model for Forger {
    ghost use Rattle.ar_nodes.specs.Parties.{Forger as Parts};

    ghost Value = { Parts };

    ghost view = { λ f. record { party = f.party; key = f.key; next = f.next } };
}
