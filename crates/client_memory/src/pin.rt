//! What is kept of a name, and of all names.

ghost use Rattle.std.specs.Prelude.{◌≡◌, ◌+◌, ◌++◌, find, length, nat_le, position, OnErr, OnOk, IfOk};
ghost use Rattle.std.specs.Option.{option_map};
ghost use Rattle.client_memory.specs.Book.{is_of, kept_count, last_behind, newest_of, with_links, without};

use ar_cert::{Cert, Change};
use ar_names::Name;
use std::alloc::{AllocError, Global};
use std::marker::Model;

/// A name with its changes, the oldest first.
#[derive(Debug, Drop)]
pub(crate) struct Pin {
    pub(crate) name: Name,
    pub(crate) chain: Vec<Change>,
}

// Clauses see both.
impl Model for Pin {
    ghost use Rattle.client_memory.specs.Book.{Pin as Spec};

    ghost Value = { Spec };

    ghost view = { λ p. record { name = p.name; chain = p.chain.items } };
}

/// Copies of all, in their order. The only error is want of memory.
pub(crate) fn copy_changes(alloc: Global, changes: &[Change]) -> Result<Vec<Change>, AllocError>
    ensures { IfOk result (λ copies. copies.items ≡ changes.now) }
{
    let mut copies = Vec::with_capacity(alloc, changes.len())?;
    for change in changes {
        copies.push(change.copy(alloc)?)?;
    }
    Ok(copies)
}

/// Whether a pin is of this name.
pub(crate) fn is_of(pin: &Pin, name: &[u8]) -> bool
    ensures { result ≡ is_of name.now pin.now }
{
    pin.name.text() == name
}

/// The pin of a name.
pub(crate) fn pin_of<'a>(pins: &'a [Pin], name: &[u8]) -> Option<&'a Pin>
    ensures { option_map (λ pin. pin.now) result ≡ find (is_of name.now) pins.now }
{
    pins.iter().find(|pin| is_of(pin, name))
}

/// The certificate of the last of these changes, or this one where there is none.
fn last_behind<'a>(cert: &'a Cert, changes: &'a [Change]) -> &'a Cert
    ensures { result.now ≡ last_behind cert.now changes.now }
{
    match changes {
        [] => cert,
        [change, rest @ ..] => last_behind(&change.cert, rest),
    }
}

/// The newest certificate of a list of changes.
pub(crate) fn newest_of(chain: &[Change]) -> Option<&Cert>
    ensures { option_map (λ cert. cert.now) result ≡ newest_of chain.now }
{
    match chain {
        [] => None,
        [change, rest @ ..] => Some(last_behind(&change.cert, rest)),
    }
}

/// Whether no more changes are kept than there is room for, with so many more.
pub(crate) fn has_room(pins: &[Pin], room: usize, more: usize) -> bool
    ensures { result ≡ nat_le (kept_count pins.now + more) room }
{
    match pins {
        [] => more <= room,
        [pin, rest @ ..] => {
            pin.chain.len() <= room && has_room(rest, room - pin.chain.len(), more)
        }
    }
}

/// Takes the pins of a name out.
pub(crate) fn strike(pins: &mut Vec<Pin>, name: &[u8])
    ensures { pins.new.items ≡ without pins.old.items name.now }
{
    pins.retain(|pin| !is_of(pin, name));
}

impl Pin {
    /// Puts copies of these behind the changes. The only error is want of memory.
    fn extend(&mut self, alloc: Global, links: &[Change]) -> Result<(), AllocError>
        ensures ok { OnOk result
            (self.new ≡ record { name = self.old.name; chain = self.old.chain ++ links.now }) }
        ensures err { OnErr result (self.new ≡ self.old) }
    {
        let mut copies = copy_changes(alloc, links)?;
        self.chain.append(&mut copies)
    }
}

/// The place of the pin of a name.
fn place_of(pins: &[Pin], name: &[u8]) -> Option<usize>
    ensures { result ≡ position (is_of name.now) pins.now }
{
    pins.iter().position(|pin| is_of(pin, name))
}

/// Puts copies of these behind the changes of a name. The only error is want of memory.
#[tactic(auto, using(crate::proofs::Placed::placed_links))]
pub(crate) fn extend(
    alloc: Global,
    pins: &mut [Pin],
    name: &[u8],
    links: &[Change],
) -> Result<(), AllocError>
    ensures ok { OnOk result (pins.new ≡ with_links pins.old name.now links.now) }
    ensures err { OnErr result (pins.new ≡ pins.old) }
{
    let Some(place) = place_of(pins, name) else {
        return Ok(());
    };
    pins[place].extend(alloc, links)
}
