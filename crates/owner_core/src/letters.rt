ghost use Rattle.std.specs.Prelude.{◌≡◌, ◌<◌, [], ◌∷◌, map, vec_len, vec_capacity, IfOk};
ghost use Rattle.ar_message.specs.declared.address.Address.TheVariants.{Logs, One};
ghost use Rattle.ar_message.specs.declared.message.Message.TheVariants.{EndorseAsk};
ghost use Rattle.ar_statement.specs.Claims.{authority_party};
ghost use Rattle.owner_core.specs.Rows.{letter, sent, submission};

use ar_base::Items;
use ar_cert::{Cert, ChangeParts};
use ar_message::{Address, Outgoing, Sent, endorse_ask_text, submit_text};
use ar_statement::Role;
use std::alloc::{AllocError, Global};

/// A text to an authority.
fn to_authority(alloc: Global, authority: u16, text: &[u8]) -> Result<Outgoing, AllocError>
    ensures { IfOk result (λ out.
        out ≡ record { to = One (authority_party authority); bytes = text.now }) }
{
    let to = Address::One(Role::Authority.party(authority));
    Ok(Outgoing::new(to, Vec::from_slice(alloc, text)?))
}

/// One text to each of these authorities, in their order.
fn to_each(alloc: Global, authorities: &[u16], text: &[u8]) -> Result<Vec<Outgoing>, AllocError>
    ensures { IfOk result (λ list. list.items
        ≡ map (λ authority. record {
          to = One (authority_party authority);
          bytes = text.now;
        }) authorities.now) }
{
    let mut list = Vec::with_capacity(alloc, authorities.len())?;
    for authority in authorities {
        list.push(to_authority(alloc, *authority, text)?)?;
    }
    Ok(list)
}

/// An owner's request to endorse a certificate, to each of these authorities.
pub(crate) fn asking(
    alloc: Global,
    owner: u16,
    cert: &Cert,
    asks: &[u16],
) -> Result<Sent, AllocError>
    ensures { IfOk result (λ s. s
        ≡ sent (map (λ authority.
        letter (One (authority_party authority))
        (EndorseAsk owner cert.now)) asks.now)) }
{
    let text = endorse_ask_text(alloc, owner, cert)?;
    Ok(Sent {
        messages: Items::from_vec(to_each(alloc, asks, &text)?),
        ended: None,
    })
}

/// Room for one message.
pub(crate) fn room(alloc: Global) -> Result<Vec<Outgoing>, AllocError>
    ensures empty { IfOk result (λ list. list.items ≡ []) }
    ensures room { IfOk result (λ list. vec_len list < vec_capacity list) }
{
    let list = Vec::with_capacity(alloc, 1)?;
    Ok(list)
}

/// A text to all logs, in the room for one message.
pub(crate) fn to_logs(room: Vec<Outgoing>, text: Vec<u8>) -> Sent
    requires empty { room.items ≡ [] }
    requires room { vec_len room < vec_capacity room }
    ensures { result ≡ sent (record { to = Logs; bytes = text.items } ∷ []) }
{
    let mut messages = room;
    messages.push_reserved(Outgoing::new(Address::Logs, text));
    Sent {
        messages: Items::from_vec(messages),
        ended: None,
    }
}

/// A change goes to all logs.
pub(crate) fn submission(alloc: Global, change: &ChangeParts) -> Result<Sent, AllocError>
    ensures { IfOk result (λ s. s ≡ submission change.now) }
{
    let text = submit_text(alloc, change)?;
    let room = room(alloc)?;
    Ok(to_logs(room, text))
}
