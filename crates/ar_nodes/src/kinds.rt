//! What the pool says of a message that a party sends.

ghost use Rattle.std.specs.Prelude.{◌≡◌, slice_index};
ghost use Rattle.ar_nodes.specs.Pool.{kind_with, target_of};

use ar_message::Address;
use report_text::{Kind, Target};

/// The kind of which messages begin with this byte; with any other than these, they are of none.
pub(crate) fn kind_with(number: u8) -> Kind
    ensures { result ≡ kind_with number }
{
    match number {
        1 => Kind::EndorseAsk,
        2 => Kind::Endorsed,
        3 => Kind::Submit,
        4 => Kind::Propose,
        5 => Kind::Ballot,
        6 => Kind::StatusNote,
        7 => Kind::Decision,
        8 => Kind::SkipNote,
        9 => Kind::ConfirmAsk,
        10 => Kind::LogConfirmed,
        11 => Kind::HalfConfirmed,
        12 => Kind::Confirmation,
        13 => Kind::RollNote,
        _ => Kind::Raw,
    }
}

/// The kind of a message that a party sends.
pub(crate) fn kind_of(bytes: &[u8]) -> Kind
    ensures { result ≡ kind_with (slice_index bytes.now 0) }
{
    match bytes.first() {
        Some(number) => kind_with(*number),
        None => Kind::Raw,
    }
}

/// To whom a message goes that a party sends.
pub(crate) fn target_of(to: Address) -> Target
    ensures { result ≡ target_of to }
{
    match to {
        Address::Logs => Target::Logs,
        Address::One(party) => Target::One(party),
    }
}
