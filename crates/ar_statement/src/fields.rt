//! Readers of the fields that statements, certificates and messages share. Each answers the field's
//! value, or the place of the fault: the offset of the first byte of the field that fails, in the
//! whole input of `fields`. After a fault the reader is of no further use.

ghost use Rattle.std.specs.Prelude.{◌≡◌};
ghost use Rattle.ar_bytes.specs.Joined.{optional_at};
ghost use Rattle.ar_bytes.specs.Reading.{Tells};
ghost use Rattle.ar_statement.specs.Fields.{digest_at, epoch_at, is_epoch, name_at};
ghost use Rattle.ar_statement.specs.Texts.{role_at, value_at};

use crate::party::Role;
use ar_bytes::Fields;
use ar_names::NameView;
use vote_quorum::Value;

/// The last epoch. The first is 1.
pub const LAST_EPOCH: u64 = 1 << 63;

/// Whether a number is an epoch's, from 1 to 2^63.
pub(crate) fn is_epoch(epoch: u64) -> bool
    ensures { result ≡ is_epoch epoch }
{
    1 <= epoch && epoch <= LAST_EPOCH
}

/// A digest, 32 bytes.
pub fn digest(fields: &mut Fields) -> Result<[u8; 32], usize>
    ensures { Tells (λ digest. digest) result fields.new (digest_at fields.old) }
{
    fields.take_array()
}

/// An epoch in eight bytes, from 1 to 2^63.
#[tactic(auto, unfolding(crate::specs::Fields::epoch_at, ar_bytes::specs::Reading::such_that))]
pub fn epoch(fields: &mut Fields) -> Result<u64, usize>
    ensures { Tells (λ epoch. epoch) result fields.new (epoch_at fields.old) }
{
    let place = fields.place();
    let epoch = fields.take_u64()?;
    if !is_epoch(epoch) {
        return Err(place);
    }
    Ok(epoch)
}

/// A length in one byte, from 1 to 253, and a name of so many bytes.
#[tactic(auto, unfolding(crate::specs::Fields::name_at, ar_bytes::specs::Reading::such_that))]
pub fn name<'a>(fields: &mut Fields<'a>) -> Result<NameView<'a>, usize>
    ensures { Tells (λ name. name) result fields.new (name_at fields.old) }
{
    let place = fields.place();
    let len = fields.take_u8()?;
    if len == 0 || len > 253 {
        return Err(place);
    }
    let place = fields.place();
    let text = fields.take_bytes(len as usize)?;
    NameView::of(text).ok_or(place)
}

/// The number of a role in one byte, from 1 to 4.
#[tactic(auto, unfolding(crate::specs::Texts::role_at))]
pub fn role(fields: &mut Fields) -> Result<Role, usize>
    ensures { Tells (λ role. role) result fields.new (role_at fields.old) }
{
    let place = fields.place();
    let number = fields.take_u8()?;
    Role::with_number(number).ok_or(place)
}

/// A base and a root, two digests.
#[tactic(auto, unfolding(crate::specs::Texts::value_at))]
pub fn value(fields: &mut Fields) -> Result<Value, usize>
    ensures { Tells (λ value. value) result fields.new (value_at fields.old) }
{
    let base = digest(fields)?;
    let root = digest(fields)?;
    Ok(Value { base, root })
}

/// A flag in one byte, 0 for no and 1 for yes, and for 1 a base and a root.
#[tactic(auto, unfolding(ar_bytes::specs::Joined::optional_at))]
pub fn optional_value(fields: &mut Fields) -> Result<Option<Value>, usize>
    ensures { Tells (λ value. value) result fields.new (optional_at value_at fields.old) }
{
    if !fields.take_flag()? {
        return Ok(None);
    }
    let value = value(fields)?;
    Ok(Some(value))
}
