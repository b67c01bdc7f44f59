ghost use Rattle.std.specs.Prelude.{◌≡◌, List, ℕ, Ok, Err, OnOk, IfErr, IfOk};
ghost use Rattle.ar_bytes.specs.Reading.{Tells};
ghost use Rattle.ar_bytes.specs.Ascending.{numbers_at};
ghost use Rattle.ar_cert.specs.Lists.{numbers_in, SpellsNumbers};
ghost use Rattle.ar_cert.specs.Certificate.{certified_key_at, trusted_at, version_at, wait_at};

use ar_bytes::{Fields, are_bytes};
use lms_tree::LmsPublic;

/// The bytes of a key.
const KEY_LEN: usize = 56;
/// The most trusted authorities.
const MOST_TRUSTED: u8 = 16;
/// The longest wait, in epochs.
const LONGEST_WAIT: u16 = 10_000;

/// The version of a policy, 1 or 2: whether it has a wait.
#[tactic(auto, unfolding(crate::specs::Certificate::version_at, ar_bytes::specs::Reading::such_that))]
pub(crate) fn version(fields: &mut Fields) -> Result<bool, usize>
    ensures { Tells (λ waits. waits) result fields.new (version_at fields.old) }
{
    let place = fields.place();
    match fields.take_u8()? {
        1 => Ok(false),
        2 => Ok(true),
        _ => Err(place),
    }
}

/// The wait, where there is one.
#[tactic(auto, unfolding(crate::specs::Certificate::wait_at, ar_bytes::specs::Reading::such_that))]
pub(crate) fn wait(fields: &mut Fields, waits: bool) -> Result<Option<u16>, usize>
    ensures { Tells (λ wait. wait) result fields.new (wait_at waits fields.old) }
{
    if !waits {
        return Ok(None);
    }
    let place = fields.place();
    let wait = fields.take_u16()?;
    if wait == 0 || wait > LONGEST_WAIT {
        return Err(place);
    }
    Ok(Some(wait))
}

/// Reads an LMS public key, which has to be one that can be read; else it gives the place of its first byte.
#[tactic(auto, unfolding(crate::specs::Certificate::certified_key_at))]
pub fn take_key(fields: &mut Fields) -> Result<LmsPublic, usize>
    ensures { Tells (λ key. key) result fields.new (certified_key_at fields.old) }
{
    let place = fields.place();
    let bytes = fields.take_bytes(KEY_LEN)?;
    let key = LmsPublic::read(bytes).ok_or(place)?;
    Ok(key)
}

/// So many numbers of two bytes that ascend strictly: nothing, or the place of the first that fails.
#[tactic(auto, using(ar_bytes::proofs::Ascending::list_steps))]
fn check_ascending(fields: &mut Fields, count: usize) -> Result<(), usize>
    ensures ok { OnOk result ((ns : List ℕ)
        × (numbers_at count 0 fields.old ≡ Ok (ns, fields.new))) }
    ensures fault { IfErr result (λ place. numbers_at count 0 fields.old ≡ Err place) }
{
    let mut least = 0;
    for _ in 0..count {
        let n = fields.take_number_from(least)?;
        least = n as u32 + 1;
    }
    Ok(())
}

/// So many numbers of two bytes that ascend strictly, as they stand.
fn numbers<'a>(fields: &mut Fields<'a>, count: u8) -> Result<&'a [u8], usize>
    ensures tells { Tells (λ bytes.
        numbers_in bytes.now) result fields.new (numbers_at count 0 fields.old) }
    ensures numbers { IfOk result (λ bytes. SpellsNumbers bytes.now) }
{
    let left = fields.left();
    are_bytes(left);
    check_ascending(fields, count as usize)?;
    Ok(&left[..2 * count as usize])
}

/// At most 16 numbers of authorities that ascend strictly, behind their count.
#[tactic(auto, unfolding(ar_bytes::specs::Lists::counted_list_at))]
pub(crate) fn trusted<'a>(fields: &mut Fields<'a>) -> Result<&'a [u8], usize>
    ensures tells { Tells (λ bytes.
        numbers_in bytes.now) result fields.new (trusted_at fields.old) }
    ensures numbers { IfOk result (λ bytes. SpellsNumbers bytes.now) }
{
    let count = fields.take_count(MOST_TRUSTED)?;
    numbers(fields, count)
}
