//! The records of a file.

ghost use Rattle.std.specs.Prelude.{◌≡◌, ◌≢◌, ◌+◌, ◌<◌, ◌^◌, ◌++◌, ◌∷◌, None, false, ℕ, List, length, IfOk, IfSome, IsNone, IsTrue, OnOk, IsErrOf, drop};
ghost use Rattle.kept_journal.specs.Journal.{BeginsShut, record_in, record_text};
ghost use Rattle.kept_journal.specs.Loaded.{IsLoaded};
ghost use Rattle.kept_journal.specs.Replays.{IsBad};

use crate::standing::Standing;
use crate::{OpenFault, Replay, ReplayFault};
use ar_bytes::{Fields, are_bytes};
use std::alloc::Global;

/// How many bytes a mark has.
const MARK_LEN: usize = 8;

/// The gate of a record that counts.
const OPEN: u8 = 1;

/// How many bytes a record has beside its text: its gate, and the length of the text.
const RECORD_HEAD: usize = 5;

/// The record that stands at the front of these bytes, where it is whole: its text, and what stands behind it.
#[tactic(auto, unfolding(crate::specs::Journal::record_at))]
fn record_in<'a>(bytes: &'a [u8]) -> Option<(&'a [u8], &'a [u8])>
    ensures whole { IfSome result (λ r.
        (bytes.now ≡ record_text r.0.now ++ r.1.now) × (0 < length r.1.now)
        × (length r.0.now < 2 ^ 32)) }
    ensures none { IsNone result → record_in bytes.now ≡ None }
{
    are_bytes(bytes);
    let mut fields = Fields::new(bytes);
    let len = fields.u32()?;
    let text = fields.bytes(len as usize)?;
    if fields.at_end() {
        return None;
    }
    Some((text, fields.left()))
}

/// What stands behind the gate with which these bytes begin, where it is open.
fn behind_open<'a>(bytes: &'a [u8]) -> Option<&'a [u8]>
    requires { 0 < length bytes.now }
    ensures open_gate { IfSome result (λ behind. bytes.now ≡ OPEN ∷ behind.now) }
    ensures shut { IsNone result → BeginsShut bytes.now }
{
    match bytes {
        [gate, behind @ ..] => { if *gate == OPEN { Some(behind) } else { None } }
        [] => unreachable!(),
    }
}

/// Does a file begin with this mark?
pub(crate) fn begins(file: &[u8], mark: &[u8; 8]) -> bool
    ensures yes { IsTrue result → file.now ≡ mark.now ++ drop 8 file.now }
    ensures no { result ≡ false → (rest : List ℕ) → file.now ≢ mark.now ++ rest }
{
    file.starts_with(mark)
}

/// Has a party take the text of the record at this place again.
fn replay_at<P: Replay>(
    alloc: Global,
    text: &[u8],
    place: usize,
    party: &mut P,
) -> Result<(), OpenFault>
    ensures taken { OnOk result (P.takes party.old text.now party.new) }
    ensures bad { (at : ℕ) → IsErrOf result (OpenFault.BadRecord at)
        → (at ≡ place) × ((later : P) → ¬ P.takes party.old text.now later) }
    ensures other { ¬ IsErrOf result OpenFault.NotJournal × ¬ IsErrOf result OpenFault.DiskFault }
{
    match party.replay(alloc, text) {
        Ok(()) => Ok(()),
        Err(ReplayFault::Stuck) => Err(OpenFault::BadRecord(place as u64)),
        Err(ReplayFault::Memory) => Err(OpenFault::Memory),
    }
}

/// Has a party take the texts of a file again, which has more than 9 bytes and begins with this mark.
pub(crate) fn load<P: Replay>(
    alloc: Global,
    mark: &[u8; 8],
    file: &[u8],
    party: &mut P,
) -> Result<Standing, OpenFault>
    requires mark { file.now ≡ mark.now ++ drop 8 file.now }
    requires long { 9 < length file.now }
    ensures ok { IfOk result (λ standing.
        IsLoaded P.takes party.old party.new mark.now file.now standing) }
    ensures bad { (place : ℕ) → IsErrOf result (OpenFault.BadRecord place)
        → IsBad P.takes mark.now party.old file.now place }
    ensures other { ¬ IsErrOf result OpenFault.NotJournal × ¬ IsErrOf result OpenFault.DiskFault }
{
    let mut rest = &file[MARK_LEN..];
    let mut end = MARK_LEN;
    let mut count = 0;
    while let Some(ahead) = behind_open(rest) {
        let Some((text, behind)) = record_in(ahead) else {
            return Err(OpenFault::BadRecord(end as u64));
        };
        replay_at(alloc, text, end, party)?;
        rest = behind;
        end += text.len() + RECORD_HEAD;
        count += 1;
    }
    Ok(Standing {
        mark: *mark,
        end: end as u64,
        count,
    })
}
