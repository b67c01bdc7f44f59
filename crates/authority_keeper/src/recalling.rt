//! An authority takes what its journal has of it again. After an error nothing is said of it.

ghost use Rattle.std.specs.Prelude.{◌≡◌, ◌≢◌, false, IfOk, IsErrOf, IsTrue};
ghost use Rattle.authority_keeper.specs.Checks.{HasLetGo};
ghost use Rattle.authority_keeper.specs.Inputs.{retires, rolls, takes};
ghost use Rattle.authority_keeper.specs.Keeping.{AuthorityStanding, Steps, standing_of};
ghost use Rattle.authority_keeper.specs.Said.{lesson_input};
ghost use Rattle.key_roll.specs.Ring.{IsNewest};

use crate::steps::{BookedAuthority, answer_by_book, instruct};
use crate::text::Lesson;
use ar_message::Sent;
use authority_core::AuthorityRefusal;
use kept_party::ReplayFault;
use lms_tree::LmsPublic;
use std::alloc::Global;

/// Why an authority does not take an input again.
fn fault_of(refusal: AuthorityRefusal) -> ReplayFault
    ensures { result ≡ ReplayFault.Stuck → refusal ≢ AuthorityRefusal.Memory }
{
    match refusal {
        AuthorityRefusal::Memory => ReplayFault::Memory,
        _ => ReplayFault::Stuck,
    }
}

/// Takes a message again.
pub(crate) fn take_again(
    alloc: Global,
    authority: &mut BookedAuthority,
    bytes: &[u8],
) -> Result<Sent, ReplayFault>
    ensures taken { IfOk result (λ sent. Steps (standing_of authority.old) (takes bytes.now) sent
        (standing_of authority.new)) }
    ensures stuck { IsErrOf result ReplayFault.Stuck → (sent : Sent) (later : AuthorityStanding)
        → ¬ Steps (standing_of authority.old) (takes bytes.now) sent later }
    ensures gone { HasLetGo authority.old.core.check → HasLetGo authority.new.core.check }
{
    match answer_by_book(alloc, authority, bytes) {
        Ok(sent) => Ok(sent),
        Err(refusal) => Err(fault_of(refusal)),
    }
}

/// Is the newest key of an authority this one?
fn is_newest(authority: &BookedAuthority, key: &LmsPublic) -> bool
    ensures yes { IsTrue result → IsNewest authority.now.ring.keys key.now }
    ensures no { result ≡ false → ¬ IsNewest authority.now.ring.keys key.now }
{
    authority.newest_key() == *key
}

/// Tells a proof that an authority has a newest key. It does nothing.
fn newest_told(authority: &BookedAuthority)
    ensures { (key : LmsPublic) × IsNewest authority.now.ring.keys key }
{
    let _key = authority.newest_key();
}

/// Goes on to its next key again, which is to be this one.
pub(crate) fn roll_again(
    alloc: Global,
    authority: &mut BookedAuthority,
    key: &LmsPublic,
) -> Result<Sent, ReplayFault>
    ensures taken { IfOk result (λ sent. Steps (standing_of authority.old) (rolls key.now) sent
        (standing_of authority.new)) }
    ensures stuck { IsErrOf result ReplayFault.Stuck → (sent : Sent) (later : AuthorityStanding)
        → ¬ Steps (standing_of authority.old) (rolls key.now) sent later }
    ensures gone { HasLetGo authority.old.core.check → HasLetGo authority.new.core.check }
{
    newest_told(authority);
    match authority.roll(alloc) {
        Ok(sent) => {
            if is_newest(authority, key) {
                Ok(sent)
            } else {
                Err(ReplayFault::Stuck)
            }
        }
        Err(refusal) => Err(fault_of(refusal)),
    }
}

/// Its check takes a lesson again.
pub(crate) fn instruct_again(
    alloc: Global,
    authority: &mut BookedAuthority,
    lesson: Lesson,
    name: &[u8],
    key: &[u8; 56],
) -> Result<Sent, ReplayFault>
    ensures taken { IfOk result (λ sent. Steps (standing_of authority.old)
        (lesson_input lesson name.now key.now) sent (standing_of authority.new)) }
    ensures stuck { IsErrOf result ReplayFault.Stuck → (sent : Sent) (later : AuthorityStanding)
        → ¬ Steps (standing_of authority.old) (lesson_input lesson name.now key.now) sent later }
    ensures gone { HasLetGo authority.old.core.check → HasLetGo authority.new.core.check }
{
    if authority.core.retired() {
        return Err(ReplayFault::Stuck);
    }
    instruct(alloc, authority, lesson, name, key)?;
    Ok(Sent::nothing(alloc))
}

/// Drops its check again.
pub(crate) fn retire_again(
    alloc: Global,
    authority: &mut BookedAuthority,
) -> Result<Sent, ReplayFault>
    ensures taken { IfOk result (λ sent. Steps (standing_of authority.old) retires sent
        (standing_of authority.new)) }
    ensures stuck { IsErrOf result ReplayFault.Stuck → (sent : Sent) (later : AuthorityStanding)
        → ¬ Steps (standing_of authority.old) retires sent later }
    ensures gone { HasLetGo authority.old.core.check → HasLetGo authority.new.core.check }
{
    if authority.core.retired() {
        return Err(ReplayFault::Stuck);
    }
    authority.core.retire();
    Ok(Sent::nothing(alloc))
}
