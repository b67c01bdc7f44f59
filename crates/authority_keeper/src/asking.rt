//! An authority does what it is asked, and has the record of that. All memory is taken before the first change.

ghost use Rattle.std.specs.Prelude.{◌≡◌, Err, IfErr, IfOk, OnErr};
ghost use Rattle.authority_keeper.specs.Checks.{HasLetGo};
ghost use Rattle.authority_keeper.specs.Inputs.{retires, rolls, takes};
ghost use Rattle.authority_keeper.specs.Keeping.{DoneBy, RefusesBy, RefusesLesson, RefusesRoll, answer_to, standing_of};
ghost use Rattle.authority_keeper.specs.Said.{lesson_input};
ghost use Rattle.key_roll.specs.Ring.{IsNext};
ghost use Rattle.lms_tree.specs.Key.{public_of};
ghost use Rattle.lms_tree.specs.KeyParts.{KeyParts};

use crate::AuthorityOrderRefusal;
use crate::steps::{BookedAuthority, answer_by_book, instruct};
use crate::text::{
    Lesson, record_of_lesson, record_of_message, record_of_retirement, record_of_roll,
};
use ar_council::key_told;
use ar_message::Sent;
use ar_names::Name;
use kept_party::Done;
use std::alloc::Global;

/// Takes a message.
pub(crate) fn ask_to_take(
    alloc: Global,
    authority: &mut BookedAuthority,
    bytes: &[u8],
) -> Result<Done<Sent>, AuthorityOrderRefusal>
    ensures done { IfOk result (λ done. DoneBy (standing_of authority.old) (takes bytes.now) done
        (standing_of authority.new)) }
    ensures refused { IfErr result (RefusesBy (λ r.
        answer_to (standing_of authority.old) bytes.now ≡ Err r)) }
    ensures err { OnErr result (standing_of authority.new ≡ standing_of authority.old) }
    ensures gone { HasLetGo authority.old.core.check → HasLetGo authority.new.core.check }
{
    let text = record_of_message(alloc, bytes)?;
    let reply = answer_by_book(alloc, authority, bytes)?;
    Ok(Done {
        reply,
        text: Some(text),
    })
}

/// Goes on to its next key.
pub(crate) fn ask_to_roll(
    alloc: Global,
    authority: &mut BookedAuthority,
) -> Result<Done<Sent>, AuthorityOrderRefusal>
    ensures done { IfOk result (λ done. (next : KeyParts) × (IsNext authority.old.ring.keys next
        × DoneBy (standing_of authority.old) (rolls (public_of next)) done
        (standing_of authority.new))) }
    ensures refused { IfErr result (RefusesRoll (standing_of authority.old)) }
    ensures err { OnErr result (standing_of authority.new ≡ standing_of authority.old) }
    ensures gone { HasLetGo authority.old.core.check → HasLetGo authority.new.core.check }
{
    let key = authority.next_key(alloc)?;
    key_told(&key);
    let text = record_of_roll(alloc, &key)?;
    match authority.roll(alloc) {
        Ok(reply) => Ok(Done {
            reply,
            text: Some(text),
        }),
        Err(refusal) => Err(AuthorityOrderRefusal::Authority(refusal)),
    }
}

/// Its check takes a lesson.
pub(crate) fn ask_to_instruct(
    alloc: Global,
    authority: &mut BookedAuthority,
    lesson: Lesson,
    name: &Name,
    key: &[u8; 56],
) -> Result<Done<Sent>, AuthorityOrderRefusal>
    ensures done { IfOk result (λ done. DoneBy (standing_of authority.old)
        (lesson_input lesson name.now key.now) done (standing_of authority.new)) }
    ensures refused { IfErr result (RefusesLesson (standing_of authority.old).book) }
    ensures err { OnErr result (standing_of authority.new ≡ standing_of authority.old) }
    ensures gone { HasLetGo authority.old.core.check → HasLetGo authority.new.core.check }
{
    if authority.core.retired() {
        return Err(AuthorityOrderRefusal::Retired);
    }
    let text = record_of_lesson(alloc, lesson, name, key)?;
    instruct(alloc, authority, lesson, name.text(), key)?;
    Ok(Done {
        reply: Sent::nothing(alloc),
        text: Some(text),
    })
}

/// Drops its check.
pub(crate) fn ask_to_retire(
    alloc: Global,
    authority: &mut BookedAuthority,
) -> Result<Done<Sent>, AuthorityOrderRefusal>
    ensures done { IfOk result (λ done. DoneBy (standing_of authority.old) retires done
        (standing_of authority.new)) }
    ensures refused { IfErr result (RefusesLesson (standing_of authority.old).book) }
    ensures err { OnErr result (standing_of authority.new ≡ standing_of authority.old) }
    ensures gone { HasLetGo authority.old.core.check → HasLetGo authority.new.core.check }
{
    if authority.core.retired() {
        return Err(AuthorityOrderRefusal::Retired);
    }
    let text = record_of_retirement(alloc)?;
    authority.core.retire();
    Ok(Done {
        reply: Sent::nothing(alloc),
        text: Some(text),
    })
}
