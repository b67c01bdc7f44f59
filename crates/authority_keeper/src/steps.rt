//! What an authority with a check by a book does, asked or taken again.

ghost use Rattle.std.specs.Prelude.{◌≡◌, List, true, Some, is_some, OnErr, OnOk};
ghost use Rattle.std.specs.Option.{option_map};
ghost use Rattle.authority_core.specs.Keyed.{SendsBy};
ghost use Rattle.authority_keeper.specs.Checks.{HasLetGo, without_answers};
ghost use Rattle.authority_keeper.specs.Keeping.{answer_to, standing_of};
ghost use Rattle.authority_keeper.specs.Said.{taught};
ghost use Rattle.owner_check.specs.declared.pair.Pair.{Pair};

use crate::check::ForgetfulCheck;
use crate::text::Lesson;
use ar_message::Sent;
use authority_core::{Authority, AuthorityRefusal, answer};
use std::alloc::{AllocError, Global};

/// An authority with its keys, and a check by a book.
pub(crate) type BookedAuthority = Authority<ForgetfulCheck>;

/// Lets go of what a check answered, where it is there.
fn let_go(check: &mut Option<ForgetfulCheck>)
    ensures { check.new ≡ option_map without_answers check.old }
{
    if let Some(check) = check {
        check.let_go();
    }
}

/// Answers a message by its book, and keeps nothing of what its check answered.
pub(crate) fn answer_by_book(
    alloc: Global,
    authority: &mut BookedAuthority,
    bytes: &[u8],
) -> Result<Sent, AuthorityRefusal>
    ensures row { SendsBy authority.old.ring.keys result authority.old.core.state
        authority.new.core.state (answer_to (standing_of authority.old) bytes.now) }
    ensures keys { authority.new.ring.keys ≡ authority.old.ring.keys }
    ensures book { (standing_of authority.new).book ≡ (standing_of authority.old).book }
    ensures gone { HasLetGo authority.new.core.check }
{
    let reply = answer(authority, alloc, bytes);
    let_go(&mut authority.core.check);
    reply
}

/// The check of an authority, which is there, takes a lesson. The only error is want of memory.
pub(crate) fn instruct(
    alloc: Global,
    authority: &mut BookedAuthority,
    lesson: Lesson,
    name: &[u8],
    key: &[u8; 56],
) -> Result<(), AllocError>
    requires { is_some authority.old.core.check ≡ true }
    ensures ok { OnOk result ((book : List Pair)
        × ((standing_of authority.old).book ≡ Some book)
        × (standing_of authority.new ≡ record (standing_of authority.old)
        { book = Some (taught lesson book name.now key.now) })) }
    ensures err { OnErr result (standing_of authority.new ≡ standing_of authority.old) }
    ensures gone { HasLetGo authority.old.core.check → HasLetGo authority.new.core.check }
{
    match lesson {
        Lesson::Learn => authority.core.teach(alloc, name, key),
        Lesson::Forget => {
            authority.core.forget(name, key);
            Ok(())
        }
    }
}
