ghost use Rattle.std.specs.Prelude.{◌≡◌, IfOk};
ghost use Rattle.ar_council.specs.Council.{council_of};
ghost use Rattle.authority_core.specs.Honest.{IsOfHonestAuthority};
ghost use Rattle.authority_keeper.specs.Determined.{one_standing};
ghost use Rattle.authority_keeper.specs.Keeping.{new_standing, refuses, says, takes};

use crate::asking::{ask_to_instruct, ask_to_retire, ask_to_roll, ask_to_take};
use crate::check::ForgetfulCheck;
use crate::recalling::{instruct_again, retire_again, roll_again, take_again};
use crate::steps::BookedAuthority;
use crate::text::{Lesson, Said, read_text};
use crate::{AuthorityOrder, AuthorityOrderRefusal};
use ar_message::Sent;
use authority_core::{AuthorityRecord, new_authority};
use kept_party::{Done, Keeper, ReplayFault};
use lms_tree::LmsKey;
use party_keys::Directory;
use std::alloc::{AllocError, Global};
use std::marker::Model;

/// An authority that a journal can keep, with a check by a book.
///
/// Of what its check answered it keeps nothing: behind each call the list of its answers is empty, whatever was asked. So it stays as
/// large as it is, however many requests it refuses.
#[derive(Drop)]
pub struct AuthorityKeeper {
    authority: BookedAuthority,
}

// Clauses see where it stands, its keys, and the book of its check. Of answers of the check there are none.
impl Model for AuthorityKeeper {
    ghost use Rattle.authority_keeper.specs.Checks.{HasLetGo};
    ghost use Rattle.authority_keeper.specs.Keeping.{AuthorityStanding, standing_of};

    ghost Value = { AuthorityStanding };

    ghost view = { λ k. standing_of k.authority };

    ghost invariant = { λ k. HasLetGo k.authority.core.check };
}

impl AuthorityKeeper {
    /// The authority with this number that has done nothing yet, with its key of generation 0 and an empty book. The only error is
    /// want of memory.
    pub fn new(
        alloc: Global,
        number: u16,
        directory: Directory,
        key: LmsKey,
    ) -> Result<AuthorityKeeper, AllocError>
        ensures { IfOk result (λ made. made ≡ new_standing number directory key) }
    {
        match new_authority(alloc, number, directory, key, ForgetfulCheck::new(alloc)) {
            Ok(authority) => Ok(AuthorityKeeper { authority }),
            Err((_check, error)) => Err(error),
        }
    }

    /// The authority's number.
    pub fn number(&self) -> u16
        ensures { result ≡ self.now.state.me }
    {
        self.authority.core.state.number()
    }

    /// What the authority remembers, which is what an honest one does.
    pub fn record(&self) -> &AuthorityRecord
        ensures value { result.now ≡ self.now.state.past }
        ensures honest { IsOfHonestAuthority (council_of self.now.state.keys) self.now.state.me
            self.now.state.past }
    {
        self.authority.core.state.record()
    }
}

impl Keeper for AuthorityKeeper {
    type Order = AuthorityOrder;

    type Reply = Sent;

    type Refusal = AuthorityOrderRefusal;

    ghost takes = { takes };

    ghost tells = { λ party order reply. ⊥ };

    ghost refuses = { refuses };

    ghost says = { says };

    ghost determined = { one_standing };

    fn step(
        &mut self,
        alloc: Global,
        order: &AuthorityOrder,
    ) -> Result<Done<Sent>, AuthorityOrderRefusal> {
        match order {
            AuthorityOrder::Take(bytes) => ask_to_take(
                alloc,
                &mut self.authority,
                bytes.as_slice(),
            ),
            AuthorityOrder::Roll => ask_to_roll(alloc, &mut self.authority),
            AuthorityOrder::Learn { name, key } => {
                ask_to_instruct(alloc, &mut self.authority, Lesson::Learn, name, key)
            }
            AuthorityOrder::Forget { name, key } => {
                ask_to_instruct(alloc, &mut self.authority, Lesson::Forget, name, key)
            }
            AuthorityOrder::Retire => ask_to_retire(alloc, &mut self.authority),
        }
    }

    fn recall(&mut self, alloc: Global, text: &[u8]) -> Result<Sent, ReplayFault> {
        match read_text(text) {
            Said::Take(bytes) => take_again(alloc, &mut self.authority, bytes),
            Said::Roll(key) => roll_again(alloc, &mut self.authority, &key),
            Said::Lesson(lesson, name, key) => {
                instruct_again(alloc, &mut self.authority, lesson, name, key)
            }
            Said::Retire => retire_again(alloc, &mut self.authority),
            Said::Nothing => Err(ReplayFault::Stuck),
        }
    }
}
