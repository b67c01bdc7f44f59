ghost use Rattle.std.specs.Prelude.{◌≡◌, ◌≢◌, length, IfOk};
ghost use Rattle.std.specs.Option.{option_copied};
ghost use Rattle.lms_tree.specs.Key.{public_of};
ghost use Rattle.owner_keeper.specs.Determined.{one_standing};
ghost use Rattle.owner_keeper.specs.Keeping.{OwnerStanding, draft_of, new_standing, refuses, says, takes, tells};
ghost use Rattle.owner_keeper.specs.Stapling.{free_of, kept_back};
ghost use Rattle.owner_keeper.specs.declared.refusal.OwnerOrderRefusal.TheVariants as refusals;

use crate::knowing::Knowing;
use crate::reading::read_order;
use crate::stapler::{Stapler, kept_back};
use crate::text::{order_told, record_of};
use crate::{OwnerOrder, OwnerOrderRefusal, OwnerReply};
use ar_cert::Cert;
use kept_party::{Done, Keeper, ReplayFault};
use lms_tree::{LmsKey, LmsPublic};
use owner_core::{Owner, OwnerRefusal};
use party_keys::Directory;
use std::alloc::{AllocError, Global};
use std::marker::Model;

/// An owner that a journal can keep, and the certificates that it knows.
#[derive(Drop)]
pub struct OwnerKeeper {
    knowing: Knowing,
    /// How many authorities there are.
    authorities: usize,
}

// Clauses see where it stands, but for the room of its book.
impl Model for OwnerKeeper {
    ghost use Rattle.std.specs.Prelude.{◌≡◌, length};
    ghost use Rattle.owner_keeper.specs.Keeping.{OwnerStanding};

    ghost Value = { OwnerStanding };

    ghost view = { λ k. k.knowing };

    ghost invariant = { λ k. k.authorities ≡ length k.knowing.owner.directory.authorities };
}

/// Why an owner does not take a text again.
fn fault_of(refusal: OwnerOrderRefusal) -> ReplayFault
    ensures { result ≡ ReplayFault.Stuck → refusal ≢ refusals.Owner OwnerRefusal.Memory }
{
    match refusal {
        OwnerOrderRefusal::Owner(OwnerRefusal::Memory) => ReplayFault::Memory,
        _ => ReplayFault::Stuck,
    }
}

impl OwnerKeeper {
    /// The owner with this number that has done nothing yet, with its key, which is in no book and has signed nothing. The only
    /// error is want of memory.
    pub fn new(
        alloc: Global,
        number: u16,
        directory: Directory,
        key: LmsKey,
    ) -> Result<OwnerKeeper, AllocError>
        ensures { IfOk result (λ made. made ≡ new_standing number directory key) }
    {
        let authorities = directory.authorities();
        let stapler = Stapler::new(alloc, directory.copy(alloc)?);
        let owner = Owner::new(alloc, number, directory, key)?;
        Ok(OwnerKeeper {
            knowing: Knowing {
                owner,
                certs: Vec::new(alloc),
                stapler,
            },
            authorities,
        })
    }

    /// The owner's number.
    pub fn number(&self) -> u16
        ensures { result ≡ self.now.owner.number }
    {
        self.knowing.owner.number()
    }

    /// How many authorities there are to ask.
    pub fn authorities(&self) -> usize
        ensures { result ≡ length self.now.owner.directory.authorities }
    {
        self.authorities
    }

    /// The public key, which is the subject key of the owner's certificates.
    pub fn public(&self) -> LmsPublic
        ensures { result ≡ public_of self.now.owner.key }
    {
        self.knowing.owner.public()
    }

    /// How many leaves its book has.
    pub fn leaves(&self) -> u32
        ensures { result ≡ self.now.owner.book.leaves }
    {
        self.knowing.owner.book_leaves()
    }

    /// How many of them serve no statement yet.
    pub fn free(&self) -> u32
        ensures { result ≡ free_of self.now.owner.book }
    {
        self.knowing.owner.free()
    }

    /// How many of those staples leave to handovers and objections.
    pub fn kept_back(&self) -> u32
        ensures { result ≡ kept_back self.now.owner.book.leaves }
    {
        kept_back(self.knowing.owner.book_leaves())
    }

    /// How many certificates it knows: the number of the newest draft.
    pub fn drafts(&self) -> u64
        ensures { result ≡ length self.now.certs }
    {
        self.knowing.certs.len() as u64
    }

    /// The certificate of the draft with this number; `None` where there is none.
    pub fn cert(&self, draft: u64) -> Option<&Cert>
        ensures { option_copied result ≡ draft_of self.now draft }
    {
        self.knowing.cert(draft)
    }
}

impl Keeper for OwnerKeeper {
    type Order = OwnerOrder;

    type Reply = OwnerReply;

    type Refusal = OwnerOrderRefusal;

    ghost takes = { takes };

    ghost tells = { tells };

    ghost refuses = { refuses };

    ghost says = { says };

    ghost determined = { one_standing };

    #[tactic(auto, using(crate::proofs::Counted::counted))]
    fn step(
        &mut self,
        alloc: Global,
        order: &OwnerOrder,
    ) -> Result<Done<OwnerReply>, OwnerOrderRefusal> {
        order_told(order);
        let text = record_of(alloc, order)?;
        let reply = match self.knowing.act(alloc, order) {
            Ok(reply) => reply,
            Err(refusal) => return Err(refusal),
        };
        Ok(Done { reply, text })
    }

    fn recall(&mut self, alloc: Global, text: &[u8]) -> Result<OwnerReply, ReplayFault> {
        let order = match read_order(alloc, text) {
            Ok(order) => order,
            Err(fault) => return Err(fault),
        };
        match self.knowing.act(alloc, &order) {
            Ok(reply) => Ok(reply),
            Err(refusal) => Err(fault_of(refusal)),
        }
    }
}
