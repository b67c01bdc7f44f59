//! The walk over the queue: which changes a log proposes, and to which root they lead.

ghost use Rattle.std.specs.Prelude.{◌≡◌, ◌+◌, ◌^◌, ◌<◌, ◌≤◌, ◌++◌, ◌∷◌, [], length, IfOk, OnOk, Some};
ghost use Rattle.ar_cert.specs.Changes.{IsChange, change_text};
ghost use Rattle.domain_table.specs.Applying.{apply, ripen};
ghost use Rattle.domain_table.specs.Sound.{IsSound};
ghost use Rattle.log_sending.specs.Walk.{IsStepOver, IsWalked, left_of};

use ar_cert::Change;
use ar_message::MOST_CHANGES;
use domain_table::{ApplyFault, Table};
use std::alloc::{AllocError, Global};
use vote_quorum::Value;

/// The most bytes of their texts.
const MOST_BYTES: usize = 4_000_000;

/// A walk on its way.
#[derive(Drop)]
pub(crate) struct Walker {
    epoch: u64,
    // As the changes that are taken leave it.
    table: Table,
    taken: Vec<Change>,
    // How many changes more may be taken, and how many bytes are left for their texts.
    many: usize,
    left: usize,
}

/// What a walk took, from which root to which it leads, and the table with that root.
#[derive(Drop)]
pub struct Walked {
    pub changes: Vec<Change>,
    pub value: Value,
    pub table: Table,
}

impl Walker {
    /// Tells of a change that the table took, whose text has so many bytes.
    fn put(&mut self, alloc: Global, change: &Change, len: usize) -> Result<(), AllocError>
        requires many { 0 < self.old.many }
        requires len { len ≤ self.old.left }
        ensures low { self.old.epoch < 2 ^ 64 }
        ensures epoch { OnOk result (self.new.epoch ≡ self.old.epoch) }
        ensures table { OnOk result (self.new.table ≡ self.old.table) }
        ensures taken { OnOk result (self.new.taken.items ≡ self.old.taken.items ++ change.now
            ∷ []) }
        ensures many { OnOk result (self.new.many + 1 ≡ self.old.many) }
        ensures left { OnOk result (self.new.left + len ≡ self.old.left) }
    {
        let _epoch = self.epoch;
        self.taken.push(change.copy(alloc)?)?;
        self.many -= 1;
        self.left -= len;
        Ok(())
    }

    /// Takes a change whose text of so many bytes is not too long, unless the table refuses it.
    fn take(&mut self, alloc: Global, change: &Change, len: usize) -> Result<(), AllocError>
        requires sound { IsSound self.old.table }
        requires is_change { IsChange change.now }
        requires many { 0 < self.old.many }
        requires len { len ≡ length (change_text change.now) }
        requires short { len ≤ self.old.left }
        ensures { OnOk result (IsStepOver change.now self.old self.new) }
    {
        match self.table.apply(alloc, self.epoch, change.copy(alloc)?) {
            Ok(()) => self.put(alloc, change, len),
            Err((_, ApplyFault::Change(_))) => Ok(()),
            Err((_, ApplyFault::Memory)) => Err(AllocError),
        }
    }

    /// Ends the walk in front of a change whose text is too long, unless the table refuses the change.
    fn stop_before(&mut self, change: &Change)
        requires sound { IsSound self.old.table }
        requires many { 0 < self.old.many }
        requires long { self.old.left < length (change_text change.now) }
        ensures { IsStepOver change.now self.old self.new }
    {
        match self.table.judge(self.epoch, change) {
            Ok(()) => self.many = 0,
            Err(_) => {}
        }
    }

    /// Goes over the next change: it is taken, or passed over, or ends the walk.
    fn step(&mut self, alloc: Global, change: &Change) -> Result<(), AllocError>
        requires { IsSound self.old.table }
        ensures { OnOk result (IsStepOver change.now self.old self.new) }
    {
        change.told();
        if self.many == 0 {
            return Ok(());
        }
        let len = change.text_len();
        if len > self.left {
            self.stop_before(change);
            return Ok(());
        }
        self.take(alloc, change, len)
    }

    /// Goes over the rest of the queue.
    fn over(&mut self, alloc: Global, queue: &[Change]) -> Result<(), AllocError>
        requires { IsSound self.old.table }
        ensures taken { OnOk result
            (self.new.taken.items ≡ self.old.taken.items ++ left_of self.old queue.now) }
        ensures table { OnOk result
            (apply self.old.table self.old.epoch (left_of self.old queue.now)
            ≡ Some (ripen self.new.table self.old.epoch)) }
    {
        match queue {
            [] => Ok(()),
            [change, rest @ ..] => {
                self.step(alloc, change)?;
                self.over(alloc, rest)
            }
        }
    }
}

/// What a walk takes of a queue, on a copy of the table.
pub fn walk(
    alloc: Global,
    epoch: u64,
    table: &Table,
    queue: &[Change],
) -> Result<Walked, AllocError>
    requires { IsSound table.now }
    ensures { IfOk result (IsWalked epoch table.now queue.now) }
{
    let mut walker = Walker {
        epoch,
        table: table.copy(alloc)?,
        taken: Vec::new(alloc),
        many: MOST_CHANGES as usize,
        left: MOST_BYTES,
    };
    walker.over(alloc, queue)?;
    walker.table.ripen(alloc, epoch)?;
    let value = Value {
        base: table.root(),
        root: walker.table.root(),
    };
    Ok(Walked {
        changes: walker.taken,
        value,
        table: walker.table,
    })
}
