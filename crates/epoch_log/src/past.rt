ghost use Rattle.std.specs.Prelude.{◌≡◌, OnOk};
ghost use Rattle.epoch_log.specs.Log.{HasRoomIn, record_of};

use crate::{Confirmed, Ended, Stated, Voted};
use ar_statement::SeenText;
use key_roll::RollBook;
use std::alloc::{AllocError, Global};

/// What a log remembers. Contracts see it as the plain data that `record_of` makes of it, without the room that its
/// lists keep.
#[derive(Drop)]
pub struct Record {
    /// The statements that it saw of logs and authorities, each once.
    pub seen: Vec<SeenText>,
    /// The statements that it signed.
    pub signed: RollBook,
    /// Its votes, at most one in an epoch.
    pub voted: Vec<Voted>,
    /// What it stated, at most one thing of an epoch.
    pub stated: Vec<Stated>,
    /// How its epochs ended, from 1 on.
    pub ended: Vec<Ended>,
    /// What it confirmed.
    pub confirmed: Vec<Confirmed>,
}

impl Record {
    /// Takes memory for so many texts seen and statements signed, and for one entry more of each other list.
    pub(crate) fn reserve(
        &mut self,
        alloc: Global,
        seen: usize,
        signed: usize,
    ) -> Result<(), AllocError>
        ensures same { record_of self.new ≡ record_of self.old }
        ensures room { OnOk result (HasRoomIn seen signed self.new) }
    {
        self.seen.reserve(seen)?;
        self.signed.reserve(alloc, signed)?;
        self.voted.reserve(1)?;
        self.stated.reserve(1)?;
        self.ended.reserve(1)?;
        self.confirmed.reserve(1)
    }
}
