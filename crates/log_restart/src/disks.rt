ghost use Rattle.std.specs.Prelude.{◌≡◌, []};
ghost use Rattle.kept_disk.specs.Memory.{fresh_disk};

use kept_disk::MemDisk;
use std::alloc::Global;

/// The two disks of a log that restarts.
#[derive(Debug, Drop)]
pub struct Disks {
    /// The disk of the first run, as it is where that ends.
    pub before: MemDisk,
    /// The disk of the second run, which began with what a crash leaves of the first one.
    pub after: MemDisk,
}

impl Disks {
    /// Two empty disks. It takes no memory.
    pub fn empty(alloc: Global) -> Disks
        ensures { (result.before ≡ fresh_disk []) × (result.after ≡ fresh_disk []) }
    {
        Disks {
            before: MemDisk::new(alloc, Vec::new(alloc)),
            after: MemDisk::new(alloc, Vec::new(alloc)),
        }
    }
}
