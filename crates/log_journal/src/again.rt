//! What a log that takes the inputs of a journal again looks at.

ghost use Rattle.std.specs.Prelude.{◌≡◌, ◌≢◌, false, IsTrue};
ghost use Rattle.key_roll.specs.Ring.{IsNewest};

use kept_journal::ReplayFault;
use lms_tree::LmsPublic;
use log_core::{Log, LogRefusal};

/// Why a log does not take an input again: `Memory` where memory was wanting, and else `Stuck`.
pub fn fault_of(refusal: LogRefusal) -> ReplayFault
    ensures memory { result ≡ ReplayFault.Stuck → refusal ≢ LogRefusal.Memory }
    ensures stuck { refusal ≢ LogRefusal.Memory → result ≡ ReplayFault.Stuck }
{
    match refusal {
        LogRefusal::Memory => ReplayFault::Memory,
        _ => ReplayFault::Stuck,
    }
}

/// Is the newest key of a log this one?
pub fn is_newest(log: &Log, key: &LmsPublic) -> bool
    ensures yes { IsTrue result → IsNewest log.now.ring.keys key.now }
    ensures no { result ≡ false → ¬ IsNewest log.now.ring.keys key.now }
{
    log.newest_key() == *key
}

/// Tells a proof that a log has a newest key. It does nothing.
pub fn newest_told(log: &Log)
    ensures { (key : LmsPublic) × IsNewest log.now.ring.keys key }
{
    let _key = log.newest_key();
}
