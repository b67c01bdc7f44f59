ghost use Rattle.std.specs.Prelude.{◌≡◌, ◌≤◌, ℕ, List, Option, Err, OnOk, OnErr};
ghost use Rattle.std.specs.Option.{option_map};
ghost use Rattle.ar_base.specs.Faults.{HasRisen};
ghost use Rattle.owner_check.specs.Answers.{AnswersBy, Told, after_ask, forgotten, learnt};
ghost use Rattle.owner_check.specs.declared.answer.CheckAnswer.{CheckAnswer};
ghost use Rattle.owner_check.specs.declared.fault.AskFault.TheVariants.{Failed, Memory};

use crate::AskFault;
use std::alloc::{AllocError, Global};

/// Says whether the holder of a key is the owner of a name.
///
/// Who shares an authority among threads asks of its check that it is `Send` too.
pub trait OwnerCheck: Drop {
    /// Its book and the numbers of its asks that fail, where it tells them.
    ghost told: { Self → Option Told };

    /// The answers that it gave, in order.
    ghost answers: { Self → List CheckAnswer };

    /// How many faults the check has had, in a count that may stay at 2^64 - 1 once it is there.
    ghost faults: { Self → ℕ };

    /// Whether the holder of the key is the owner of the name.
    ///
    /// A check that tells its book and failing numbers answers by them. Each answer but want of memory is
    /// kept behind the others. `Failed` comes only where the count of faults rose in this call, and after
    /// `Memory` the check is as before.
    fn ask(&mut self, alloc: Global, name: &[u8], key: &[u8; 56]) -> Result<bool, AskFault>
        ensures told { told self.new ≡ told self.old }
        ensures kept { answers self.new ≡ after_ask (answers self.old) name.now key.now result }
        ensures by { AnswersBy (told self.old) (answers self.old) name.now key.now result }
        ensures never_falls { faults self.old ≤ faults self.new }
        ensures failed { result ≡ Err Failed → HasRisen (faults self.old) (faults self.new) }
        ensures uncounted { OnOk result (faults self.new ≡ faults self.old) }
        ensures memory { result ≡ Err Memory → faults self.new ≡ faults self.old };

    /// Puts the name with the key into the book, unless it is there. The only error is want of memory, and
    /// then the check is as before.
    fn learn(&mut self, alloc: Global, name: &[u8], key: &[u8; 56]) -> Result<(), AllocError>
        ensures ok { OnOk result
            (told self.new ≡ option_map (learnt name.now key.now) (told self.old)) }
        ensures err { OnErr result (told self.new ≡ told self.old) }
        ensures answers { answers self.new ≡ answers self.old }
        ensures faults { faults self.new ≡ faults self.old };

    /// Takes the name with the key out of the book. It takes no memory.
    fn forget(&mut self, name: &[u8], key: &[u8; 56])
        ensures told { told self.new ≡ option_map (forgotten name.now key.now) (told self.old) }
        ensures answers { answers self.new ≡ answers self.old }
        ensures faults { faults self.new ≡ faults self.old };
}
