ghost use Rattle.std.specs.Prelude.{◌≡◌, ◌≤◌, ◌∷◌, [], length, Err, IfErr, IfOk, OnOk, OnErr};
ghost use Rattle.ar_council.specs.Council.{council_of};
ghost use Rattle.epoch_log.specs.Calls.{fresh};
ghost use Rattle.key_roll.specs.Ring.{ring_signature_len};
ghost use Rattle.lms_tree.specs.LmsKind.{leaves_of};
ghost use Rattle.log_core.specs.Inputs.{input_of};
ghost use Rattle.log_core.specs.Keyed.{AreBehind, IsOwn, IsPlain, SendsBy};
ghost use Rattle.log_core.specs.Row.{IsLogInput, IsReadable, order_judged, row};
ghost use Rattle.log_core.specs.State.{most_sent};
ghost use Rattle.log_sending.specs.declared.refusal.LogRefusal.TheVariants as refusals;

use crate::LogRefusal;
use crate::log_core::LogCore;
use crate::rolling::next_told;
use crate::step::LogInput;
use ar_bytes::are_bytes;
use ar_message::{Sent, fill};
use key_roll::{KeyRing, ring_signature_len};
use keyed_core::Keyed;
use lms_tree::LmsKey;
use party_keys::Directory;
use std::alloc::{AllocError, Global};

/// A log with its keys: what it sends is signed.
///
/// Its record is an honest log's. After an error it is as it was.
pub type Log = Keyed<LogCore>;

/// Tells a proof what is true of what a program asks. It does nothing.
fn input_told(input: &LogInput)
    ensures { IsLogInput (input_of input.now) }
{
    match input {
        LogInput::Take(bytes) => are_bytes(bytes),
        LogInput::Propose | LogInput::Pass => {}
        LogInput::Roll(key) => next_told(key),
    }
}

/// The log with this number that has done nothing yet, with its key of generation 0. The only error is want of memory.
pub fn new_log(
    alloc: Global,
    number: u16,
    directory: Directory,
    key: LmsKey,
) -> Result<Log, AllocError>
    ensures { IfOk result (λ made. made ≡ record {
      core = record {
        log = fresh number (council_of directory) (leaves_of key.lms);
        keys = directory;
        queue = [];
        signature_len = ring_signature_len key;
      };
      ring = record { keys = key ∷ []; room = 0 };
    }) }
{
    let leaves = key.leaves();
    let len = ring_signature_len(&key) as usize;
    match KeyRing::new(alloc, key) {
        Ok(ring) => {
            let core = LogCore::new(alloc, number, directory, leaves, len);
            Ok(Keyed { core, ring })
        }
        Err((_key, error)) => Err(error),
    }
}

/// What a log does with no other key.
fn answer_plain(log: &mut Log, alloc: Global, input: &LogInput) -> Result<Sent, LogRefusal>
    requires { IsPlain (input_of input.now) }
    ensures row { SendsBy log.old.ring.keys result log.old.core log.new.core
        (row log.old.core (input_of input.now)) }
    ensures memory { result ≡ Err refusals.Memory → IsReadable (input_of input.now) }
    ensures refused { IfErr (order_judged log.old.core (input_of input.now)) (λ why.
        result ≡ Err why) }
    ensures few { IfOk result (λ sent. length sent.messages ≤ most_sent) }
    ensures ring { log.new.ring ≡ log.old.ring }
{
    log.core.told();
    input_told(input);
    let unsigned = log.core.step(alloc, input)?;
    Ok(fill(&log.ring, unsigned))
}

/// What a log sends for what it is asked, signed, or why it refuses.
///
/// It is the step of its core, with the signatures in the places that it leaves blank; `Memory` may stand in its place,
/// but not in that of `Form`, nor of why it may not propose or pass now. To go on to a key is what `roll` does: the key is that of the ring's next one.
pub fn answer(log: &mut Log, alloc: Global, input: &LogInput) -> Result<Sent, LogRefusal>
    requires { IsOwn log.old.ring.keys (input_of input.now) }
    // The answer, signed, and where the log stands then.
    ensures row { SendsBy log.new.ring.keys result log.old.core log.new.core
        (row log.old.core (input_of input.now)) }
    // When memory may be wanting.
    ensures memory { result ≡ Err refusals.Memory → IsReadable (input_of input.now) }
    // What stands in the way of an order to propose or to pass is told whatever memory there is.
    ensures refused { IfErr (order_judged log.old.core (input_of input.now)) (λ why.
        result ≡ Err why) }
    // How many messages it sends at most.
    ensures few { IfOk result (λ sent. length sent.messages ≤ most_sent) }
    // Which keys it has.
    ensures ok { OnOk result (AreBehind (input_of input.now) log.old.ring.keys log.new.ring.keys) }
    ensures err { OnErr result (log.new.ring.keys ≡ log.old.ring.keys) }
{
    match input {
        LogInput::Roll(_) => log.roll(alloc),
        _ => answer_plain(log, alloc, input),
    }
}
