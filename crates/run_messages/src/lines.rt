//! Lines, one behind the other.

ghost use Rattle.std.specs.Prelude.{◌≡◌, ◌++◌, ◌∷◌, [], IfOk, OnOk, map};
ghost use Rattle.ar_run.specs.Answers.{bytes_of};
ghost use Rattle.run_messages.specs.Telling.{key_line, message_line};

use lms_tree::LmsPublic;
use std::alloc::{AllocError, Global};

/// Puts a line behind the others. The only error is want of memory.
#[tactic(auto, using(crate::proofs::Behind::one_behind))]
pub(crate) fn put_line(lines: &mut Vec<Vec<u8>>, line: Vec<u8>) -> Result<(), AllocError>
    ensures { OnOk result (map bytes_of lines.new.items ≡ map bytes_of lines.old.items ++ line.items
        ∷ []) }
{
    lines.push(line)?;
    Ok(())
}

/// The line of a key.
pub(crate) fn key_line(alloc: Global, key: &LmsPublic) -> Result<Vec<u8>, AllocError>
    ensures { IfOk result (λ line. line.items ≡ key_line key.now) }
{
    let digits = hex::encode(alloc, key.bytes().as_slice())?;
    let line = format!(in alloc; "key {digits}\n")?;
    Ok(line.into_bytes())
}

/// The line of the message with this number.
pub(crate) fn message_line(alloc: Global, number: u64, bytes: &[u8]) -> Result<Vec<u8>, AllocError>
    ensures { IfOk result (λ line. line.items ≡ message_line number bytes.now) }
{
    let digits = hex::encode(alloc, bytes)?;
    let line = format!(in alloc; "m{number} {digits}\n")?;
    Ok(line.into_bytes())
}
