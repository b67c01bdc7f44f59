ghost use Rattle.std.specs.Prelude.{◌≡◌, IfOk};
ghost use Rattle.ar_text.specs.Parts.{text_of_parts};

use ar_text::{Part, append};
use std::alloc::{AllocError, Global};

/// A line of these parts. The only error is want of memory.
pub fn line_of(alloc: Global, parts: &[Part]) -> Result<Vec<u8>, AllocError>
    ensures { IfOk result (λ line. line.items ≡ text_of_parts parts.now) }
{
    let mut line = Vec::new(alloc);
    append(alloc, &mut line, parts)?;
    Ok(line)
}
