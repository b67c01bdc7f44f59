ghost use Rattle.std.specs.Prelude.{◌≡◌, OnErr};
ghost use Rattle.ar_base.specs.Appending.{Appends};
ghost use Rattle.report_text.specs.Lines.{said_text};

use crate::happening::Said;
use ar_text::{Part, append};
use std::alloc::{AllocError, Global};

/// Appends what a client says, without a newline.
///
/// The one error is want of memory. It leaves the bytes of `out` as they were, and does not come where
/// `out` has room for the text.
pub fn say(alloc: Global, said: &Said, out: &mut Vec<u8>) -> Result<(), AllocError>
    ensures appends { Appends (said_text said.now) out.old out.new result }
    ensures err { OnErr result (out.new.items ≡ out.old.items) }
{
    match said {
        Said::Accepted {
            name,
            serial,
            epoch,
            root,
            certificate,
        } => {
            let parts = [
                Part::Bytes(b"accepted "),
                Part::Bytes(name.text()),
                Part::Bytes(b" serial "),
                Part::Number(*serial),
                Part::Bytes(b" epoch "),
                Part::Number(*epoch),
                Part::Bytes(b" root "),
                Part::Digest(root),
                Part::Bytes(b" certificate "),
                Part::Digest(certificate),
            ];
            append(alloc, out, &parts)
        }
        Said::Absent { name, epoch, root } => {
            let parts = [
                Part::Bytes(b"absent "),
                Part::Bytes(name.text()),
                Part::Bytes(b" epoch "),
                Part::Number(*epoch),
                Part::Bytes(b" root "),
                Part::Digest(root),
            ];
            append(alloc, out, &parts)
        }
        Said::Refused(check) => {
            let parts = [Part::Bytes(b"refused "), Part::Number(u64::from(*check))];
            append(alloc, out, &parts)
        }
    }
}
