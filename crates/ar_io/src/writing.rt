ghost use Rattle.std.specs.Prelude.{◌≡◌, ◌≤◌, OnOk, OnErr};
ghost use Rattle.ar_base.specs.Faults.{HasRisen};
ghost use Rattle.ar_io.specs.Wrote.{Appended, AppendedFront};

use crate::{Failed, Sink};

/// Writes the whole piece, in as many writes as the sink needs.
///
/// After an error some front of the piece was written, and not all of it. It comes exactly where a write
/// failed. An empty piece is no write.
pub fn write_all<K: Sink>(sink: &mut K, piece: &[u8]) -> Result<(), Failed>
    ensures ok { OnOk result (Appended K.wrote sink.old sink.new piece.now) }
    ensures err { OnErr result (AppendedFront K.wrote sink.old sink.new piece.now) }
    ensures failed { OnErr result (HasRisen (K.faults sink.old) (K.faults sink.new)) }
    ensures uncounted { OnOk result (K.faults sink.new ≡ K.faults sink.old) }
    ensures never_falls { K.faults sink.old ≤ K.faults sink.new }
{
    let mut rest = piece;
    while !rest.is_empty() {
        let count = sink.write(rest)?;
        rest = &rest[count..];
    }
    Ok(())
}
