//! Bytes in a row.

ghost use Rattle.std.specs.Prelude.{◌≡◌, ◌==◌, position};

/// The place of the first byte that is this one.
pub fn position_of(bytes: &[u8], wanted: u8) -> Option<usize>
    ensures { result ≡ position (λ byte. byte == wanted) bytes.now }
{
    bytes.iter().position(|byte| *byte == wanted)
}
