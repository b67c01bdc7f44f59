ghost use Rattle.std.specs.Prelude.{◌≡◌};
ghost use Rattle.arpki_c.specs.Verifying.{abi, signature_number};

use lms_tree::{LmsPublic, Verdict, valid};

/// The number of the header's functions and layouts, of which `ARPKI_ABI` is the one that it was written for.
#[unsafe(no_mangle)]
pub extern "C" fn arpki_abi() -> u32
    ensures { result ≡ abi }
{
    1
}

/// Whether a signature of a message is valid under the key of a text: 0 it is; 1 to 5 the first condition that
/// fails; 6 the text is that of no key.
#[unsafe(no_mangle)]
pub extern "C" fn arpki_verify(key: &[u8; 56], message: &[u8], signature: &[u8]) -> u32
    ensures { result ≡ signature_number key.now message.now signature.now }
{
    match LmsPublic::read(key) {
        Some(key) => match valid(&key, message, signature) {
            Verdict::Valid => 0,
            Verdict::Invalid(condition) => u32::from(condition),
        },
        None => 6,
    }
}
