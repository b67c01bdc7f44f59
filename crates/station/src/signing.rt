ghost use Rattle.std.specs.Prelude.{◌≡◌};
ghost use Rattle.station.specs.Kept.{CanSign, signed_reply};

use ar_message::{Sent, Unsigned, fill};
use key_roll::KeyRing;
use report_text::Code;

/// What a station replied, signed with the keys of its party. It takes no memory, and needs no lock.
///
/// The keys can sign it: so it is of each reply of a station that had these keys at first.
pub fn signed(ring: &KeyRing, reply: Result<Unsigned, Code>) -> Result<Sent, Code>
    requires { CanSign ring.now.keys reply }
    ensures { result ≡ signed_reply ring.now.keys reply }
{
    match reply {
        Ok(unsigned) => Ok(fill(ring, unsigned)),
        Err(code) => Err(code),
    }
}
