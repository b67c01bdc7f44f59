ghost use Rattle.std.specs.Prelude.{◌≡◌};
ghost use Rattle.once_list.specs.Print.{print_of};

use sha2::{Digest, Sha256};

/// The print of a text behind a head, which may be empty: the first 16 bytes of H(head || text).
///
/// Whoever chooses texts cannot make many with one print. Where two have one all the same, a list that is searched by
/// prints answers as ever, and takes longer.
#[tactic(auto, unfolding(crate::specs::Print::print_of))]
pub fn print_of(head: &[u8], text: &[u8]) -> u128
    ensures { result ≡ print_of head.now text.now }
{
    let mut hasher = Sha256::new();
    hasher.update(head);
    hasher.update(text);
    let mut print = [0u8; 16];
    print.copy_from_slice(&hasher.finalize()[..16]);
    u128::from_be_bytes(print)
}
