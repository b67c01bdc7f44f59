ghost use Rattle.std.specs.Prelude.{◌≡◌, ◌+◌, ◌-◌, ◌^◌, ◌<◌, ℕ, [], slice_index, slice_index_or};
ghost use Rattle.lm_ots.specs.OtsKind.{count_of, width_of};
ghost use Rattle.lm_ots.specs.Signing.{public_key_of, secret_behind, value_after};

use crate::OtsSecret;
use crate::hashing::{D_PBLC, domain_hasher};
use crate::values::SECRET_STEP;
use hash_lanes::FourValues;
use sha2::Digest;

/// The public keys of the four leaves of a tree that begin with the secret's (RFC 8554, section 4.3, algorithm 1).
///
/// Four leaves have each chain in a lane of its own, and all chains of a key have as many steps: so no lane is left over,
/// where the chains of one leaf, which are no multiple of four, leave some.
pub fn four_ots_publics(secret: &OtsSecret) -> [[u8; 32]; 4]
    requires { secret.now.leaf + 3 < 2 ^ 32 }
    ensures { (k : ℕ) → k < 4
        → slice_index_or result k [] ≡ public_key_of (secret_behind secret.now k) }
{
    let leaves = [
        secret.leaf,
        secret.leaf + 1,
        secret.leaf + 2,
        secret.leaf + 3,
    ];
    let mut first = domain_hasher(&secret.id, leaves[0], D_PBLC);
    let mut second = domain_hasher(&secret.id, leaves[1], D_PBLC);
    let mut third = domain_hasher(&secret.id, leaves[2], D_PBLC);
    let mut fourth = domain_hasher(&secret.id, leaves[3], D_PBLC);
    let mut four = FourValues::new(&[secret.seed; 4]);
    for i in 0..secret.kind.p() {
        take_to_ends(secret, &leaves, i as u16, &mut four);
        first.update(&four.value(0));
        second.update(&four.value(1));
        third.update(&four.value(2));
        fourth.update(&four.value(3));
    }
    [
        first.finalize(),
        second.finalize(),
        third.finalize(),
        fourth.finalize(),
    ]
}

// Chain `i` of each of four leaves, from its beginning to its end.
fn take_to_ends(secret: &OtsSecret, leaves: &[u32; 4], i: u16, four: &mut FourValues)
    requires { (k : ℕ) → k < 4 → slice_index leaves.now k ≡ secret.now.leaf + k }
    ensures { (k : ℕ) → k < 4 → slice_index_or four.new k []
        ≡ value_after (secret_behind secret.now k) (2 ^ width_of secret.now.kind - 1) i }
{
    four.put_all(&secret.seed);
    four.step(&secret.id, leaves, &[i; 4], &[SECRET_STEP; 4]);
    for step in 0..secret.kind.last() {
        four.step(&secret.id, leaves, &[i; 4], &[step; 4]);
    }
}
