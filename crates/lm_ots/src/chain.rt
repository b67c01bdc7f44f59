ghost use Rattle.std.specs.Prelude.{◌≡◌, ◌∷◌, ◌++◌, take, drop};
ghost use Rattle.sha2.specs.Sha256.{sha256};
ghost use Rattle.lm_ots.specs.Chain.{chain, step_text};

use ar_bytes::{write_bytes, write_u8, write_u16, write_u32};
use sha2::{Digest, Sha256};

// Where the number of the step stands in what a step hashes, and where the value begins.
const STEP_PLACE: usize = 22;

const VALUE_PLACE: usize = 23;

/// What step `step` of a chain hashes.
#[tactic(auto, unfolding(ar_bytes::specs::RoundTrip::number_text))]
pub(crate) fn step_text(
    id: &[u8; 16],
    leaf: u32,
    index: u16,
    step: u8,
    value: &[u8; 32],
) -> [u8; 55]
    ensures { result ≡ step_text id.now leaf index step value.now }
{
    let mut text = [0u8; 55];
    let place = write_bytes(&mut text, 0, id);
    let place = write_u32(&mut text, place, leaf);
    let place = write_u16(&mut text, place, index);
    let place = write_u8(&mut text, place, step);
    write_bytes(&mut text, place, value);
    text
}

// One step: the value becomes the hash of the text, in which the number of the step is written.
fn advance(text: &mut [u8; 55], step: u8)
    ensures head { take 22 text.new ≡ take 22 text.old }
    ensures value { drop 23 text.new ≡ sha256 (take 22 text.old ++ step ∷ drop 23 text.old) }
{
    text[STEP_PLACE] = step;
    let next = Sha256::digest(text.as_slice());
    text[VALUE_PLACE..].copy_from_slice(&next);
}

/// A value after the steps `from` to `to - 1` of chain `index` at a leaf (RFC 8554, section 4.3), one chain by itself.
pub(crate) fn chain(
    id: &[u8; 16],
    leaf: u32,
    index: u16,
    from: u8,
    to: u8,
    value: &[u8; 32],
) -> [u8; 32]
    ensures { result ≡ chain id.now leaf index from to value.now }
{
    let mut text = step_text(id, leaf, index, from, value);
    for step in from..to {
        advance(&mut text, step);
    }
    value_of(&text)
}

fn value_of(text: &[u8; 55]) -> [u8; 32]
    ensures { result ≡ drop 23 text.now }
{
    let mut value = [0u8; 32];
    value.copy_from_slice(&text[VALUE_PLACE..]);
    value
}
