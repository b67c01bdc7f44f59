//! The digests that are chained over the texts.

ghost use Rattle.std.specs.Prelude.{◌≡◌, ◌<◌, ◌^◌, length};
ghost use Rattle.chained_journal.specs.Journal.{link, start};

use crate::Title;
use sha2::{Digest, Sha256};

/// What the string begins with that is hashed for a title.
const TITLE_TAG: u8 = 0x60;

/// What the string begins with that is hashed for a text.
const TEXT_TAG: u8 = 0x61;

/// The chain of a journal with no texts.
pub(crate) fn start(title: &Title) -> [u8; 32]
    ensures { result ≡ start title.now }
{
    let mut hasher = Sha256::new();
    hasher.update(&[TITLE_TAG]);
    hasher.update(&title.seal);
    hasher.update(&title.header);
    hasher.finalize()
}

/// The chain of texts with this chain, and of this text behind them.
#[tactic(auto, unfolding(ar_bytes::specs::RoundTrip::number_text))]
pub(crate) fn link(chain: &[u8; 32], text: &[u8]) -> [u8; 32]
    requires { length text.now < 2 ^ 32 }
    ensures { result ≡ link chain.now text.now }
{
    let mut hasher = Sha256::new();
    hasher.update(&[TEXT_TAG]);
    hasher.update(chain);
    hasher.update(&(text.len() as u32).to_be_bytes());
    hasher.update(text);
    hasher.finalize()
}
