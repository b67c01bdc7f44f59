ghost use Rattle.std.specs.Prelude.{◌≡◌};
ghost use Rattle.bound_challenge.specs.Challenges as challenges;

use sha2::{Digest, Sha256};

/// What the string of a staple's challenge begins with.
const STAPLE_TAG: u8 = 0x20;

/// What the string of a live challenge begins with.
const LIVE_TAG: u8 = 0x21;

/// The challenge of a staple: SHA-256 of the byte 0x20, the epoch as 8 bytes, the highest first, and the channel.
///
/// The channel is SHA-256 of the SubjectPublicKeyInfo (RFC 5280, section 4.1) of the TLS key that the server of the
/// connection has shown.
pub fn staple_challenge(epoch: u64, channel: &[u8; 32]) -> [u8; 32]
    ensures { result ≡ challenges.staple_challenge epoch channel.now }
{
    let mut bytes = [STAPLE_TAG; 41];
    bytes[1..9].copy_from_slice(&epoch.to_be_bytes());
    bytes[9..].copy_from_slice(channel);
    Sha256::digest(&bytes)
}

/// The challenge of a live answer: SHA-256 of the byte 0x21, the nonce that the client chose, and the exporter.
///
/// The exporter is 32 bytes of keying material of the TLS connection (RFC 8446, section 7.5), with the label
/// `EXPORTER-arpki-possession` and the nonce as context.
pub fn live_challenge(nonce: &[u8; 32], exporter: &[u8; 32]) -> [u8; 32]
    ensures { result ≡ challenges.live_challenge nonce.now exporter.now }
{
    let mut bytes = [LIVE_TAG; 65];
    bytes[33..].copy_from_slice(exporter);
    bytes[1..33].copy_from_slice(nonce);
    Sha256::digest(&bytes)
}
