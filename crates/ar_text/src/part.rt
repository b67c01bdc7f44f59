/// A part of a text.
#[derive(Clone, Copy, Debug)]
pub enum Part<'a> {
    /// These bytes.
    Bytes(&'a [u8]),
    /// A number in decimal, without leading zeros.
    Number(u64),
    /// A digest in hex: 64 lower-case digits.
    Digest(&'a [u8; 32]),
}
