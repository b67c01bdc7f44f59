ghost use Rattle.std.specs.Prelude.{◌≡◌, ◌==◌, ◌<◌, ◌^◌, ◌↔◌, length, IsNone, IfSome};
ghost use Rattle.std.specs.Int.{w8, w16, w32, w64, from_be_bytes};
ghost use Rattle.ar_base.specs.Bytes.{AreBytes, IsDigest};

use std::marker::Model;

/// A reader of fields from the front of borrowed bytes.
///
/// A call that reads a field gives its value and stands behind it, or gives `None` and takes nothing:
/// exactly where fewer bytes are left than the field has.
#[derive(Debug, Drop)]
pub struct Fields<'a> {
    left: &'a [u8],
    place: usize,
}

// Clauses see the bytes that are left, and how many bytes of the whole input lie before them.
impl<'a> Model for Fields<'a> {
    ghost use Rattle.std.specs.Prelude.{◌+◌, ◌<◌, ◌^◌, length};
    ghost use Rattle.ar_bytes.specs.Reading.{Cursor};

    ghost Value = { Cursor };

    ghost view = { λ f. record { ahead = f.left.now; place = f.place } };

    ghost invariant = { λ f. f.place + length f.left.now < 2 ^ 64 };
}

impl<'a> Fields<'a> {
    ghost use Rattle.ar_bytes.specs.Reading.{start_of, bytes_at, number_at, part_at, Reads};

    /// A reader that stands before the first of the bytes, which are the whole input.
    pub fn new(bytes: &'a [u8]) -> Fields<'a>
        ensures { result ≡ start_of bytes.now }
    {
        Fields {
            left: bytes,
            place: 0,
        }
    }

    /// A number of one byte.
    #[tactic(auto, unfolding(crate::specs::Reading::number_at))]
    pub fn u8(&mut self) -> Option<u8>
        ensures field { Reads (λ v. v) result self.old self.new (number_at w8 self.old) }
        ensures none { IsNone result ↔ (length self.old.ahead < 1) }
    {
        let bytes = self.bytes(1)?;
        Some(bytes[0])
    }

    /// A big-endian number of two bytes.
    #[tactic(auto, unfolding(crate::specs::Reading::number_at))]
    pub fn u16(&mut self) -> Option<u16>
        ensures field { Reads (λ v. v) result self.old self.new (number_at w16 self.old) }
        ensures none { IsNone result ↔ (length self.old.ahead < 2) }
    {
        let bytes = self.bytes(2)?;
        Some(u16::from_be_bytes([bytes[0], bytes[1]]))
    }

    /// A big-endian number of four bytes.
    #[tactic(auto, unfolding(crate::specs::Reading::number_at))]
    pub fn u32(&mut self) -> Option<u32>
        ensures field { Reads (λ v. v) result self.old self.new (number_at w32 self.old) }
        ensures none { IsNone result ↔ (length self.old.ahead < 4) }
    {
        let b = self.bytes(4)?;
        Some(u32::from_be_bytes([b[0], b[1], b[2], b[3]]))
    }

    /// A big-endian number of eight bytes.
    #[tactic(auto, unfolding(crate::specs::Reading::number_at))]
    pub fn u64(&mut self) -> Option<u64>
        ensures field { Reads (λ v. v) result self.old self.new (number_at w64 self.old) }
        ensures none { IsNone result ↔ (length self.old.ahead < 8) }
    {
        let b = self.bytes(8)?;
        Some(u64::from_be_bytes([b[0], b[1], b[2], b[3], b[4], b[5], b[6], b[7]]))
    }

    /// The next `n` bytes, borrowed.
    #[tactic(auto, unfolding(crate::specs::Reading::bytes_at))]
    pub fn bytes(&mut self, n: usize) -> Option<&'a [u8]>
        ensures field { Reads (λ piece. piece.now) result self.old self.new (bytes_at n self.old) }
        ensures none { IsNone result ↔ (length self.old.ahead < n) }
        ensures len { IfSome result (λ piece. length piece.now ≡ n) }
    {
        if self.left.len() < n {
            return None;
        }
        let (piece, rest) = self.left.split_at(n);
        self.left = rest;
        self.place += n;
        Some(piece)
    }

    /// The next `N` bytes as an array, borrowed.
    pub fn array<const N: usize>(&mut self) -> Option<&'a [u8; N]>
        ensures field { Reads (λ array. array.now) result self.old self.new (bytes_at N self.old) }
        ensures none { IsNone result ↔ (length self.old.ahead < N) }
    {
        self.bytes(N)?.as_array()
    }

    /// The next `n` bytes as a reader of their own, which tells its places in the whole input.
    #[tactic(auto, unfolding(crate::specs::Reading::part_at))]
    pub fn part(&mut self, n: usize) -> Option<Fields<'a>>
        ensures field { Reads (λ part. part) result self.old self.new (part_at n self.old) }
        ensures none { IsNone result ↔ (length self.old.ahead < n) }
    {
        let place = self.place;
        let left = self.bytes(n)?;
        Some(Fields { left, place })
    }

    /// How many bytes of the whole input lie before the next field.
    pub fn place(&self) -> usize
        ensures { result ≡ self.now.place }
    {
        self.place
    }

    /// Whether no byte is left.
    pub fn at_end(&self) -> bool
        ensures { result ≡ (length self.now.ahead == 0) }
    {
        self.left.is_empty()
    }

    /// The bytes that are left.
    pub fn left(&self) -> &'a [u8]
        ensures { result.now ≡ self.now.ahead }
    {
        self.left
    }

    /// A second reader that stands at the same place.
    pub fn copy(&self) -> Fields<'a>
        ensures { result ≡ self.now }
    {
        Fields {
            left: self.left,
            place: self.place,
        }
    }
}

/// Tells a proof that the numbers of a slice of bytes are bytes. It does nothing.
pub fn are_bytes(bytes: &[u8])
    ensures { AreBytes bytes.now }
{
    let _bytes = bytes;
}

/// Tells a proof that 32 bytes are a digest. It does nothing.
pub fn digest_told(digest: &[u8; 32])
    ensures { IsDigest digest.now }
{
    are_bytes(digest);
}

/// The big-endian number that four bytes are.
pub fn u32_of(bytes: &[u8]) -> u32
    requires { length bytes.now ≡ 4 }
    ensures { result ≡ from_be_bytes w32 bytes.now }
{
    u32::from_be_bytes([bytes[0], bytes[1], bytes[2], bytes[3]])
}
