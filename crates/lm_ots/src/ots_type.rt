ghost use Rattle.std.specs.Prelude.{◌≡◌, ◌-◌, ◌^◌};
ghost use Rattle.lm_ots.specs.OtsKind.{count_of, number_of, shift_of, signature_len_of, type_of_number, width_of};

/// An LM-OTS type with SHA-256 and n = 32: each is named for its w, the width in bits of a digit
/// (RFC 8554, section 4.1, table 1).
#[derive(Clone, Copy, Debug, PartialEq, Eq)]
pub enum OtsType {
    /// Number 1: 265 digits of 1 bit, and a signature of 8,516 bytes.
    W1,
    /// Number 2: 133 digits of 2 bits, and a signature of 4,292 bytes.
    W2,
    /// Number 3: 67 digits of 4 bits, and a signature of 2,180 bytes.
    W4,
    /// Number 4: 34 digits of 8 bits, and a signature of 1,124 bytes.
    W8,
}

impl OtsType {
    /// The type of a number, which is `None` for a number that is none of 1 to 4.
    pub fn of(number: u32) -> Option<OtsType>
        ensures { result ≡ type_of_number number }
    {
        match number {
            1 => Some(OtsType::W1),
            2 => Some(OtsType::W2),
            3 => Some(OtsType::W4),
            4 => Some(OtsType::W8),
            _ => None,
        }
    }

    /// The type's number, as keys and signatures carry it.
    pub fn number(&self) -> u32
        ensures { result ≡ number_of self.now }
    {
        match self {
            OtsType::W1 => 1,
            OtsType::W2 => 2,
            OtsType::W4 => 3,
            OtsType::W8 => 4,
        }
    }

    /// w: the width of a digit in bits.
    pub fn w(&self) -> u32
        ensures { result ≡ width_of self.now }
    {
        match self {
            OtsType::W1 => 1,
            OtsType::W2 => 2,
            OtsType::W4 => 4,
            OtsType::W8 => 8,
        }
    }

    /// p: the number of chains, and so of a signature's elements.
    pub fn p(&self) -> usize
        ensures { result ≡ count_of self.now }
    {
        match self {
            OtsType::W1 => 265,
            OtsType::W2 => 133,
            OtsType::W4 => 67,
            OtsType::W8 => 34,
        }
    }

    /// ls: by how many bits the checksum is shifted left.
    pub fn ls(&self) -> u32
        ensures { result ≡ shift_of self.now }
    {
        match self {
            OtsType::W1 => 7,
            OtsType::W2 => 6,
            OtsType::W4 => 4,
            OtsType::W8 => 0,
        }
    }

    /// The length of a signature in bytes: the type in 4, C in 32, and p elements of 32.
    pub fn signature_len(&self) -> usize
        ensures { result ≡ signature_len_of self.now }
    {
        36 + 32 * self.p()
    }

    // 2^w - 1: the greatest digit, and the number of steps of a whole chain.
    pub(crate) fn last(&self) -> u8
        ensures { result ≡ 2 ^ width_of self.now - 1 }
    {
        match self {
            OtsType::W1 => 1,
            OtsType::W2 => 3,
            OtsType::W4 => 15,
            OtsType::W8 => 255,
        }
    }
}
