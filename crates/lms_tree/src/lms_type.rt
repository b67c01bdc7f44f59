ghost use Rattle.std.specs.Prelude.{◌≡◌};
ghost use Rattle.lms_tree.specs.LmsKind.{height_of, leaves_of, number_of, type_of_number};

/// An LMS type with SHA-256 and m = 32: each is named for its h, the height of its tree (RFC 8554,
/// section 5.1, table 2).
#[derive(Clone, Copy, Debug, PartialEq, Eq)]
pub enum LmsType {
    /// Number 5: 32 leaves.
    H5,
    /// Number 6: 1,024 leaves.
    H10,
    /// Number 7: 32,768 leaves.
    H15,
    /// Number 8: 1,048,576 leaves. Signatures under such keys are judged; no such key is made.
    H20,
    /// Number 9: 33,554,432 leaves. Signatures under such keys are judged; no such key is made.
    H25,
}

impl LmsType {
    /// The type of a number, which is `None` for a number that is none of 5 to 9.
    pub fn of(number: u32) -> Option<LmsType>
        ensures { result ≡ type_of_number number }
    {
        match number {
            5 => Some(LmsType::H5),
            6 => Some(LmsType::H10),
            7 => Some(LmsType::H15),
            8 => Some(LmsType::H20),
            9 => Some(LmsType::H25),
            _ => None,
        }
    }

    /// The type's number, as keys and signatures carry it.
    pub fn number(&self) -> u32
        ensures { result ≡ number_of self.now }
    {
        match self {
            LmsType::H5 => 5,
            LmsType::H10 => 6,
            LmsType::H15 => 7,
            LmsType::H20 => 8,
            LmsType::H25 => 9,
        }
    }

    /// h: the height of the tree.
    pub fn height(&self) -> u32
        ensures { result ≡ height_of self.now }
    {
        match self {
            LmsType::H5 => 5,
            LmsType::H10 => 10,
            LmsType::H15 => 15,
            LmsType::H20 => 20,
            LmsType::H25 => 25,
        }
    }
    /// 2^h: the number of leaves.
    pub fn leaves(&self) -> u32
        ensures { result ≡ leaves_of self.now }
    {
        match self {
            LmsType::H5 => 1 << 5,
            LmsType::H10 => 1 << 10,
            LmsType::H15 => 1 << 15,
            LmsType::H20 => 1 << 20,
            LmsType::H25 => 1 << 25,
        }
    }
}
