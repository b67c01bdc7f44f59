/// What a caller asks of a confirmation.
#[repr(C)]
#[derive(Drop)]
pub struct CallQuestion<'a> {
    /// The name of the domain.
    pub name: &'a [u8],
    /// The bytes of the confirmation.
    pub confirmation: &'a [u8],
    /// The current epoch.
    pub epoch: u64,
    /// How many epochs old a confirmation may be.
    pub age: u64,
}
