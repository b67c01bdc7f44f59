//! A key, a policy and a root, which is the one that another program gives.

/// The public key of a.example, which is owner 0's.
pub(crate) fn owner_key() -> &'static [u8; 56] {
    b"\x00\x00\x00\x05\x00\x00\x00\x03\x91\xb8\xc6\x9c\x81\xc1\x0d\x06\xc3\x0f\xb4\xa1\x9a\x4a\x3c\xcf\x1b\xc9\x77\xce\x31\x63\xaa\x5e\x75\x6f\xcd\x77\x81\x45\xf8\xd7\x1e\x0f\xa1\xc9\x70\xcc\xd4\xec\x40\xdc\x9e\x75\xb1\x04\x22\x3a"
}

/// A policy with a wait of 3 epochs: it trusts the authorities 0 and 1 with the threshold 2, and is not keyed.
pub(crate) fn free() -> &'static [u8] {
    b"\x02\x02\x00\x00\x00\x00\x64\x00\x00\x00\x00\x00\x00\x03\xe8\x02\x00\x00\x00\x01\x00\x03"
}

/// The seed of the key of a.example.
pub(crate) fn owner_seed() -> [u8; 32] {
    [
        0x5c, 0x99, 0xfd, 0xaf, 0x02, 0xe9, 0x96, 0x89, 0x4e, 0x1a, 0x9c, 0x5a, 0x52, 0x00, 0x92,
        0x69, 0x58, 0x1a, 0x0c, 0xe6, 0x0c, 0x8c, 0x92, 0x39, 0xb3, 0xd5, 0xb0, 0xf3, 0x97, 0x4a,
        0xd2, 0x85,
    ]
}

/// The root where a.example has 4,095 certificates, and one more waits since epoch 2.
pub(crate) fn full_root() -> [u8; 32] {
    [
        0xf6, 0x77, 0x58, 0xc8, 0xed, 0x1f, 0xb9, 0xe7, 0x07, 0x3f, 0x91, 0xbe, 0x05, 0xa0, 0xc2,
        0x3e, 0xdd, 0xe0, 0x1f, 0x60, 0x0e, 0x4c, 0x9d, 0xa8, 0x3a, 0x2a, 0x04, 0x02, 0xa6, 0x0e,
        0x60, 0x8f,
    ]
}
