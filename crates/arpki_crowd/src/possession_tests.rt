ghost use Rattle.std.specs.Prelude.{◌≡◌, IfOk, length};
ghost use Rattle.ar_seats.specs.Shares.{whole};
ghost use Rattle.lms_tree.specs.Signature.{lms_signature_len_of};

use ar_names::Name;
use lm_ots::OtsType;
use lms_tree::{LmsKey, LmsPublic, LmsType};
use party_keys::Directory;
use possession::{Connection, LeafSeat, Server, connect};
use sha2::{Digest, Sha256};
use std::alloc::{AllocError, Global};
use std::test::Fail;

// What another program wrote: a confirmation of epoch 5 that a.example has a certificate with the max age 10, whose
// subject key is that of the seed with the types 5 and 3. It is given up to the signatures.
fn front() -> [u8; 184] {
    [
        0x0c, 0x01, 0x00, 0x09, 0x00, 0x00, 0x00, 0x00, 0x00, 0x00, 0x00, 0x05, 0x09, 0x61, 0x2e,
        0x65, 0x78, 0x61, 0x6d, 0x70, 0x6c, 0x65, 0xcd, 0x4f, 0xde, 0x15, 0x3e, 0x0b, 0x4a, 0xfc,
        0x32, 0x76, 0x0e, 0x48, 0x3d, 0xac, 0x0b, 0x94, 0xed, 0xea, 0x7c, 0x6d, 0x75, 0x25, 0xfa,
        0x37, 0xad, 0x73, 0xcd, 0x10, 0xc1, 0x1a, 0x94, 0xd2, 0x00, 0x80, 0x01, 0x09, 0x61, 0x2e,
        0x65, 0x78, 0x61, 0x6d, 0x70, 0x6c, 0x65, 0x00, 0x00, 0x00, 0x00, 0x00, 0x00, 0x00, 0x07,
        0x33, 0x33, 0x33, 0x33, 0x33, 0x33, 0x33, 0x33, 0x33, 0x33, 0x33, 0x33, 0x33, 0x33, 0x33,
        0x33, 0x33, 0x33, 0x33, 0x33, 0x33, 0x33, 0x33, 0x33, 0x33, 0x33, 0x33, 0x33, 0x33, 0x33,
        0x33, 0x33, 0x00, 0x00, 0x00, 0x05, 0x00, 0x00, 0x00, 0x03, 0xb2, 0x63, 0xa6, 0x12, 0x64,
        0xe4, 0xd2, 0x67, 0x04, 0x8f, 0x3c, 0x3f, 0x6e, 0x36, 0x86, 0x26, 0xfb, 0xa2, 0x0c, 0x8a,
        0x11, 0x95, 0xc1, 0x8c, 0x17, 0xd6, 0x3f, 0xc2, 0x37, 0x88, 0x32, 0xe0, 0xdf, 0x17, 0x38,
        0xd0, 0xfa, 0x03, 0xef, 0x71, 0xc4, 0xd2, 0x60, 0x66, 0x8b, 0x93, 0xe8, 0xa1, 0x01, 0x02,
        0x01, 0x00, 0x00, 0x00, 0x0a, 0x00, 0x00, 0x00, 0x00, 0x00, 0x00, 0x00, 0x63, 0x02, 0x00,
        0x00, 0x00, 0x02, 0x00,
    ]
}

// The digest of the certificate.
fn certificate_digest() -> [u8; 32] {
    [
        0x36, 0x6b, 0x9d, 0x32, 0x0c, 0x50, 0x1f, 0xcb, 0xc1, 0x86, 0x14, 0xed, 0x56, 0x6a, 0xa4,
        0x54, 0x74, 0x04, 0xab, 0x3b, 0x2b, 0x29, 0x96, 0xf3, 0x2c, 0x45, 0xa1, 0xe6, 0xa9, 0xce,
        0x1d, 0x25,
    ]
}

// The roots of keys of types 5 and 4 that the other program made to fit: at leaf 3 each has a signature
// of its party's statement in which all bytes that are free are a7.
fn log_root() -> [u8; 32] {
    [
        0x44, 0x8c, 0x94, 0x94, 0xe9, 0xbc, 0x75, 0xbb, 0x62, 0x10, 0xca, 0x70, 0x5e, 0x09, 0x8f,
        0x06, 0x2d, 0x7b, 0xc6, 0xb4, 0x58, 0x88, 0x13, 0x04, 0x45, 0xe3, 0x14, 0x14, 0x39, 0x9e,
        0x07, 0xb5,
    ]
}

fn first_root() -> [u8; 32] {
    [
        0x5c, 0x0f, 0xd7, 0xda, 0xfe, 0x3e, 0xe6, 0xfd, 0xb5, 0xb6, 0x31, 0x98, 0xc8, 0x64, 0x5d,
        0x30, 0x5f, 0xaa, 0xd8, 0x0d, 0xae, 0x4a, 0xba, 0xef, 0x2e, 0xe1, 0x88, 0x2f, 0xb5, 0xdb,
        0xdc, 0x5e,
    ]
}

fn second_root() -> [u8; 32] {
    [
        0x67, 0xd6, 0x66, 0x72, 0xb6, 0xdf, 0x17, 0x94, 0x5e, 0xc8, 0x2d, 0x7e, 0x4c, 0xed, 0x02,
        0xb7, 0x8d, 0xc7, 0x3c, 0x95, 0x21, 0x96, 0xba, 0x9b, 0xc0, 0x61, 0x8f, 0xb3, 0xc0, 0x80,
        0x18, 0x5c,
    ]
}

fn key(root: [u8; 32]) -> LmsPublic {
    LmsPublic {
        lms: LmsType::H5,
        ots: OtsType::W8,
        id: [0xa7; 16],
        root,
    }
}

// Log 2, authority 0 and authority 1 have the keys that fit.
fn directory(alloc: Global) -> Result<Option<Directory>, AllocError> {
    let logs = [key(log_root()); 3].to_vec(alloc)?;
    let authorities = [key(first_root()), key(second_root()), key(log_root())].to_vec(alloc)?;
    Ok(Directory::new(logs, authorities, 3).ok())
}

// The number of a party, and the signature that fits, of generation 0.
fn sign(out: &mut Vec<u8>, number: u8) -> Result<(), AllocError> {
    let mut bytes = [0xa7; 1300];
    bytes[..4].copy_from_slice(&[0, number, 5, 16]);
    bytes[4..16].copy_from_slice(&[0, 0, 0, 0, 0, 0, 0, 3, 0, 0, 0, 4]);
    bytes[1136..1140].copy_from_slice(&[0, 0, 0, 5]);
    out.extend_from_slice(&bytes)
}

// The confirmation, which needs no step.
fn confirmation(alloc: Global) -> Result<Vec<u8>, AllocError> {
    let mut bytes = Vec::from_slice(alloc, &front())?;
    bytes.extend_from_slice(&[0, 0])?;
    sign(&mut bytes, 2)?;
    sign(&mut bytes, 0)?;
    sign(&mut bytes, 1)?;
    Ok(bytes)
}

// What a client makes of a server: 0 where the connection is open, 100 and the number of a condition where the
// answer is not valid, and the number of a check where the confirmation is refused.
fn outcome(connection: &Connection) -> u8 {
    match connection {
        Connection::Open { .. } => 0,
        Connection::Absent { .. } => 99,
        Connection::Refused(check) => *check,
        Connection::NoPossession(condition) => condition.saturating_add(100),
    }
}

// The serial number and the epoch that an open connection tells, where its digest is that of the certificate.
fn told(connection: &Connection) -> Option<(u64, u64)> {
    match connection {
        Connection::Open {
            certificate,
            digest,
            epoch,
            root: _,
        } if *digest == certificate_digest() => Some((certificate.serial(), *epoch)),
        _ => None,
    }
}

// A server of the name, its first seat, and room for a signature.
fn serve(alloc: Global) -> Result<(Server, LeafSeat, Vec<u8>), Fail>
    ensures own { IfOk result (λ made. made.1.book ≡ made.0.book) }
    ensures share { IfOk result (λ made. made.1.share ≡ whole) }
    ensures room { IfOk result (λ made.
        length made.2.items ≡ lms_signature_len_of made.0.key.lms made.0.key.ots) }
{
    let key = LmsKey::make(alloc, &[0x5a; 32], 5, 3)?;
    let room = vec![in alloc; 7u8; key.signature_len()]?;
    let name = Name::read(alloc, b"a.example")?;
    let (server, seat) = Server::new(alloc, name, certificate_digest(), key)?;
    Ok((server, seat, room))
}

// The answer to the challenge of 32 zero bytes.
fn answer_to_zeros(alloc: Global) -> Result<Vec<u8>, Fail> {
    let (server, mut seat, mut answer) = serve(alloc)?;
    server.answer(&mut seat, &[0; 32], &mut answer)?;
    Ok(answer)
}

// The SHA-256 of some bytes, in hex.
fn sha256(alloc: Global, bytes: &[u8]) -> Result<String, AllocError> {
    hex::encode(alloc, Sha256::digest(bytes).as_slice())
}

#[test]
fn an_answer_opens_the_connection_for_its_challenge_alone(rt: HostRuntime) -> Result<(), Fail> {
    let Some(directory) = directory(rt.alloc())? else {
        panic!(rt; "no directory")
    };
    let bytes = confirmation(rt.alloc())?;
    let answer = answer_to_zeros(rt.alloc())?;
    // The name, the epoch, a byte of the challenge, and what the client makes of it.
    for (name, now, byte, expected) in [
        (b"a.example", 9u64, 0u8, 0u8),
        (b"a.example", 9, 0xff, 105),
        (b"b.example", 9, 0, 2),
        (b"a.example", 4, 0, 8),
        (b"a.example", 10, 0xff, 9),
    ] {
        let connection = connect(&directory, name, &bytes, now, 4, &[byte; 32], &answer);
        assert_eq!(rt; outcome(&connection), expected, "{name:?} {now} {byte}");
    }
    let connection = connect(&directory, b"a.example", &bytes, 9, 4, &[0; 32], b"");
    assert_eq!(rt; outcome(&connection), 101);
    let connection = connect(&directory, b"a.example", &bytes, 9, 4, &[0; 32], &answer);
    assert_eq!(rt; told(&connection), Some((7, 5)));
    Ok(())
}

#[test]
fn an_answer_and_a_handover_are_signed_as_by_another_program(rt: HostRuntime) -> Result<(), Fail> {
    let (server, mut seat, mut answer) = serve(rt.alloc())?;
    assert_eq!(rt;
        server.answer(&mut seat, &[0; 32], &mut answer).ok(),
        Some(0)
    );
    assert_eq!(rt;
        sha256(rt.alloc(), &answer)?.as_str(),
        "17e08eff4e25f9e73ee0843b323f5ac826fe24f2e33b8ca8f48fd4324a453620"
    );
    assert_eq!(rt;
        server.handover(&mut seat, &[0x11; 32], &mut answer).ok(),
        Some(1)
    );
    assert_eq!(rt;
        sha256(rt.alloc(), &answer)?.as_str(),
        "f471ea8ab51e3f4ec2a19f609038b3f1b1d0898d2bfac89ac2586bb49fefa8a1"
    );
    assert_eq!(rt; server.close(seat), 2);
    Ok(())
}
