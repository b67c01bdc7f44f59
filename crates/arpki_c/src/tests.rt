ghost use Rattle.std.specs.Prelude.{◌≤◌};

use crate::{
    CallAnswer, CallLesson, CallMap, CallQuestion, Entry, Followed, Keys, MapEntry, arpki_abi,
    arpki_connect, arpki_directory, arpki_follow, arpki_judge, arpki_judge_in, arpki_learn,
    arpki_staple, arpki_verify,
};
use ar_statement::Role;
use client_rule::RollNote;
use std::alloc::Global;
use std::test::Fail;
use table_map::{Lesson, ShownDirectory, recall};

// A key of the types 5 and 4 whose I is filled with one byte, and which has this root.
fn filled(fill: u8, root: [u8; 32]) -> [u8; 56] {
    let mut key = [fill; 56];
    key[..8].copy_from_slice(&[0, 0, 0, 5, 0, 0, 0, 4]);
    key[24..].copy_from_slice(&root);
    key
}

// The roots of keys that another implementation made to fit: each has a signature of one text in which all bytes that
// are free are the byte of its I.

// Log 1, for that at the end of epoch 5 a.example has the certificate below, at leaf 3.
fn log_root() -> [u8; 32] {
    [
        0xb9, 0x0a, 0xc8, 0x66, 0x33, 0x22, 0x4f, 0x06, 0x69, 0x05, 0x10, 0xa9, 0x11, 0xb5, 0xc8,
        0x71, 0x42, 0xda, 0xaf, 0xfb, 0x01, 0xcc, 0x8b, 0xd7, 0x44, 0x38, 0xcc, 0x39, 0x3a, 0x43,
        0xe2, 0x8c,
    ]
}

// Authority 0, for the same.
fn first_root() -> [u8; 32] {
    [
        0x3b, 0xda, 0xe2, 0x6a, 0x4d, 0x26, 0xca, 0x49, 0x3a, 0xd0, 0xf8, 0xb0, 0xc6, 0x69, 0x3a,
        0x1f, 0xef, 0xc0, 0x17, 0xb1, 0x50, 0xbc, 0xe9, 0x62, 0xd6, 0x87, 0xed, 0x7d, 0x29, 0x6d,
        0xd7, 0x46,
    ]
}

// Authority 2, for the same.
fn second_root() -> [u8; 32] {
    [
        0x66, 0xc8, 0x3e, 0x78, 0x4c, 0x8c, 0x8d, 0x06, 0x67, 0xd6, 0x53, 0xa6, 0x64, 0x1b, 0x57,
        0xd1, 0xdf, 0xf4, 0xc3, 0x82, 0x3f, 0xda, 0xb7, 0x64, 0x70, 0xb4, 0xb1, 0x71, 0x29, 0x60,
        0x94, 0x79,
    ]
}

// Abc at leaf 3.
fn abc_root() -> [u8; 32] {
    [
        0x36, 0xb8, 0x02, 0xef, 0xba, 0xcd, 0x3a, 0x71, 0x44, 0x9a, 0x0e, 0x7a, 0x30, 0xc0, 0xa0,
        0xee, 0xff, 0x15, 0xcc, 0x57, 0x44, 0xce, 0xd8, 0x5e, 0x6b, 0x49, 0x19, 0x59, 0xb0, 0x60,
        0x9b, 0x03,
    ]
}

// The Roll of log 0 from generation 0 to the key of abc, at the last leaf.
fn roll_root() -> [u8; 32] {
    [
        0xc1, 0x90, 0x59, 0xe1, 0xac, 0x84, 0x72, 0x3b, 0x4f, 0x43, 0x4c, 0x0b, 0xaa, 0xc0, 0x4c,
        0xdd, 0x98, 0xf7, 0xca, 0x9f, 0x62, 0xdf, 0xb5, 0x25, 0x6f, 0x46, 0xa5, 0xf3, 0x91, 0x05,
        0x49, 0x04,
    ]
}

// The root of the table of epoch 5.
fn table_root() -> [u8; 32] {
    [
        0xae, 0x4d, 0xff, 0x0d, 0x51, 0x28, 0x97, 0xa3, 0x51, 0x9d, 0xa0, 0xbd, 0xf5, 0xef, 0x62,
        0xac, 0x7e, 0xa5, 0x27, 0x98, 0xee, 0xef, 0x77, 0x66, 0x5b, 0xb5, 0xf7, 0xea, 0xd9, 0x28,
        0x6f, 0x00,
    ]
}

// The digest of the certificate.
fn certificate_digest() -> [u8; 32] {
    [
        0xac, 0xd2, 0xcf, 0xbe, 0xbb, 0xb4, 0x2a, 0x16, 0x61, 0xc2, 0x59, 0xc2, 0xf7, 0x78, 0xd9,
        0xfa, 0xca, 0xf5, 0xed, 0xe7, 0x83, 0xe6, 0xb1, 0x69, 0x86, 0xef, 0xb2, 0x17, 0x66, 0x02,
        0x58, 0x4e,
    ]
}

// The signature that fits, with this byte in all places that are free, of the generation 0 at a leaf.
fn fitting(fill: u8, leaf: u8) -> [u8; 1296] {
    let mut bytes = [fill; 1296];
    bytes[..12].copy_from_slice(&[0, 0, 0, 0, 0, 0, 0, leaf, 0, 0, 0, 4]);
    bytes[1132..1136].copy_from_slice(&[0, 0, 0, 5]);
    bytes
}

// The certificate of a.example, behind its length: no serial number before it, a subject key whose I is filled with 11
// and whose root with 22, and a policy for 1,000 epochs at an age of at most 10.
fn certificate() -> [u8; 132] {
    let mut bytes = [0u8; 132];
    bytes[..13].copy_from_slice(b"\x00\x82\x01\x09a.example");
    bytes[53..109].copy_from_slice(&filled(0x11, [0x22; 32]));
    bytes[109..].copy_from_slice(
        b"\x01\x02\x01\x00\x00\x00\x0a\x00\x00\x00\x00\x00\x00\x03\xe8\x03\x00\x00\x00\x01\x00\x02\x00",
    );
    bytes
}

// With the signature of the party of a role that has this number, behind its length, at a place.
fn with_signature(bytes: [u8; 4088], at: usize, number: u8, fill: u8) -> [u8; 4088]
    requires { at ≤ 2788 }
{
    let mut bytes = bytes;
    bytes[at..at + 4].copy_from_slice(&[0, number, 5, 16]);
    bytes[at + 4..at + 1300].copy_from_slice(&fitting(fill, 3));
    bytes
}

// The confirmation of log 1 and the authorities 0 and 2 that at the end of epoch 5 a.example has it.
fn confirmation() -> [u8; 4088] {
    let mut bytes = [0u8; 4088];
    bytes[..4].copy_from_slice(b"\x0c\x01\x00\x09");
    bytes[11..22].copy_from_slice(b"\x05\x09a.example");
    bytes[22..54].copy_from_slice(&table_root());
    bytes[54..186].copy_from_slice(&certificate());
    let log = with_signature(bytes, 188, 1, 0xa7);
    let first = with_signature(log, 1488, 0, 0xb8);
    with_signature(first, 2788, 2, 0xc9)
}

// The keys of the logs, of which log 0 is to roll.
fn logs() -> [[u8; 56]; 3] {
    [
        filled(0xa7, roll_root()),
        filled(0xa7, log_root()),
        filled(0xa7, abc_root()),
    ]
}

// The keys of the authorities.
fn authorities() -> [[u8; 56]; 3] {
    [
        filled(0xb8, first_root()),
        filled(0xa7, abc_root()),
        filled(0xc9, second_root()),
    ]
}

// The front of a RollNote of log 0 to the key of abc.
fn front_of_note() -> [u8; 1362] {
    let mut bytes = [0u8; 1362];
    bytes[..4].copy_from_slice(b"\x0d\x01\x00\x00");
    bytes[8..64].copy_from_slice(&filled(0xa7, abc_root()));
    bytes[64..66].copy_from_slice(b"\x05\x10");
    bytes
}

// The RollNote.
fn note() -> [u8; 1362] {
    let mut bytes = front_of_note();
    bytes[66..].copy_from_slice(&fitting(0xa7, 31));
    bytes
}

// An answer that nothing writes: each number in it is this one.
fn every(byte: u8) -> CallAnswer {
    CallAnswer {
        epoch: u64::from(byte),
        serial: u64::from(byte),
        subject: [byte; 56],
        certificate: [byte; 32],
        root: [byte; 32],
        outcome: u32::from(byte),
        check: u32::from(byte),
    }
}

// An outcome with a number, and nothing else.
fn alone(outcome: u32, check: u32) -> CallAnswer {
    CallAnswer {
        outcome,
        check,
        ..every(0)
    }
}

// That the certificate is accepted.
fn accepted() -> CallAnswer {
    CallAnswer {
        epoch: 5,
        subject: filled(0x11, [0x22; 32]),
        certificate: certificate_digest(),
        root: table_root(),
        ..every(0)
    }
}

// The question about a name, at an age of 4.
fn question<'a>(name: &'a [u8], epoch: u64, confirmation: &'a [u8]) -> CallQuestion<'a> {
    CallQuestion {
        name,
        confirmation,
        epoch,
        age: 4,
    }
}

// What is judged of a confirmation of a name, in an epoch, with a quorum.
fn judged(alloc: Global, quorum: usize, name: &[u8], epoch: u64, bytes: &[u8]) -> CallAnswer {
    let (logs, authorities) = (logs(), authorities());
    let keys = Keys {
        logs: &logs,
        authorities: &authorities,
        learnt: &[],
        quorum,
    };
    let mut answer = every(77);
    arpki_judge(alloc, &keys, &question(name, epoch, bytes), &mut answer);
    answer
}

// What is made of a server that responds so to a challenge.
fn connected(alloc: Global, name: &[u8], response: &[u8]) -> CallAnswer {
    let (logs, authorities) = (logs(), authorities());
    let keys = Keys {
        logs: &logs,
        authorities: &authorities,
        learnt: &[],
        quorum: 3,
    };
    let bytes = confirmation();
    let mut answer = every(77);
    arpki_connect(
        alloc,
        &keys,
        &question(name, 9, &bytes),
        &[1; 32],
        response,
        &mut answer,
    );
    answer
}

// What is made of a server that shows this staple.
fn stapled(alloc: Global, name: &[u8], staple: &[u8]) -> CallAnswer {
    let (logs, authorities) = (logs(), authorities());
    let keys = Keys {
        logs: &logs,
        authorities: &authorities,
        learnt: &[],
        quorum: 3,
    };
    let bytes = confirmation();
    let mut answer = every(77);
    arpki_staple(
        alloc,
        &keys,
        &question(name, 9, &bytes),
        &[1; 32],
        staple,
        &mut answer,
    );
    answer
}

// What is told of the confirmation, a pin and links.
fn pinned(alloc: Global, epoch: u64, pin: &[u8], links: &[u8]) -> Followed {
    let (logs, authorities) = (logs(), authorities());
    let keys = Keys {
        logs: &logs,
        authorities: &authorities,
        learnt: &[],
        quorum: 3,
    };
    let bytes = confirmation();
    let asked = question(b"a.example", epoch, &bytes);
    let mut followed = Followed {
        answer: every(77),
        first_len: 77,
        links: 77,
        keep: 77,
        first: [77; 412],
    };
    arpki_follow(alloc, &keys, &asked, pin, links, &mut followed);
    followed
}

// An answer, and nothing to keep.
fn keeping_nothing(answer: CallAnswer) -> Followed {
    Followed {
        answer,
        first_len: 0,
        links: 0,
        keep: 0,
        first: [0; 412],
    }
}

// The text of a change of the certificate, with another byte at a place, which no signature vouches for.
fn first(place: usize, byte: u8) -> [u8; 134]
    requires { place ≤ 133 }
{
    let mut bytes = [0u8; 134];
    bytes[..132].copy_from_slice(&certificate());
    bytes[place] = byte;
    bytes
}

// The text of the change of the certificate, and zero bytes.
fn first_field() -> [u8; 412] {
    let mut bytes = [0u8; 412];
    bytes[..134].copy_from_slice(&first(131, 0));
    bytes
}

// The text twice.
fn twice() -> [u8; 268] {
    let mut bytes = [0u8; 268];
    bytes[..134].copy_from_slice(&first(131, 0));
    bytes[134..].copy_from_slice(&first(131, 0));
    bytes
}

// What is told where the pin is the beginning of such a text, and the links are that of the text of the certificate.
fn pinned_cut(
    alloc: Global,
    epoch: u64,
    place: usize,
    byte: u8,
    len: usize,
    links: usize,
) -> Followed
    requires { (place ≤ 133) × (len ≤ 134) × (links ≤ 134) }
{
    pinned(
        alloc,
        epoch,
        &first(place, byte)[..len],
        &first(131, 0)[..links],
    )
}

// What is learnt of bytes behind these entries.
fn learnt(alloc: Global, entries: &[Entry], bytes: &[u8]) -> CallLesson {
    let (logs, authorities) = (logs(), authorities());
    let keys = Keys {
        logs: &logs,
        authorities: &authorities,
        learnt: entries,
        quorum: 3,
    };
    let mut lesson = CallLesson {
        entry: Entry {
            generation: 77,
            number: 77,
            role: 77,
            key: [77; 56],
        },
        outcome: 77,
        check: 77,
    };
    arpki_learn(alloc, &keys, bytes, &mut lesson);
    lesson
}

// An entry of log 0.
fn entry(role: u16, key: [u8; 56]) -> Entry {
    Entry {
        generation: 0,
        number: 0,
        role,
        key,
    }
}

#[test]
fn a_confirmation_is_judged(rt: HostRuntime) {
    let told = judged(rt.alloc(), 3, b"a.example", 9, &confirmation());
    assert!(rt; told == accepted());
    for (quorum, name, now, len, outcome, check) in [
        (3usize, b"a.example", 9u64, 4087usize, 2u32, 1u32),
        (3, b"b.example", 9, 4088, 2, 2),
        (3, b"a.example", 4, 4088, 2, 8),
        (3, b"a.example", 10, 4088, 2, 9),
        (2, b"a.example", 9, 4088, 4, 3),
    ] {
        assert!(rt; len <= 4088);
        let told = judged(rt.alloc(), quorum, name, now, &confirmation()[..len]);
        assert!(rt; told == alone(outcome, check), "{outcome} {check}");
    }
}

#[test]
fn a_server_has_to_respond(rt: HostRuntime) {
    let short = connected(rt.alloc(), b"a.example", &[]);
    assert!(rt; short == alone(5, 1));
    let other = connected(rt.alloc(), b"a.example", &fitting(0xa7, 3)[4..]);
    assert!(rt; other == alone(5, 5));
    let refused = connected(rt.alloc(), b"b.example", &[]);
    assert!(rt; refused == alone(2, 2));
}

#[test]
fn a_server_shows_no_valid_staple(rt: HostRuntime) {
    let short = stapled(rt.alloc(), b"a.example", &[]);
    assert!(rt; short == alone(5, 1));
    let other = stapled(rt.alloc(), b"a.example", &fitting(0xa7, 3)[4..]);
    assert!(rt; other == alone(5, 5));
    let refused = stapled(rt.alloc(), b"b.example", &[]);
    assert!(rt; refused == alone(2, 2));
}

#[test]
fn a_certificate_is_pinned(rt: HostRuntime) {
    let told = pinned(rt.alloc(), 9, &[], &[]);
    let expected = Followed {
        first_len: 134,
        keep: 1,
        first: first_field(),
        ..keeping_nothing(accepted())
    };
    assert!(rt; told == expected);
    let again = pinned_cut(rt.alloc(), 9, 131, 0, 134, 0);
    assert!(rt; again == keeping_nothing(accepted()));
    let doubled = pinned(rt.alloc(), 9, &twice(), &[]);
    assert!(rt; doubled == keeping_nothing(alone(13, 3)));
}

#[test]
fn what_is_pinned_decides(rt: HostRuntime) {
    for (place, byte, len, links, epoch, outcome, check) in [
        // The pinned certificate expires an epoch earlier.
        (123usize, 0xe7u8, 134usize, 0usize, 9u64, 7u32, 0u32),
        // A link that nobody endorses.
        (123, 0xe7, 134, 134, 9, 9, 3),
        (131, 0, 134, 0, 10, 2, 9),
        (131, 0, 133, 0, 9, 13, 1),
        // Another name.
        (4, 0x62, 134, 0, 9, 13, 2),
        (131, 0, 134, 133, 9, 14, 0),
    ] {
        assert!(rt; place <= 133 && len <= 134 && links <= 134);
        let told = pinned_cut(rt.alloc(), epoch, place, byte, len, links);
        assert!(rt;
            told == keeping_nothing(alone(outcome, check)),
            "{outcome} {check}"
        );
    }
}

#[test]
fn a_key_is_learnt_once(rt: HostRuntime) {
    let first = learnt(rt.alloc(), &[], &note());
    assert!(rt; first.entry == entry(1, filled(0xa7, abc_root())));
    assert_eq!(rt; (first.outcome, first.check), (0, 0));
    let again = learnt(rt.alloc(), &[first.entry], &note());
    assert!(rt; again.entry == entry(0, [0; 56]));
    assert_eq!(rt; (again.outcome, again.check), (1, 0));
}

#[test]
fn what_is_no_lesson_has_no_entry(rt: HostRuntime) {
    let other = entry(1, filled(0xa7, roll_root()));
    let wrong = entry(3, filled(0xa7, roll_root()));
    for (behind, len, number, outcome, check) in [
        (None, 1361usize, 0u8, 2u32, 0u32),
        (None, 1362, 3, 5, 0),
        (None, 1362, 1, 6, 5),
        (Some(other), 1362, 0, 7, 0),
        (Some(wrong), 1362, 0, 4, 6),
    ] {
        assert!(rt; len <= 1362);
        let mut bytes = note();
        bytes[3] = number;
        let lesson = match behind {
            Some(entry) => learnt(rt.alloc(), &[entry], &bytes[..len]),
            None => learnt(rt.alloc(), &[], &bytes[..len]),
        };
        assert!(rt; lesson.entry == entry(0, [0; 56]));
        assert_eq!(rt; (lesson.outcome, lesson.check), (outcome, check));
    }
}

#[test]
fn a_signature_has_a_number(rt: HostRuntime) {
    assert_eq!(rt; arpki_abi(), 1);
    let key = filled(0xa7, abc_root());
    let signature = fitting(0xa7, 3);
    assert_eq!(rt; arpki_verify(&key, b"abc", &signature[4..]), 0);
    assert_eq!(rt; arpki_verify(&key, b"abd", &signature[4..]), 5);
    assert_eq!(rt; arpki_verify(&key, b"abc", &signature), 1);
    assert_eq!(rt; arpki_verify(&[0; 56], b"abc", &signature), 6);
}

// The root of a map of two tables by which the directory is that of table 0, if its one step is 32 bytes of 33: another
// implementation made it.
fn map_root() -> [u8; 32] {
    [
        0xa7, 0xb0, 0x7a, 0x64, 0x6c, 0x21, 0x2e, 0xd7, 0x97, 0x04, 0xc9, 0xc5, 0x9c, 0x46, 0x18,
        0x57, 0x85, 0x0d, 0x60, 0xf8, 0x74, 0xfd, 0x3a, 0x35, 0xe5, 0x2c, 0xc4, 0x73, 0xfc, 0x7f,
        0x0f, 0x43,
    ]
}

// And the digest of the directory.
fn directory_digest() -> [u8; 32] {
    [
        0x53, 0x4e, 0xcb, 0x8e, 0xcb, 0x30, 0xf8, 0x35, 0xbd, 0xfc, 0x09, 0xec, 0xab, 0x21, 0xd8,
        0x20, 0x4e, 0x4e, 0x6f, 0xdb, 0x5f, 0x62, 0x7f, 0x69, 0x50, 0x2c, 0xf1, 0x82, 0x8a, 0xdd,
        0xfc, 0x04,
    ]
}

// With the keys of the parties of a role at a place.
fn with_keys(bytes: [u8; 375], at: usize, keys: &[[u8; 56]; 3]) -> [u8; 375]
    requires { at ≤ 207 }
{
    let mut bytes = bytes;
    bytes[at..at + 56].copy_from_slice(&keys[0]);
    bytes[at + 56..at + 112].copy_from_slice(&keys[1]);
    bytes[at + 112..at + 168].copy_from_slice(&keys[2]);
    bytes
}

// The directory as it is shown, as that of a table, by this step.
fn shown(table: u8, step: u8) -> [u8; 375] {
    let mut bytes = [step; 375];
    bytes[..7].copy_from_slice(&[0, 0, 0, table, 3, 3, 3]);
    with_keys(with_keys(bytes, 7, &logs()), 175, &authorities())
}

// An entry of no role, that a directory with this digest would have learnt.
fn no_entry(directory: [u8; 32]) -> MapEntry {
    MapEntry {
        directory,
        entry: Entry {
            generation: 0,
            number: 0,
            role: 0,
            key: [0; 56],
        },
    }
}

// What is judged of the confirmation in an epoch, under a map of 2 ^ bits tables, by what is shown.
fn judged_in(alloc: Global, bits: u8, learnt: &[MapEntry], epoch: u64, shown: &[u8]) -> CallAnswer {
    let map = CallMap {
        learnt,
        root: map_root(),
        bits,
    };
    let bytes = confirmation();
    let asked = question(b"a.example", epoch, &bytes);
    let mut answer = every(77);
    arpki_judge_in(alloc, &map, &asked, shown, &mut answer);
    answer
}

#[test]
fn a_map_has_the_directory(rt: HostRuntime) {
    let told = judged_in(rt.alloc(), 1, &[], 9, &shown(0, 0x33));
    assert!(rt; told == accepted());
    for (bits, table, step, len, epoch, outcome, check) in [
        (1u8, 0u8, 0x33u8, 375usize, 10u64, 2u32, 9u32),
        (1, 0, 0x33, 342, 9, 15, 0),
        (1, 1, 0x33, 375, 9, 16, 0),
        (1, 0, 0x34, 375, 9, 17, 0),
        (1, 0, 0x33, 374, 9, 17, 0),
        (0, 0, 0x33, 375, 9, 17, 0),
        (25, 0, 0x33, 375, 9, 18, 0),
    ] {
        assert!(rt; len <= 375);
        let told = judged_in(rt.alloc(), bits, &[], epoch, &shown(table, step)[..len]);
        assert!(rt; told == alone(outcome, check), "{outcome} {check}");
    }
}

#[test]
fn a_directory_has_its_own_entries(rt: HostRuntime) {
    let bytes = shown(0, 0x33);
    let mut digest = [77; 32];
    let told = arpki_directory(rt.alloc(), &bytes, &mut digest);
    assert!(rt; told == 0 && digest == directory_digest());
    let own = judged_in(rt.alloc(), 1, &[no_entry(digest)], 9, &bytes);
    assert!(rt; own == alone(4, 6));
    let other = judged_in(rt.alloc(), 1, &[no_entry([0; 32])], 9, &bytes);
    assert!(rt; other == accepted());
    let none = arpki_directory(rt.alloc(), &[], &mut digest);
    assert!(rt; none == 15 && digest == [0; 32]);
}

// Whether the directory that is shown knows the next key of log 0, behind a lesson that was learnt under this digest.
fn knows_next(alloc: Global, under: [u8; 32]) -> Option<bool> {
    let bytes = shown(0, 0x33);
    let shown = ShownDirectory::read(alloc, &bytes).ok()?;
    let note = RollNote::read(alloc, &note()).ok()??;
    let lessons = [Lesson { under, note: &note }];
    let directory = recall(alloc, shown.directory, &lessons).ok()?;
    let next = directory.key(Role::LogServer.party(0), 1);
    Some(next.is_some())
}

#[test]
fn a_directory_recalls_its_own_lessons(rt: HostRuntime) {
    assert!(rt; knows_next(rt.alloc(), directory_digest()) == Some(true));
    assert!(rt; knows_next(rt.alloc(), [0; 32]) == Some(false));
}
