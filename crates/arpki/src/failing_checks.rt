use ar_io::{QuietSink, QuietSource};
use arpki_play::arpki_main;
use log_restart::Disks;
use owner_check::FailingCheck;
use std::alloc::{AllocError, Global};
use std::test::Fail;

// A script in which an authority is asked four times, and knows the pair of name and key up to the last.
const ASKED_FOUR_TIMES: &str = "logs 5 4
authorities 4
owner D0
teach A0 a.example D0
teach A1 a.example D0
teach A2 a.example D0
register D0 a.example 2 keyed 10 1000 0,1,2 0,1,2
deliver 1 A0
deliver 1 A0
deliver 1 A0
forget A0 a.example D0
deliver 1 A0
";

// A script in which an owner asks again where its certificate is not submitted.
const ASKED_AGAIN: &str = "logs 5 4
authorities 4
owner D0
teach A0 a.example D0
teach A1 a.example D0
teach A2 a.example D0
register D0 a.example 2 keyed 10 1000 0,1,2 0,1,2
flush
submit 1
flush
deliver 1 A0
flush
submit 1
flush
propose L1
flush
ask L0 a.example A0 A1 C0
flush
judge last a.example 1 5
";

// A check with an empty book for each of four authorities, of which the first fails at one of its asks.
fn failing_checks(alloc: Global, fails: u64) -> Result<Vec<FailingCheck>, AllocError> {
    let mut checks = Vec::new(alloc);
    let mut first = Vec::new(alloc);
    first.push(fails)?;
    checks.push(FailingCheck::new(alloc, first))?;
    for _ in 1..4 {
        checks.push(FailingCheck::new(alloc, Vec::new(alloc)))?;
    }
    Ok(checks)
}

// The status of a script that is played so, how many bytes it wrote, and their SHA-256 in hex.
fn failing_run(alloc: Global, script: &str, fails: u64) -> Result<(u8, u64, String), AllocError> {
    let mut words = Vec::new(alloc);
    words.push(String::from_str(alloc, "play")?)?;
    let mut source = QuietSource::new(Vec::from_slice(alloc, script.as_bytes())?);
    let mut sink = QuietSink::new();
    let checks = failing_checks(alloc, fails)?;
    let mut disks = Disks::empty(alloc);
    let status = arpki_main(alloc, &words, &mut source, &mut sink, checks, &mut disks);
    let len = sink.len();
    let digest = sink.into_digest();
    Ok((status, len, hex::encode(alloc, digest.as_slice())?))
}

#[test]
fn an_authority_whose_check_fails_refuses(rt: HostRuntime) -> Result<(), Fail> {
    // The script, the ask of the first authority that fails, and what another program writes: its length and SHA-256.
    let runs = [
        (
            ASKED_FOUR_TIMES,
            2,
            1439,
            "b2e9e9a038b09f6a21284cb5041f43b9e5cf6aad624e1458de62da0713404f6a",
        ),
        (
            ASKED_AGAIN,
            1,
            3886,
            "349bd8ebf3f680616cbf7f4d58a28ecc23ec66f2d875ef5fa03e899815423bb1",
        ),
    ];
    for (script, fails, length, digest) in runs {
        let (status, len, hash) = failing_run(rt.alloc(), script, fails)?;
        assert_eq!(rt; (status, len), (0, length));
        assert_eq!(rt; hash.as_str(), digest);
    }
    Ok(())
}
