use crate::meeting::Meeting;
use ar_io::{MemSink, QuietSource};
use crowd_run::{Gate, crowd_main};
use owner_check::empty_books;
use std::alloc::{AllocError, Global};
use std::sync::Wait;
use std::test::Fail;
use std::thread::Threads;

// The words `serve` and a number of workers.
fn words_of(alloc: Global, workers: &str) -> Result<Vec<String>, AllocError> {
    let mut words = Vec::new(alloc);
    words.push(String::from_str(alloc, "serve")?)?;
    words.push(String::from_str(alloc, workers)?)?;
    Ok(words)
}

// An input with so many challenges, no two of which are the same.
fn input_of(alloc: Global, challenges: u8) -> Result<String, AllocError> {
    let mut text = String::from_str(
        alloc,
        "secret 0000000000000000000000000000000000000000000000000000000000000000
name a.example
certificate 1111111111111111111111111111111111111111111111111111111111111111
",
    )?;
    for number in 0..challenges {
        let challenge = hex::encode(alloc, &[number; 32])?;
        text.push_str("challenge ")?;
        text.push_str(challenge.as_str())?;
        text.push_str("\n")?;
    }
    Ok(text)
}

// The status of a run of so many workers over so many challenges, and what it wrote.
fn serve<R: Threads + Wait + Sync, G: Gate>(
    rt: &R,
    alloc: Global,
    workers: &str,
    challenges: u8,
    gate: &G,
) -> Result<(u8, MemSink), AllocError> {
    let words = words_of(alloc, workers)?;
    let input = input_of(alloc, challenges)?;
    let mut source = QuietSource::new(input.into_bytes());
    let mut sink = MemSink::new(alloc, Vec::new(alloc));
    sink.reserve(alloc, 8192)?;
    let checks = empty_books(alloc, 0)?;
    let status = crowd_main(rt, alloc, &words, &mut source, &mut sink, checks, gate);
    Ok((status, sink))
}

// The leaf that the line of an answer tells; none where no leaf was left.
fn leaf_of(line: &str) -> Option<usize> {
    let (_, told) = line.split_once(" leaf ")?;
    let (leaf, _) = told.split_once(' ')?;
    leaf.parse::<usize>().ok()
}

// How often each leaf is told by the lines of answers, which stand behind the first.
fn times_of(text: &str) -> [u8; 32] {
    let mut times = [0u8; 32];
    for line in text.lines().skip(1) {
        if let Some(leaf) = leaf_of(line) {
            if let Some(times) = times.get_mut(leaf) {
                *times = times.saturating_add(1);
            }
        }
    }
    times
}

#[test]
fn serve_meets(rt: HostRuntime) -> Result<(), Fail> {
    let meeting = Meeting::new();
    let (status, sink) = serve(&rt, rt.alloc(), "2", 2, &meeting)?;
    assert_eq!(rt; status, 0);
    assert!(rt; meeting.is_met(), "the two workers did not meet");
    let Ok(text) = str::from_utf8(sink.written()) else {
        panic!(rt; "lines are text")
    };
    let mut expected = [0u8; 32];
    expected[0] = 1;
    expected[1] = 1;
    assert_eq!(rt; times_of(text), expected);
    Ok(())
}
