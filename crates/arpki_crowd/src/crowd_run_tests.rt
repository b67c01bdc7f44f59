use crate::meeting::Meeting;
use ar_io::{MemSink, QuietSource};
use crowd_run::{Gate, crowd_main};
use owner_check::empty_books;
use shared_node::Place;
use std::alloc::{AllocError, Global};
use std::sync::Wait;
use std::sync::atomic::{AtomicU64, Ordering};
use std::test::Fail;
use std::thread::Threads;

// A gate at which the deliveries 0 and 1 have to meet, and that notes the place of each of four.
#[derive(Drop)]
struct Crossing {
    meeting: Meeting,
    places: [AtomicU64; 4],
}

impl Crossing {
    fn new() -> Crossing {
        Crossing {
            meeting: Meeting::new(),
            places: [
                AtomicU64::new(0),
                AtomicU64::new(0),
                AtomicU64::new(0),
                AtomicU64::new(0),
            ],
        }
    }
}

impl Gate for Crossing {
    ghost passed = { λ _ _. Unit {0} };

    ghost noted = { λ _ _ _. Unit {0} };

    fn before(&self, number: u64) {
        if number < 2 {
            self.meeting.meet(number);
        }
    }

    // One more than the place; what has two places has a sum that is too great.
    fn after(&self, number: u64, place: &Place) {
        if let Some(noted) = self.places.get(number as usize) {
            noted.fetch_add(place.number().saturating_add(1), Ordering::SeqCst);
        }
    }
}

// The words `crowd` and a number of workers.
fn words_of(alloc: Global, workers: &str) -> Result<Vec<String>, AllocError> {
    let mut words = Vec::new(alloc);
    words.push(String::from_str(alloc, "crowd")?)?;
    words.push(String::from_str(alloc, workers)?)?;
    Ok(words)
}

// The status of a script that so many workers play, and what it wrote.
fn crowd<R: Threads + Wait + Sync, G: Gate>(
    rt: &R,
    alloc: Global,
    workers: &str,
    script: &str,
    gate: &G,
) -> Result<(u8, MemSink), AllocError> {
    let words = words_of(alloc, workers)?;
    let script = String::from_str(alloc, script)?;
    let mut source = QuietSource::new(script.into_bytes());
    let mut sink = MemSink::new(alloc, Vec::new(alloc));
    sink.reserve(alloc, 65536)?;
    let checks = empty_books(alloc, 16)?;
    let status = crowd_main(rt, alloc, &words, &mut source, &mut sink, checks, gate);
    Ok((status, sink))
}

// The place of a delivery in the printed order of a party; none where it does not stand there.
fn place_in(text: &str, party: &str, delivery: &str) -> Option<u64> {
    for line in text.lines() {
        if let Some(order) = line.strip_prefix("order ") {
            if let Some((who, numbers)) = order.split_once(' ') {
                if who == party {
                    return numbers
                        .split(' ')
                        .position(|number| number == delivery)
                        .map(|place| place as u64);
                }
            }
        }
    }
    None
}

#[test]
fn burst_meets(rt: HostRuntime) -> Result<(), Fail> {
    let gate = Crossing::new();
    let script = "logs 5 4
authorities 4
propose L1
burst
deliver 1 L0
deliver 1 L0
deliver 1 L2
deliver 1 L2
end
";
    let (status, sink) = crowd(&rt, rt.alloc(), "2", script, &gate)?;
    assert_eq!(rt; status, 0);
    assert!(rt; gate.meeting.is_met(), "the two workers did not meet");
    let Ok(text) = str::from_utf8(sink.written()) else {
        panic!(rt; "lines are text")
    };
    for (number, party) in [("0", "L0"), ("1", "L0"), ("2", "L2"), ("3", "L2")] {
        let noted = match number {
            "0" => &gate.places[0],
            "1" => &gate.places[1],
            "2" => &gate.places[2],
            _ => &gate.places[3],
        };
        let place = place_in(text, party, number).map(|place| place.saturating_add(1));
        assert_eq!(rt; place, Some(noted.load(Ordering::SeqCst)));
    }
    Ok(())
}
