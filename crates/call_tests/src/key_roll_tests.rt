use ar_statement::Role;
use key_roll::{RollBook, RollFault, forgo};
use lm_ots::OtsType;
use lms_tree::{LmsPublic, LmsType};
use std::alloc::{AllocError, Global};
use std::test::Fail;

/// Rolls to some key, or has no next.
fn rolls(alloc: Global, book: &mut RollBook) -> Result<bool, AllocError> {
    let next = LmsPublic {
        lms: LmsType::H5,
        ots: OtsType::W1,
        id: [1; 16],
        root: [2; 32],
    };
    match book.roll(alloc, Role::LogServer.party(2), &next) {
        Ok(due) => {
            forgo(due);
            Ok(true)
        }
        Err(RollFault::Last) => Ok(false),
        Err(RollFault::Memory) => Err(AllocError),
    }
}

/// The number of times that a new book rolls, or 1001.
fn times(alloc: Global) -> Result<usize, AllocError> {
    let mut book = RollBook::new(alloc, 32);
    for times in 0..1001 {
        if !rolls(alloc, &mut book)? {
            return Ok(times);
        }
    }
    Ok(1001)
}

#[test]
fn a_book_rolls_to_the_last_generation(rt: HostRuntime) -> Result<(), Fail> {
    assert_eq!(rt; times(rt.alloc())?, 999);
    Ok(())
}
