//! What no stored script shows of messages: one that is too long, and the steps of a path. The scripts `wrong-messages` and
//! `wrong-certificates` of `examples/play` have every kind of message, cut at each length and lengthened by one, and wrong fields.

use ar_base::Items;
use ar_message::{Message, MessageFault, PathSteps};
use std::alloc::Global;
use std::test::Fail;
use tree_proof::Path;

/// Why a text is no message.
fn fault(alloc: Global, text: &[u8]) -> Option<MessageFault> {
    Message::read(alloc, text).err()
}

#[test]
fn of_a_message_that_is_too_long_nothing_is_looked_at(rt: HostRuntime) -> Result<(), Fail> {
    let mut zeros = vec![in rt.alloc(); 0u8; 4_194_304]?;
    let short = fault(rt.alloc(), &zeros);
    assert_eq!(rt; short, Some(MessageFault::Form(0)));
    zeros.push(0)?;
    let long = fault(rt.alloc(), &zeros);
    assert_eq!(rt; long, Some(MessageFault::Form(4_194_304)));
    Ok(())
}

/// The bytes of the steps of a path with two digests, all ones and all twos.
fn two_steps(alloc: Global) -> Result<Vec<u8>, Fail> {
    let path = Path {
        steps: Items::from_vec(Vec::from_array(alloc, [[1; 32], [2; 32]])?),
    };
    let steps = PathSteps::of_path(alloc, &path)?;
    Ok(steps.as_slice().to_vec(alloc)?)
}

#[test]
fn a_path_becomes_steps(rt: HostRuntime) -> Result<(), Fail> {
    let found = two_steps(rt.alloc())?;
    assert_eq!(rt; found.as_slice(), [[1; 32], [2; 32]].as_flattened());
    Ok(())
}
