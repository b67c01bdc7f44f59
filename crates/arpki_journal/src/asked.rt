//! What a line asks.
use hex::FromHexError;
use std::alloc::{AllocError, Global};

/// What a line asks of the log.
#[derive(Debug, Drop)]
pub(crate) enum Asked {
    Propose,
    Pass,
    Roll,
    /// To take this message.
    Take(Vec<u8>),
    /// It says no input.
    Nothing,
}

/// What a line asks of the log.
pub(crate) fn read_line(alloc: Global, line: &str) -> Result<Asked, AllocError> {
    match line {
        "propose" => Ok(Asked::Propose),
        "pass" => Ok(Asked::Pass),
        "roll" => Ok(Asked::Roll),
        _ => match line.strip_prefix("take ") {
            Some(text) => message_in(alloc, text),
            None => Ok(Asked::Nothing),
        },
    }
}

/// To take the message whose hex this is.
fn message_in(alloc: Global, text: &str) -> Result<Asked, AllocError> {
    match hex::decode(alloc, text) {
        Ok(bytes) => Ok(Asked::Take(bytes)),
        Err(FromHexError::OutOfMemory) => Err(AllocError),
        Err(_) => Ok(Asked::Nothing),
    }
}
