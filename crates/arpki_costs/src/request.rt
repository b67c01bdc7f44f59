//! What the words ask for.
use std::io::{self, ErrorKind};

/// A call that is measured, with what it is made of.
pub(crate) enum Request {
    Key { lms: u32, ots: u32 },
    Sign { lms: u32, ots: u32 },
    Root { count: u32 },
    Fill { count: u32 },
    Change { count: u32 },
    Judge { count: u32 },
    Apply { count: u32 },
    Message { len: u16 },
}

/// The call that the words name.
pub(crate) fn request_of(words: &[String]) -> io::Result<Request> {
    match words {
        [call, lms, ots] => of_types(call.as_str(), number(lms)?, number(ots)?),
        [call, count] => of_count(call.as_str(), number(count)?),
        _ => Err(ErrorKind::InvalidInput.into()),
    }
}

fn of_types(call: &str, lms: u32, ots: u32) -> io::Result<Request> {
    match call {
        "key" => Ok(Request::Key { lms, ots }),
        "sign" => Ok(Request::Sign { lms, ots }),
        _ => Err(ErrorKind::InvalidInput.into()),
    }
}

fn of_count(call: &str, count: u32) -> io::Result<Request> {
    match call {
        "root" => Ok(Request::Root { count }),
        "fill" => Ok(Request::Fill { count }),
        "change" => Ok(Request::Change { count }),
        "judge" => Ok(Request::Judge { count }),
        "apply" => Ok(Request::Apply { count }),
        "message" => of_length(count),
        _ => Err(ErrorKind::InvalidInput.into()),
    }
}

fn of_length(count: u32) -> io::Result<Request> {
    match u16::try_from(count) {
        Ok(len) => Ok(Request::Message { len }),
        Err(_) => Err(ErrorKind::InvalidInput.into()),
    }
}

fn number(word: &String) -> io::Result<u32> {
    match word.parse::<u32>() {
        Ok(number) => Ok(number),
        Err(_) => Err(ErrorKind::InvalidInput.into()),
    }
}
