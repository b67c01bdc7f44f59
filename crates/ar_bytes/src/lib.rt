//! Big-endian fields: a reader over borrowed bytes that knows its place in the whole input, calls that
//! append fields to a vector, and calls that write fields into borrowed bytes.
//!
//! `specs/Reading.antt` says what it means to read a field. Every grammar of bytes above is written in
//! its words.
//!
//! `specs/Tested.antt` has fields of one byte with few values, `specs/Joined.antt` fields that are joined to
//! one, `specs/Ascending.antt` lists whose numbers ascend, and `specs/RoundTrip.antt` the texts of fields: what
//! is put is read again.
//!
//! Its tests: `examples/`, all of whose texts it reads and writes.
#![tactic(auto)]

mod fields;
pub mod laws;
mod order;
mod put;
mod take;
mod write;

pub use fields::{Fields, are_bytes, digest_told, u32_of};
pub use order::ascends;
pub use put::{put_bytes, put_u8, put_u16, put_u32, put_u64};
pub use write::{write_bytes, write_u8, write_u16, write_u32, write_u64};
