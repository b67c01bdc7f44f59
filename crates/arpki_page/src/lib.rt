//! The program `arpki` for whoever calls it with bytes, as a page in a browser does: a static library with one call, words and
//! an input as bytes in, the output and the status out. It opens no stream, and keeps nothing between calls.
//!
//! The call stands over `arpki_main`, with a source over the caller's input and a sink that keeps what it takes; so all that
//! is proved of the program is proved of it. `specs/Called.antt` says what is answered.
//!
//! Its tests: `tools/web --test`, which calls it in what a compiler that no proof covers makes of it.
#![tactic(auto)]

mod calls;
mod kept;
mod words;

pub use calls::arpki_page;
pub use words::CallWord;
