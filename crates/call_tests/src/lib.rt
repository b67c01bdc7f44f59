//! Tests of calls of single crates, of what no stored example shows: how changes are judged alone and in chains, a message that is too
//! long, a book that rolls to its last generation, and values of printed lines. There is nothing to call.
#![tactic(auto)]

#[cfg(test)]
mod ar_cert_tests;
#[cfg(test)]
mod ar_message_tests;
#[cfg(test)]
mod key_roll_tests;
#[cfg(test)]
mod report_text_tests;
