//! Tests of what a client remembers, by calls of `client_memory`: what it answers, that it takes no more than 4,096 changes,
//! that it forgets, and that what was stored of it is loaded again. There is nothing to call.
#![tactic(auto)]

#[cfg(test)]
mod books;
#[cfg(test)]
mod changes;
#[cfg(test)]
mod shown;
#[cfg(test)]
mod values;
