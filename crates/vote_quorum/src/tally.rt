ghost use Rattle.std.specs.Prelude.{◌≡◌, ◌∷◌, ◌++◌, [], ◌↔◌, Contains, OnOk, OnErr};
ghost use Rattle.vote_quorum.specs.Ballots.{log_count, quorum_of, with_ballot};

use crate::marks::{Candidate, Mark, add_to, add_with, first_with, place_of};
use crate::{Added, Value};
use std::alloc::{AllocError, Global};
use std::marker::Model;

/// The ballots that were added, each once, in order of adding.
///
/// A log may have ballots for several values, and each counts for its own. Each value is kept once, as
/// a candidate, in order of adding.
#[derive(Debug, Drop)]
pub struct Tally {
    candidates: Vec<Candidate>,
    marks: Vec<Mark>,
}

// Clauses see the list of the ballots: pairs of a log's number and a value.
impl Model for Tally {
    ghost use Rattle.std.specs.Prelude.{List};
    ghost use Rattle.vote_quorum.specs.Ballots.{Ballot};
    ghost use Rattle.vote_quorum.specs.Marks.{IsTally, ballots_of, values_of};

    ghost Value = { List Ballot };

    ghost view = { λ t. ballots_of (values_of t.candidates.items) t.marks.items };

    ghost invariant = { λ t. IsTally t.candidates.items t.marks.items };
}

impl Tally {
    /// No ballots. It takes no memory.
    pub fn new(alloc: Global) -> Tally
        ensures { result ≡ [] }
    {
        Tally {
            candidates: Vec::new(alloc),
            marks: Vec::new(alloc),
        }
    }

    /// Adds a log's ballot for a value, unless it is there already.
    ///
    /// It compares the value with each candidate and the log with each ballot, so it costs at most the
    /// number of values and logs kept. For want of memory the tally is as it was.
    pub fn add(&mut self, _alloc: Global, log: u16, value: Value) -> Result<Added, AllocError>
        ensures again { (result ≡ Ok Added.Again) ↔ Contains self.old (log, value) }
        ensures new { result ≡ Ok Added.New → self.new ≡ self.old ++ (log, value) ∷ [] }
        ensures ballots { OnOk result (self.new ≡ with_ballot self.old (log, value)) }
        ensures err { OnErr result (self.new ≡ self.old) }
    {
        match place_of(&self.candidates, &value) {
            Some(place) => add_to(&mut self.candidates, &mut self.marks, log, place),
            None => add_with(&mut self.candidates, &mut self.marks, log, value),
        }
    }

    /// How many logs have a ballot for the value. It compares the value with each candidate.
    pub fn count(&self, value: &Value) -> usize
        ensures { result ≡ log_count self.now value.now }
    {
        match place_of(&self.candidates, value) {
            Some(place) => self.candidates[place].logs,
            None => 0,
        }
    }

    /// The first value, in order of adding, that at least `q` logs have a ballot for. It is `None`
    /// exactly where there is none.
    ///
    /// With `q` = 0 it is the first value that was added. It looks at each candidate once.
    pub fn quorum(&self, q: usize) -> Option<Value>
        ensures { result ≡ quorum_of self.now q }
    {
        first_with(&self.candidates, q)
    }
}
