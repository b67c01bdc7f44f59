ghost use Rattle.std.specs.Prelude.{◌≡◌, ◌≢◌, ◌<◌, ◌==◌, nat_le, ◌&&◌, All, find, length, position};
ghost use Rattle.std.specs.List.{list_any};
ghost use Rattle.std.specs.Option.{option_map};
ghost use Rattle.vote_quorum.specs.Ballots.{Adds, is_same};
ghost use Rattle.vote_quorum.specs.Marks.{IsTally, ballots_of, value_at, values_of};

use crate::{Added, Value};
use std::alloc::AllocError;

/// A value that ballots are for, and how many logs have one.
#[derive(Clone, Copy, Debug)]
pub(crate) struct Candidate {
    pub(crate) value: Value,
    pub(crate) logs: usize,
}

/// A ballot: its log, and the place of its value among the candidates.
#[derive(Clone, Copy, Debug)]
pub(crate) struct Mark {
    pub(crate) log: u16,
    pub(crate) candidate: usize,
}

/// The place of a value among the candidates.
pub(crate) fn place_of(candidates: &[Candidate], value: &Value) -> Option<usize>
    ensures { result ≡ position (λ c. is_same c.value value.now) candidates.now }
{
    candidates.iter().position(|c| c.value == *value)
}

/// Whether a log has a mark at this place.
pub(crate) fn is_marked(marks: &[Mark], log: u16, place: usize) -> bool
    ensures { result ≡ list_any (λ m. (m.log == log) && (m.candidate == place)) marks.now }
{
    marks.iter().any(|m| m.log == log && m.candidate == place)
}

/// The value of the first candidate with at least `q` logs.
pub(crate) fn first_with(candidates: &[Candidate], q: usize) -> Option<Value>
    ensures { result ≡ option_map (λ c. c.value) (find (λ c. nat_le q c.logs) candidates.now) }
{
    candidates.iter().find(|c| c.logs >= q).map(|c| c.value)
}

/// Adds a log's mark for the candidate at a place, unless it is there.
pub(crate) fn add_to(
    candidates: &mut [Candidate],
    marks: &mut Vec<Mark>,
    log: u16,
    place: usize,
) -> Result<Added, AllocError>
    requires tally { IsTally candidates.old marks.old.items }
    requires place { place < length candidates.old }
    ensures tally { IsTally candidates.new marks.new.items }
    ensures adds { Adds (log, value_at (values_of candidates.old) place) result
        (ballots_of (values_of candidates.old) marks.old.items)
        (ballots_of (values_of candidates.new) marks.new.items) }
{
    if is_marked(marks, log, place) {
        return Ok(Added::Again);
    }
    marks.push(Mark {
        log,
        candidate: place,
    })?;
    candidates[place].logs += 1;
    Ok(Added::New)
}

/// Adds a candidate with its first log. Its value is none of those kept.
pub(crate) fn add_with(
    candidates: &mut Vec<Candidate>,
    marks: &mut Vec<Mark>,
    log: u16,
    value: Value,
) -> Result<Added, AllocError>
    requires tally { IsTally candidates.old.items marks.old.items }
    requires new { All (λ v. v ≢ value) (values_of candidates.old.items) }
    ensures tally { IsTally candidates.new.items marks.new.items }
    ensures adds { Adds (log, value) result
        (ballots_of (values_of candidates.old.items) marks.old.items)
        (ballots_of (values_of candidates.new.items) marks.new.items) }
{
    candidates.reserve(1)?;
    marks.push(Mark {
        log,
        candidate: candidates.len(),
    })?;
    candidates.push_reserved(Candidate { value, logs: 1 });
    Ok(Added::New)
}
