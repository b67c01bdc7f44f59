use log_core::LogCore;
use std::marker::Model;

/// Where a station stands, as plain data. It stands in contracts alone: no value of it is made.
pub struct StationState {
    /// A log, as one case of what contracts see.
    pub log: LogCore,
}

// Clauses see a log, or an authority with what its check tells and has answered.
impl Model for StationState {
    ghost use Rattle.station.specs.Station.{StationState, a_log};

    ghost Value = { StationState };

    ghost view = { λ s. a_log s.log };
}
