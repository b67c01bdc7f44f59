use ar_run::Answer;
use log_restart::Disks;

/// What is answered, and the disks of the two runs, where these were made.
#[derive(Drop)]
pub(crate) struct Ended {
    pub(crate) answer: Answer,
    pub(crate) disks: Option<Disks>,
}
