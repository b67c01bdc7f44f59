ghost use Rattle.std.specs.Prelude.{◌≡◌, ◌<◌, IfOk, length, map};
ghost use Rattle.serve_run.specs.Workers.{HasRows, IsWoven, TakesNext};

use crate::reading::Service;
use crate::reply::Reply;
use std::alloc::{AllocError, Global};
use std::collections::VecDeque;

/// Takes the first reply of a row, where it has one.
fn take_next(rows: &mut [VecDeque<Reply>], row: usize) -> Option<Reply>
    requires { row < length rows.old }
    ensures { TakesNext (map (λ r. r.items) rows.old) row result (map (λ r. r.items) rows.new) }
{
    rows[row].pop_front()
}

/// The replies to all challenges in order, from a row of each worker: one of each in turn.
pub(crate) fn woven(
    alloc: Global,
    service: &Service,
    rows: &mut [VecDeque<Reply>],
) -> Result<Vec<Reply>, AllocError>
    requires some { 0 < length rows.old }
    requires rows { HasRows service.now (length rows.old) (map (λ r. r.items) rows.old) }
    ensures { IfOk result (λ replies.
        IsWoven service.now (length rows.old) (map (λ r. r.items) rows.old) replies.items) }
{
    let workers = rows.len();
    let mut replies = Vec::new(alloc);
    for number in 0..service.challenges.len() {
        match take_next(rows, number % workers) {
            Some(reply) => replies.push(reply)?,
            None => unreachable!(),
        }
    }
    Ok(replies)
}
