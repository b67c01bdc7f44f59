ghost use Rattle.std.specs.Prelude.{◌≡◌, ◌<◌, [], IfOk};
ghost use Rattle.serve_run.specs.Serving.{IsReply, IsServerOf};
ghost use Rattle.serve_run.specs.Workers.{Draws_for, IsFresh, Tells};

use crate::reading::Service;
use crate::reply::Reply;
use node_crowd::Gate;
use possession::{LeafSeat, Server};
use sha2::{Digest, Sha256};
use std::alloc::{AllocError, Global};
use std::collections::VecDeque;
use std::marker::Model;

/// How many bytes a signature of a key of the types 5 and 3 has.
const SIGNATURE_LEN: usize = 2348;

/// A worker before it begins: its number, from 0, and its seat.
#[derive(Drop)]
pub(crate) struct Post {
    pub(crate) worker: usize,
    pub(crate) seat: LeafSeat,
}

// Clauses see the fields.
impl Model for Post {
    ghost use Rattle.serve_run.specs.Workers.{Post as Spec};

    ghost Value = { Spec };

    ghost view = { λ p. record { worker = p.worker; seat = p.seat } };
}

/// What a worker brings back: its seat, and its replies in order.
#[derive(Drop)]
pub(crate) struct Told {
    pub(crate) seat: LeafSeat,
    pub(crate) replies: VecDeque<Reply>,
}

// Clauses see the seat and the list of the replies.
impl Model for Told {
    ghost use Rattle.serve_run.specs.Workers.{Told as Spec};

    ghost Value = { Spec };

    ghost view = { λ t. record { seat = t.seat; replies = t.replies.items } };
}

/// Answers the challenge of this number, for which the gate was passed: that alone is why it takes the gate and the number.
fn reply<G: Gate>(
    gate: &G,
    number: u64,
    service: &Service,
    server: &Server,
    seat: &mut LeafSeat,
    challenge: &[u8; 32],
) -> Reply
    requires passed { G.passed gate.now number }
    requires server { IsServerOf service.now server.now }
    requires own { seat.old.book ≡ server.now.book }
    ensures replied { IsReply service.now challenge.now result }
    ensures drew { Draws_for seat.old result seat.new }
{
    let mut signature = [0; SIGNATURE_LEN];
    match server.answer(seat, challenge, &mut signature) {
        Ok(leaf) => Reply::Signed {
            leaf,
            digest: Sha256::digest(&signature),
        },
        Err(_) => Reply::Exhausted,
    }
}

/// Answers the challenges of one worker of so many, each behind the gate.
#[tactic(auto, using(crate::proofs::Turns::work_laws))]
pub(crate) fn work<G: Gate>(
    alloc: Global,
    gate: &G,
    service: &Service,
    server: &Server,
    workers: usize,
    post: Post,
) -> Result<Told, AllocError>
    requires some { 0 < workers }
    requires server { IsServerOf service.now server.now }
    requires fresh { IsFresh server.now.book post.seat }
    ensures { IfOk result (λ told. Tells service.now workers post told) }
{
    let Post { worker, mut seat } = post;
    let mut replies = VecDeque::new(alloc);
    for number in 0..service.challenges.len() {
        if number % workers == worker {
            gate.before(number as u64);
            let challenge = &service.challenges[number];
            let reply = reply(gate, number as u64, service, server, &mut seat, challenge);
            replies.push_back(reply)?;
        }
    }
    Ok(Told { seat, replies })
}
