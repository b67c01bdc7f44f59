ghost use Rattle.std.specs.Prelude.{◌≡◌, ◌<◌, IfOk, Ok, All, map};
ghost use Rattle.std.specs.List.{AllByRecursion, AllZip};
ghost use Rattle.ar_seats.specs.Shares.{whole};
ghost use Rattle.leaf_book.specs.Book.{first_seat};
ghost use Rattle.serve_run.specs.Answers.{Serves};
ghost use Rattle.serve_run.specs.Serving.{IsServed, IsServerOf, serving_key};
ghost use Rattle.serve_run.specs.Workers.{Brings, IsFresh, MayTell, Post as PostValue, Posted, Tells, Told as ToldValue, joined_all};

use crate::printing::answer;
use crate::reading::Service;
use crate::reply::Reply;
use crate::weaving::woven;
use crate::worker::{Post, Told, work};
use ar_run::Answer;
use ar_statement::Role;
use lms_tree::{KeyFault, LmsKey};
use node_crowd::Gate;
use party_keys::party_seed;
use possession::{LeafSeat, Server};
use std::alloc::{AllocError, Global};
use std::collections::VecDeque;
use std::thread::{Threads, map_vec};

/// The key that serves: that of owner 0 under the secret, of the types 5 and 3.
pub(crate) fn key_of(alloc: Global, secret: &[u8; 32]) -> Result<LmsKey, AllocError>
    ensures { IfOk result (λ key. key ≡ serving_key secret.now) }
{
    let seed = party_seed(secret, Role::Owner, 0);
    match LmsKey::make(alloc, &seed, 5, 3) {
        Ok(key) => Ok(key),
        Err(KeyFault::Memory) => Err(AllocError),
        Err(KeyFault::Kind) => unreachable!(),
    }
}

/// A post for each worker, whose seats are split from this one.
#[tactic(auto, using(crate::proofs::Bringing::posted_none, crate::proofs::Bringing::posted_next))]
fn posts(
    alloc: Global,
    server: &Server,
    seat: &mut LeafSeat,
    workers: usize,
) -> Result<Vec<Post>, AllocError>
    requires fresh { IsFresh server.now.book seat.old }
    ensures { IfOk result (λ posts.
        Posted server.now.book seat.old.share workers seat.new posts.items) }
{
    let mut posts = Vec::new(alloc);
    for worker in 0..workers {
        let Ok(given) = server.split(alloc, seat) else {
            return Err(AllocError);
        };
        posts.push(Post {
            worker,
            seat: given,
        })?;
    }
    Ok(posts)
}

/// What was told, where no worker ran out of memory.
fn each_told(alloc: Global, results: Vec<Result<Told, AllocError>>) -> Result<Vec<Told>, AllocError>
    ensures { IfOk result (λ all. results.items ≡ map Ok all.items) }
{
    let mut all = Vec::new(alloc);
    for result in results {
        all.push(result?)?;
    }
    Ok(all)
}

/// What all workers tell, each from a thread of its own where one can be made.
fn all_told<R: Threads + Sync, G: Gate>(
    rt: &R,
    alloc: Global,
    gate: &G,
    service: &Service,
    server: &Server,
    workers: usize,
    posts: Vec<Post>,
) -> Result<Vec<Told>, AllocError>
    requires some { 0 < workers }
    requires server { IsServerOf service.now server.now }
    requires fresh { All (λ (post : PostValue). IsFresh server.now.book post.seat) posts.items }
    ensures { IfOk result (λ all. AllZip (Tells service.now workers) posts.items all.items) }
{
    let results = map_vec(
        rt,
        posts,
        &|post: Post|
            requires { (0 < workers) × IsServerOf service.now server.now
                × IsFresh server.now.book post.seat }
            ensures { MayTell service.entry.now workers post result }
        { work(alloc, gate, service, server, workers, post) },
    )?;
    each_told(alloc, results)
}

/// Joins the seats of all workers into one, and hands out their replies, a row for each worker.
#[tactic(auto, using(crate::proofs::Bringing::map_front))]
fn joined(
    alloc: Global,
    server: &Server,
    seat: &mut LeafSeat,
    all: Vec<Told>,
) -> Result<Vec<VecDeque<Reply>>, AllocError>
    requires own { seat.old.book ≡ server.now.book }
    requires others { AllByRecursion (λ (told : ToldValue). told.seat.book
        ≡ server.now.book) all.items }
    ensures seat { IfOk result (λ rows. seat.new ≡ joined_all seat.old all.items) }
    ensures rows { IfOk result (λ rows.
        map (λ r. r.items) rows.items ≡ map (λ (told : ToldValue). told.replies) all.items) }
{
    let mut rows = Vec::new(alloc);
    for told in all {
        let Told {
            seat: other,
            replies,
        } = told;
        server.join(seat, other);
        rows.push(replies)?;
    }
    Ok(rows)
}

/// The rows of the replies of so many workers, whose seats are split from this one and joined into it again.
#[tactic(auto, using(crate::proofs::Bringing::all_fresh, crate::proofs::Bringing::told_books))]
fn rows_of<R: Threads + Sync, G: Gate>(
    rt: &R,
    alloc: Global,
    gate: &G,
    service: &Service,
    server: &Server,
    seat: &mut LeafSeat,
    workers: usize,
) -> Result<Vec<VecDeque<Reply>>, AllocError>
    requires some { 0 < workers }
    requires server { IsServerOf service.now server.now }
    requires seat { seat.old ≡ first_seat server.now.book whole }
    ensures { IfOk result (λ rows.
        Brings service.now workers server.now.book seat.new (map (λ r. r.items) rows.items)) }
{
    let posts = posts(alloc, server, seat, workers)?;
    let all = all_told(rt, alloc, gate, service, server, workers, posts)?;
    joined(alloc, server, seat, all)
}

/// The replies of so many workers to all challenges, in order: each worker is a thread of its own where one can be made.
#[tactic(auto, using(crate::proofs::Served::rows_some, crate::proofs::Served::rows_there))]
fn replies<R: Threads + Sync, G: Gate>(
    rt: &R,
    alloc: Global,
    gate: &G,
    service: &Service,
    key: LmsKey,
    workers: usize,
) -> Result<Vec<Reply>, AllocError>
    requires some { 0 < workers }
    requires key { key ≡ serving_key service.now.secret }
    ensures { IfOk result (λ replies. IsServed service.now workers replies.items) }
{
    let name = service.name.view().to_name(alloc)?;
    let (server, mut seat) = Server::new(alloc, name, service.certificate, key)?;
    let mut rows = rows_of(rt, alloc, gate, service, &server, &mut seat, workers)?;
    server.close(seat);
    woven(alloc, service, &mut rows)
}

/// The answer to a service by so many workers.
pub(crate) fn served<R: Threads + Sync, G: Gate>(
    rt: &R,
    alloc: Global,
    gate: &G,
    service: &Service,
    workers: usize,
) -> Result<Answer, AllocError>
    requires some { 0 < workers }
    ensures { IfOk result (λ answer. Serves workers service.now answer) }
{
    let key = key_of(alloc, &service.secret)?;
    let public = key.public();
    let replies = replies(rt, alloc, gate, service, key, workers)?;
    answer(alloc, &public, &replies)
}
